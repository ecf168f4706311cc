// Where two states of the processor differ.
ghost use Rattle.std.specs.Prelude.{◌≡◌};
ghost use Rattle.registers.specs.Differences.{register_mar, other_mar, mar_of};
ghost use Rattle.registers.specs.Model.{state_of};

use crate::cpu::Cpu;
use crate::mar::Mar;

// The first register that differs.
fn first_register(xs: &[u8; 64], ys: &[u8; 64]) -> Option<Mar>
    ensures { result ≡ register_mar 0 xs.now ys.now }
{
    xs.iter()
        .zip(ys)
        .position(|(x, y)| x != y)
        .map(|k| Mar::Register(k as u8))
}

// The first of the pointers, the status and E that differs.
fn first_other(s: &Cpu, t: &Cpu) -> Option<Mar>
    ensures { result ≡ other_mar (state_of s.now) (state_of t.now) }
{
    if s.arp != t.arp {
        Some(Mar::Arp)
    } else if s.drp != t.drp {
        Some(Mar::Drp)
    } else if s.status != t.status {
        Some(Mar::Status)
    } else if s.e != t.e {
        Some(Mar::E)
    } else {
        None
    }
}

impl Cpu {
    // The first part that differs from a later state's.
    pub fn mar(&self, later: &Cpu) -> Option<Mar>
        ensures { result ≡ mar_of (state_of self.now) (state_of later.now) }
    {
        first_register(&self.registers, &later.registers).or_else(|| first_other(self, later))
    }
}
