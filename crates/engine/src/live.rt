// An exchange in service.
ghost use Rattle.std.specs.Prelude.{◌≡◌, length, None};
ghost use Rattle.registers.specs.State.{began, pc_of};
ghost use Rattle.engine.specs.States.{live_state, visit_state, read_out_of};
ghost use Rattle.engine.specs.Visits.{if_sized};

use noninterference::{Refusal, StepFault};
use registers::{Cpu, Status};

pub mod ringing;
pub mod running;
pub mod stepping;

// The sheet has a bit for each of the 65,536 addresses.
pub const SHEET_SIZE: usize = 8192;

#[derive(Drop, PartialEq, Eq, Debug)]
pub struct Live {
    cpu: Cpu,
    // While a visit is open, the processor from before its ring.
    visit: Option<Cpu>,
}

// What an exchange ends with. Its fields are plain, since the definitions make one of any state; a `Cpu` also holds that its
// pointers and E are in range.
#[derive(Clone, Copy, PartialEq, Eq, Debug)]
pub struct ReadOut {
    pub registers: [u8; 64],
    pub arp: u8,
    pub drp: u8,
    pub status: Status,
    pub e: u8,
}

impl Live {
    // Goes into service with no visit open.
    pub(crate) fn begin(pc: u16, return_pointer: u16) -> Live
        ensures cpu { live_state result ≡ began pc return_pointer }
        ensures visit { visit_state result ≡ None }
    {
        Live {
            cpu: Cpu::new(pc, return_pointer),
            visit: None,
        }
    }

    // The program counter.
    pub fn pc(&self) -> u16
        ensures { result ≡ pc_of (live_state self.now) }
    {
        self.cpu.pc()
    }

    // Every call is refused first where the sheet has another size.
    fn check_sheet(&self, sheet: &[u8]) -> Result<(), Refusal>
        ensures { result ≡ if_sized (length sheet.now) (pc_of (live_state self.now)) }
    {
        if sheet.len() == SHEET_SIZE {
            Ok(())
        } else {
            Err(Refusal {
                place: self.pc(),
                fault: StepFault::Sheet,
                told: None,
            })
        }
    }

    // Leaves service.
    pub fn end(self) -> ReadOut
        ensures { result ≡ read_out_of (live_state self) }
    {
        let Cpu {
            registers,
            arp,
            drp,
            status,
            e,
        } = self.cpu;
        ReadOut {
            registers,
            arp,
            drp,
            status,
            e,
        }
    }
}
