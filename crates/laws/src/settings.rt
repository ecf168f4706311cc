// Settings worked out by hand.
ghost use Rattle.std.specs.Prelude.{◌≡◌, [], ◌∷◌};
ghost use Rattle.registers.specs.Model.{state_of};
ghost use Rattle.laws.specs.ByHand.{loaded, WorkedSettings};

use alu::worked_examples;
use registers::{Cpu, Form, span};

#[derive(Clone, Copy)]
pub struct Settings {
    // The spans of a multi form at DRP R42, R30, R37 and R77.
    pub spans: [usize; 4],
    // Where F0 FE and F0 7F at address 256 go.
    pub jumps: [u16; 2],
    // What LDM R30,R42 leaves of the registers.
    pub loaded: Cpu,
}

// What the settings come to by hand; that the instructions do the same is part of the contract.
pub fn worked_settings(cpu: &Cpu) -> Settings
    ensures spans { result.spans ≡ 6 ∷ 2 ∷ 1 ∷ 1 ∷ [] }
    ensures jumps { result.jumps ≡ 256 ∷ 385 ∷ [] }
    ensures loaded { state_of result.loaded ≡ loaded (state_of cpu.now) }
    ensures settings { WorkedSettings (state_of cpu.now) }
{
    worked_examples();
    let mut loaded = *cpu;
    loaded.set_pair(4, cpu.pc().wrapping_add(1));
    loaded.write_row(0o30, &[cpu.registers[0o42], cpu.registers[0o43]]);
    Settings {
        spans: [0o42, 0o30, 0o37, 0o77].map(|drp| span(Form::Multi, drp)),
        jumps: [-2, 127].map(|offset| 258_u16.wrapping_add_signed(offset)),
        loaded,
    }
}
