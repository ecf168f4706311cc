// What PAD and RTN give back.
ghost use Rattle.std.specs.Prelude.{◌≡◌};
ghost use Rattle.std.specs.Option.{option_map};
ghost use Rattle.registers.specs.Model.{state_of};
ghost use Rattle.laws.specs.Undoing.{given_back as given_back_in, Undone};

use decode::{Control, Instruction};
use registers::Cpu;

// What PAD makes of a later state after SAD was carried out, or RTN after JSB, if the bytes then stored still stand at the return
// pointer. No other instruction is undone.
#[tactic(auto, using(crate::proofs::Undoing::undone))]
pub fn given_back(instruction: Instruction, cpu: &Cpu, later: &Cpu) -> Option<Cpu>
    ensures value { option_map state_of result ≡ given_back_in instruction (state_of cpu.now) (state_of later.now) }
    ensures undone { Undone instruction (state_of cpu.now) (state_of later.now) }
{
    let mut back = *later;
    back.set_pair(6, cpu.pair(6));
    match instruction {
        Instruction::Control(Control::SaveStatus) => {
            back.arp = cpu.arp;
            back.drp = cpu.drp;
            back.status = cpu.status;
            Some(back)
        }
        Instruction::Call(_) => {
            back.set_pair(4, cpu.pc());
            Some(back)
        }
        _ => None,
    }
}
