// How many bytes follow a code.
ghost use Rattle.std.specs.Prelude.{◌≡◌, ◌≤◌};
ghost use Rattle.addressing.specs.Lengths.{base_literals, mode_literals, literal_count};

use decode::{Base, Form, Instruction, Mode};
use registers::span;

#[inline(always)]
fn base_literals(base: Base) -> usize
    ensures { result ≡ base_literals base }
{
    match base {
        Base::Literal | Base::Indexed => 2,
        Base::Register | Base::StackUp | Base::StackDown => 0,
    }
}

#[inline(always)]
fn mode_literals(mode: Mode, form: Form, drp: u8) -> usize
    ensures value { result ≡ mode_literals mode form drp }
    ensures few { result ≤ 8 }
{
    match mode {
        Mode::Register => 0,
        Mode::Immediate => span(form, drp),
        Mode::Memory { base, .. } => base_literals(base),
    }
}

#[inline(always)]
pub fn count_literals(instruction: Instruction, drp: u8) -> usize
    ensures value { result ≡ literal_count instruction drp }
    ensures few { result ≤ 8 }
{
    match instruction {
        Instruction::Compute(_, Some(mode), form) | Instruction::Store(mode, form) => {
            mode_literals(mode, form, drp)
        }
        Instruction::Call(base) => base_literals(base),
        Instruction::Jump(_) => 1,
        Instruction::Compute(_, None, _)
        | Instruction::SetArp(_)
        | Instruction::SetDrp(_)
        | Instruction::Control(_) => 0,
    }
}
