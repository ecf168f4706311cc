// The instruction that a code stands for.
#![tactic(auto)]

ghost use Rattle.std.specs.Prelude.{◌≡◌, not};
ghost use Rattle.decode.specs.Codes.{decoded};
ghost use Rattle.decode.specs.OneToOne.{illegal, CodesAreOneToOne};

mod codes;
mod instruction;

use codes::CODES;
pub use instruction::{Base, Condition, Control, Instruction, Mode, Source};
pub use registers::Form;

// The instruction of a code, or none where the code is illegal.
#[inline(always)]
#[tactic(auto, using(crate::proofs::Table::at_code))]
pub fn decode(code: u8) -> Option<Instruction>
    ensures { result ≡ decoded code }
{
    CODES[usize::from(code)]
}

// Whether the code is one of an instruction. No instruction has two codes.
#[tactic(auto, using(crate::proofs::Table::legal))]
pub fn is_legal(code: u8) -> bool
    ensures test { result ≡ not (illegal code) }
    ensures one_code { CodesAreOneToOne }
{
    decode(code).is_some()
}
