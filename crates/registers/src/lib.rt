// The processor's own state: 64 byte registers, two pointers, eight status bits and the extend register E.
#![tactic(auto)]

mod cpu;
mod mar;
mod status;

pub use cpu::Cpu;
pub use cpu::rows::{Form, span};
pub use mar::Mar;
pub use status::Status;
