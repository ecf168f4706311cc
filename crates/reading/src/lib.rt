// What an instruction asks of a bus: one byte after another, and whether its stores would be taken; each refusal with its
// address, and the first stained address that is read noted on the way.
#![tactic(auto)]

mod fault;
mod reads;

pub use fault::Fault;
pub use reads::{BusReader, is_stained};
