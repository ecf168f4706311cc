// The memory of the program `exchange`.
#![tactic(auto)]

mod memory;

pub use memory::Memory;
