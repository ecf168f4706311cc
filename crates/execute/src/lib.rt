// What the instructions do: each is carried out on the processor, up to its stores, over any bus.
#![tactic(auto)]

mod calls;
mod computing;
mod controls;
mod executed;
mod jumps;
mod performing;
mod saving;
mod storing;

pub use calls::call;
pub use computing::keeps;
pub use executed::Executed;
pub use performing::carry_out;
