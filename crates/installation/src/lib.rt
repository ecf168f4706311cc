// An exchange with its memory and its sheet, which can be called in any order and refuses what is out of turn.
#![tactic(auto)]

mod fault;
mod installation;

pub use fault::CallFault;
pub use installation::{Installation, Phase};
