// A bus of 65,536 addresses, and the three kinds that rest on no other: RAM, ROM and the line board.
#![tactic(auto)]

mod board;
mod contract;
mod place;
mod ram;
mod refusal;
mod rom;
mod trunk;

pub use board::LineBoard;
pub use contract::{Bus, Loadable};
pub use ram::Ram;
pub use refusal::{BusRefusal, Cause, raise};
pub use rom::Rom;
pub use trunk::Trunk;
