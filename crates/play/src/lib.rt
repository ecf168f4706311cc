// Plays a tape one record at a time, and writes each record's lines.
#![tactic(auto)]

mod fault;
mod lines;
mod phase;
mod player;

pub use fault::{Event, PlayFault, Played, Refusal};
pub use lines::BUFFER_SIZE;
pub use phase::Phase;
pub use player::Player;
