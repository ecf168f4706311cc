// Piles of layers, however high, over any bus.
#![tactic(auto)]

mod pile;

pub use pile::Pile;
