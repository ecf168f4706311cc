// A tape as text, which people can write and read: a record a line, its mark in letters and its bytes in hexadecimal.
#![tactic(auto)]

mod fault;
mod listing;
mod reading;

pub use fault::{Expected, PunchError, TextFault};
pub use listing::list;
pub use reading::punch;
