// What the processor works out on rows of bytes, low byte first.
#![tactic(auto)]

mod decimals;
mod examples;
mod logic;
mod operations;
mod shift;
mod status;
mod sums;
mod words;

pub use examples::worked_examples;
pub use logic::{Logic, join};
pub use operations::{Flags, NotDecimal, Operation, operate};
pub use shift::{Unit, shift_left, shift_right};
pub use status::see;
pub use sums::{Carried, combine};
pub use words::{Worked, operate_row};
