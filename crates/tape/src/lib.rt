// A tape: records, each a two-letter mark and its fields, and a reader that goes through them.
#![tactic(auto)]

mod reader;
mod record;

pub use reader::Reader;
pub use record::{Record, TapeFault, Turn};
