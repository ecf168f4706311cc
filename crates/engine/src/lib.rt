// An exchange: cold, it is loaded; live, it is in service; what it ends with is its read-out.
#![tactic(auto)]

mod cold;
mod live;
mod sheet;

pub use cold::{Cold, LoadFault};
pub use live::running::Report;
pub use live::{Live, ReadOut, SHEET_SIZE};
pub use sheet::clean_sheet;
