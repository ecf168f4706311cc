// How an instruction is fetched, where its operand in memory or its store is, and what the operand's bytes are.
#![tactic(auto)]

mod addresses;
mod fetching;
mod lengths;
mod operands;

pub use addresses::{address_of, base_address, move_pair};
pub use fetching::fetch_literal;
pub use operands::read_operand;
