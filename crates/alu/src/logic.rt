// Logic, byte by byte.
ghost use Rattle.std.specs.Prelude.{◌≡◌};
ghost use Rattle.alu.specs.Logic.{joint, joined_row};

use counting::byte_at;

#[derive(Clone, Copy, PartialEq, Eq, Debug)]
pub enum Logic {
    Or,
    ExclusiveOr,
    And,
    // The operand's byte in the place of the row's.
    Replace,
}

// A match on data and not a closure, so that what `join` ensures is an equation.
fn join_bytes(op: Logic, a: u8, b: u8) -> u8
    ensures { result ≡ joint op a b }
{
    match op {
        Logic::Or => a | b,
        Logic::ExclusiveOr => a ^ b,
        Logic::And => a & b,
        Logic::Replace => b,
    }
}

// Joins each byte with the operand's; a shorter operand goes on with zero bytes.
pub fn join(op: Logic, bytes: &mut [u8], operand: &[u8])
    ensures { bytes.new ≡ joined_row op bytes.old operand.now }
{
    // The operand by its places: of a loop over a zip, a proof does not learn which bytes were written.
    for (i, byte) in bytes.iter_mut().enumerate() {
        *byte = join_bytes(op, *byte, byte_at(operand, i));
    }
}
