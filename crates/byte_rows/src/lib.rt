// Rows of bytes: one written over a part of another, and rows of up to eight bytes as values.
#![tactic(auto)]

ghost use Rattle.std.specs.Prelude.{◌≡◌, ◌+◌, is_ok, length, if◌then◌else◌, nat_le};
ghost use Rattle.byte_rows.specs.Rows.{over};

mod row;

pub use row::Row;

// The bytes would pass the end of what they are written to.
#[derive(Clone, Copy, PartialEq, Eq, Debug)]
pub struct PastEnd;

// Writes the bytes over those of `row` from place `at` on, or nothing where they would pass its end.
#[tactic(auto, using(crate::proofs::Writing::over_part))]
pub fn overwrite(row: &mut [u8], at: usize, bytes: &[u8]) -> Result<(), PastEnd>
    ensures fits { is_ok result ≡ nat_le (at + length bytes.now) (length row.old) }
    ensures after { row.new ≡ (if is_ok result then over row.old at bytes.now else row.old) }
{
    let end = at
        .checked_add(bytes.len())
        .filter(|&end| end <= row.len())
        .ok_or(PastEnd)?;
    row[at..end].copy_from_slice(bytes);
    Ok(())
}
