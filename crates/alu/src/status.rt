// What is seen of a result.
ghost use Rattle.std.specs.Prelude.{◌≡◌};
ghost use Rattle.alu.specs.Seen.{last_of, negative, all_zero, seen};

use counting::byte_at;
use registers::Status;

fn is_zero(row: &[u8]) -> bool
    ensures { result ≡ all_zero row.now }
{
    row.iter().all(|b| *b == 0)
}

// The highest byte.
pub fn last_byte(row: &[u8]) -> u8
    ensures { result ≡ last_of row.now }
{
    row.last().copied().unwrap_or(0)
}

// The sign of the row's first n bytes, which goes on with zero bytes.
pub fn is_negative(row: &[u8], n: usize) -> bool
    ensures { result ≡ negative n row.now }
{
    n > 0 && byte_at(row, n - 1) >= 128
}

// The status after a result, with the carry and overflow that the operation made; decimal mode alone stays, so that each
// bit is written out.
pub fn see(status: Status, cy: bool, ovf: bool, row: &[u8]) -> Status
    ensures { result ≡ seen status cy ovf row.now }
{
    let first = row.first().copied().unwrap_or(0);
    let last = last_byte(row);
    Status {
        dcm: status.dcm,
        cy,
        ovf,
        lsb: first % 2 == 1,
        msb: last >= 128,
        z: is_zero(row),
        ldz: last < 16,
        rdz: first % 16 == 0,
    }
}
