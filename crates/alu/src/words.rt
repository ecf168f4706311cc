// Operations on rows of up to eight bytes, which are words: sums, differences and loads are worked out at once, and the rest, and
// what is refused, byte by byte.
ghost use Rattle.std.specs.Prelude.{◌≡◌, true, false, length};
ghost use Rattle.byte_rows.specs.Short.{bytes_of};
ghost use Rattle.counting.specs.Binary.{binary};
ghost use Rattle.counting.specs.Chain.{row_of, carry_of};
ghost use Rattle.counting.specs.declared.Link.TheVariants.{Add as Plus, Subtract as Less};
ghost use Rattle.alu.specs.Seen.{sized};
ghost use Rattle.alu.specs.Sums.{system_of, overflow_of};
ghost use Rattle.alu.specs.Operations.{plain, overflow_in, summed, lessened, operated};
ghost use Rattle.alu.specs.Lanes.{countable};
ghost use Rattle.alu.specs.Words.{done_of, rows_done};

use crate::decimals::{add_decimals, are_digits, subtract_decimals};
use crate::operations::{Flags, NotDecimal, Operation, operate};
use crate::sums::{Carried, overflows};
use byte_rows::Row;
use counting::Link;

// What an operation leaves: the row, CY, OVF and E. The rest of the status is seen of the row.
#[derive(Clone, Copy, PartialEq, Eq, Debug)]
pub struct Worked {
    pub row: Row,
    pub cy: bool,
    pub ovf: bool,
    pub e: u8,
}

// A sum or difference, and what is told of it.
#[derive(Clone, Copy, PartialEq, Eq, Debug)]
pub(crate) struct Combined {
    pub(crate) row: Row,
    pub(crate) carried: Carried,
}

// The operand with as many bytes as the data has.
#[inline(always)]
fn size(row: &Row, operand: &Row) -> Row
    ensures len { result.len ≡ row.now.len }
    ensures bytes { bytes_of result ≡ sized (length (bytes_of row.now)) (bytes_of operand.now) }
{
    row.with_word(operand.word)
}

// A sum in binary, of rows of one length.
#[inline(always)]
pub(crate) fn add(a: &Row, b: &Row) -> Combined
    requires { a.now.len ≡ b.now.len }
    ensures row { bytes_of result.row ≡ row_of binary Plus (bytes_of a.now) (bytes_of b.now) false }
    ensures carry { result.carried.carry ≡ carry_of binary Plus (bytes_of a.now) (bytes_of b.now) false }
    ensures overflow { result.carried.overflow ≡ overflow_of Plus (bytes_of a.now) (bytes_of b.now) }
{
    let row = a.with_word(a.word.wrapping_add(b.word));
    Combined {
        row,
        carried: Carried {
            carry: row.word < a.word,
            overflow: overflows(
                Link::Add,
                a.last() >= 128,
                b.last() >= 128,
                row.last() >= 128,
            ),
        },
    }
}

// A difference in binary, of rows of one length.
#[inline(always)]
pub(crate) fn subtract(a: &Row, b: &Row) -> Combined
    requires { a.now.len ≡ b.now.len }
    ensures row { bytes_of result.row ≡ row_of binary Less (bytes_of a.now) (bytes_of b.now) false }
    ensures carry { result.carried.carry ≡ carry_of binary Less (bytes_of a.now) (bytes_of b.now) false }
    ensures overflow { result.carried.overflow ≡ overflow_of Less (bytes_of a.now) (bytes_of b.now) }
{
    let row = a.with_word(a.word.wrapping_sub(b.word));
    Combined {
        row,
        carried: Carried {
            carry: a.word < b.word,
            overflow: overflows(
                Link::Subtract,
                a.last() >= 128,
                b.last() >= 128,
                row.last() >= 128,
            ),
        },
    }
}

// A sum in the counting of the mode.
#[inline(always)]
fn sum_in(decimal: bool, a: &Row, b: &Row) -> Combined
    requires same { a.now.len ≡ b.now.len }
    requires data { countable decimal a.now ≡ true }
    requires operand { countable decimal b.now ≡ true }
    ensures row { bytes_of result.row ≡ row_of (system_of decimal) Plus (bytes_of a.now) (bytes_of b.now) false }
    ensures carry { result.carried.carry ≡ carry_of (system_of decimal) Plus (bytes_of a.now) (bytes_of b.now) false }
    ensures overflow { result.carried.overflow ≡ overflow_in decimal Plus (bytes_of a.now) (bytes_of b.now) }
{
    if decimal {
        add_decimals(a, b)
    } else {
        add(a, b)
    }
}

// A difference in the counting of the mode.
#[inline(always)]
fn difference_in(decimal: bool, a: &Row, b: &Row) -> Combined
    requires same { a.now.len ≡ b.now.len }
    requires data { countable decimal a.now ≡ true }
    requires operand { countable decimal b.now ≡ true }
    ensures row { bytes_of result.row ≡ row_of (system_of decimal) Less (bytes_of a.now) (bytes_of b.now) false }
    ensures carry { result.carried.carry ≡ carry_of (system_of decimal) Less (bytes_of a.now) (bytes_of b.now) false }
    ensures overflow { result.carried.overflow ≡ overflow_in decimal Less (bytes_of a.now) (bytes_of b.now) }
{
    if decimal {
        subtract_decimals(a, b)
    } else {
        subtract(a, b)
    }
}

impl Flags {
    // With neither carry nor overflow; E stays.
    #[inline(always)]
    fn plain_row(self, row: Row) -> Worked
        ensures { done_of self result ≡ plain self (bytes_of row) }
    {
        Worked {
            row,
            cy: false,
            ovf: false,
            e: self.e,
        }
    }

    // Whether the counting of the mode can count with a row's bytes.
    #[inline(always)]
    fn counts(self, row: &Row) -> bool
        ensures { result ≡ countable self.status.dcm row.now }
    {
        !self.status.dcm || are_digits(row.word)
    }

    #[inline(always)]
    fn add_row(self, row: &Row, operand: &Row) -> Worked
        requires row { countable self.status.dcm row.now ≡ true }
        requires operand { countable self.status.dcm operand.now ≡ true }
        ensures { done_of self result ≡ summed self (bytes_of row.now) (bytes_of operand.now) }
    {
        let operand = size(row, operand);
        let sum = sum_in(self.status.dcm, row, &operand);
        Worked {
            row: sum.row,
            cy: sum.carried.carry,
            ovf: sum.carried.overflow,
            e: self.e,
        }
    }

    #[inline(always)]
    fn lessen_row(self, row: &Row, operand: &Row) -> Worked
        requires row { countable self.status.dcm row.now ≡ true }
        requires operand { countable self.status.dcm operand.now ≡ true }
        ensures { done_of self result ≡ lessened Less self (bytes_of row.now) (bytes_of operand.now) }
    {
        let operand = size(row, operand);
        let difference = difference_in(self.status.dcm, row, &operand);
        Worked {
            row: difference.row,
            cy: !difference.carried.carry,
            ovf: difference.carried.overflow,
            e: self.e,
        }
    }
}

// The operation byte by byte.
#[inline(always)]
fn operate_bytes(
    op: Operation,
    flags: Flags,
    row: &Row,
    operand: &Row,
) -> Result<Worked, NotDecimal>
    ensures { rows_done flags result ≡ operated op flags (bytes_of row.now) (bytes_of operand.now) }
{
    let n = row.len();
    let mut bytes = row.bytes();
    let others = operand.bytes();
    let Flags { status, e } = operate(op, flags, &mut bytes[..n], &others[..operand.len()])?;
    Ok(Worked {
        row: Row::new(bytes, n),
        cy: status.cy,
        ovf: status.ovf,
        e,
    })
}

// Works on a row with an operand.
#[inline(always)]
#[tactic(auto, using(crate::proofs::Wholes::joined_sized, crate::proofs::Lanes::counted, crate::proofs::Lanes::one_counts, byte_rows::proofs::Lows::one_low))]
pub fn operate_row(
    op: Operation,
    flags: Flags,
    row: &Row,
    operand: &Row,
) -> Result<Worked, NotDecimal>
    ensures { rows_done flags result ≡ operated op flags (bytes_of row.now) (bytes_of operand.now) }
{
    // IC and DC work with 1.
    let other = match op {
        Operation::Increment | Operation::Decrement => Row::of_word(1, 1),
        _ => *operand,
    };
    match op {
        Operation::Load => Ok(flags.plain_row(size(row, operand))),
        Operation::Test => Ok(flags.plain_row(*row)),
        Operation::Increment | Operation::Add if flags.counts(row) && flags.counts(&other) => {
            Ok(flags.add_row(row, &other))
        }
        Operation::Decrement | Operation::Compare | Operation::Subtract
            if flags.counts(row) && flags.counts(&other) => { Ok(flags.lessen_row(row, &other)) }
        _ => operate_bytes(op, flags, row, operand),
    }
}
