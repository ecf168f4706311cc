// The processor's operations on a row and an operand.
ghost use Rattle.std.specs.Prelude.{◌≡◌, false, []};
ghost use Rattle.counting.specs.Chain.{row_of};
ghost use Rattle.counting.specs.declared.Link.TheVariants.{Complement as NineLess};
ghost use Rattle.alu.specs.Logic.{joined_row};
ghost use Rattle.alu.specs.Sums.{system_of};
ghost use Rattle.alu.specs.Operations.{done, shown, plain, summed, lessened, unit_of, incoming_of, shifted_out, left_done, right_done, digits_of, checked, worked, operated, left as left_of, row_after};

use crate::logic::{Logic, join};
use crate::shift::{Unit, shift_left, shift_right};
use crate::status::{last_byte, see};
use crate::sums::combine;
use counting::decimal::Decimal;
use counting::{Link, first_refused};
use registers::Status;

#[derive(Clone, Copy, PartialEq, Eq, Debug)]
pub enum Operation {
    ExtendedLeft,
    ExtendedRight,
    LogicalLeft,
    LogicalRight,
    Increment,
    Decrement,
    Negate,
    Complement,
    Test,
    Clear,
    Or,
    ExclusiveOr,
    And,
    Load,
    Compare,
    Add,
    Subtract,
}

// The status and E, as an operation finds or leaves them.
#[derive(Clone, Copy, PartialEq, Eq, Debug)]
pub struct Flags {
    pub status: Status,
    pub e: u8,
}

// The index of a byte that is not decimal: 0 to 7 in the data, 8 to 15 in the operand.
#[derive(Clone, Copy, PartialEq, Eq, Debug)]
pub struct NotDecimal {
    pub index: u8,
}

impl Flags {
    // What is seen of a row; E stays.
    fn see(self, cy: bool, ovf: bool, row: &[u8]) -> Flags
        ensures { done row.now result ≡ shown self cy ovf row.now }
    {
        Flags {
            status: see(self.status, cy, ovf, row),
            ..self
        }
    }

    // Neither carry nor overflow.
    fn see_plain(self, row: &[u8]) -> Flags
        ensures { done row.now result ≡ plain self row.now }
    {
        self.see(false, false, row)
    }

    fn add(self, bytes: &mut [u8], operand: &[u8]) -> Flags
        ensures { done bytes.new result ≡ summed self bytes.old operand.now }
    {
        let sum = combine(self.status.dcm, Link::Add, bytes, operand);
        self.see(sum.carry, sum.overflow, bytes)
    }

    // A difference: the carry says that there was no borrow.
    fn lessen(self, op: Link, bytes: &mut [u8], operand: &[u8]) -> Flags
        ensures { done bytes.new result ≡ lessened op self bytes.old operand.now }
    {
        let difference = combine(self.status.dcm, op, bytes, operand);
        self.see(!difference.carry, difference.overflow, bytes)
    }

    // What a shift moves by.
    fn unit(self) -> Unit
        ensures { result ≡ unit_of self.status.dcm }
    {
        if self.status.dcm {
            Unit::Digit
        } else {
            Unit::Bit
        }
    }

    // What an extended shift puts in: E in decimal mode, the carry in binary.
    fn incoming(self) -> u8
        ensures { result ≡ incoming_of self }
    {
        if self.status.dcm {
            self.e
        } else {
            u8::from(self.status.cy)
        }
    }

    // A lost digit goes to E, a lost bit to the carry.
    fn shift_out(self, row: &[u8], out: u8, overflow: bool) -> Flags
        ensures { done row.now result ≡ shifted_out self row.now out overflow }
    {
        if self.status.dcm {
            Flags {
                e: out,
                ..self.see_plain(row)
            }
        } else {
            self.see(out == 1, overflow, row)
        }
    }

    fn left(self, incoming: u8, bytes: &mut [u8]) -> Flags
        ensures { done bytes.new result ≡ left_done self bytes.old incoming }
    {
        let before = last_byte(bytes) >= 128;
        let out = shift_left(self.unit(), bytes, incoming);
        let after = last_byte(bytes) >= 128;
        self.shift_out(bytes, out, before != after)
    }

    fn right(self, incoming: u8, bytes: &mut [u8]) -> Flags
        ensures { done bytes.new result ≡ right_done self bytes.old incoming }
    {
        let out = shift_right(self.unit(), bytes, incoming);
        self.shift_out(bytes, out, false)
    }

    fn logic(self, op: Logic, bytes: &mut [u8], operand: &[u8]) -> Flags
        ensures { done bytes.new result ≡ plain self (joined_row op bytes.old operand.now) }
    {
        join(op, bytes, operand);
        self.see_plain(bytes)
    }

    fn complement(self, bytes: &mut [u8]) -> Flags
        ensures { done bytes.new result ≡ plain self (row_of (system_of self.status.dcm) NineLess bytes.old [] false) }
    {
        let _ = combine(self.status.dcm, Link::Complement, bytes, &[]);
        self.see_plain(bytes)
    }

    // In decimal mode, refuses a row for its first byte that is not two digits.
    fn check_digits(self, row: &[u8]) -> Result<(), NotDecimal>
        ensures { result ≡ digits_of self.status.dcm 0 row.now }
    {
        if self.status.dcm
            && let Some(i) = first_refused::<Decimal>(row)
        {
            return Err(NotDecimal {
                index: (i % 8) as u8,
            });
        }
        Ok(())
    }

    // The data first, then the operand, whose bytes have the indices from 8 on.
    fn check(self, op: Operation, row: &[u8], operand: &[u8]) -> Result<(), NotDecimal>
        ensures { result ≡ checked op self.status.dcm row.now operand.now }
    {
        match op {
            Operation::Increment
            | Operation::Decrement
            | Operation::Negate
            | Operation::Complement => self.check_digits(row),
            Operation::Compare | Operation::Add | Operation::Subtract => {
                self.check_digits(row)?;
                self.check_digits(operand).map_err(|n| NotDecimal {
                    index: 8 + n.index % 8,
                })
            }
            Operation::ExtendedLeft
            | Operation::ExtendedRight
            | Operation::LogicalLeft
            | Operation::LogicalRight
            | Operation::Test
            | Operation::Clear
            | Operation::Or
            | Operation::ExclusiveOr
            | Operation::And
            | Operation::Load => Ok(()),
        }
    }

    // The operation, on bytes that it accepts. A match on data: which operation it is comes from a code.
    fn work(self, op: Operation, bytes: &mut [u8], operand: &[u8]) -> Flags
        ensures { done bytes.new result ≡ worked op self bytes.old operand.now }
    {
        match op {
            Operation::ExtendedLeft => self.left(self.incoming(), bytes),
            Operation::ExtendedRight => self.right(self.incoming(), bytes),
            Operation::LogicalLeft => self.left(0, bytes),
            Operation::LogicalRight => self.right(0, bytes),
            Operation::Increment => self.add(bytes, &[1]),
            Operation::Decrement => self.lessen(Link::Subtract, bytes, &[1]),
            Operation::Negate => self.lessen(Link::Negate, bytes, &[]),
            Operation::Complement => self.complement(bytes),
            Operation::Test => self.see_plain(bytes),
            Operation::Clear => self.logic(Logic::Replace, bytes, &[]),
            Operation::Or => self.logic(Logic::Or, bytes, operand),
            Operation::ExclusiveOr => self.logic(Logic::ExclusiveOr, bytes, operand),
            Operation::And => self.logic(Logic::And, bytes, operand),
            Operation::Load => self.logic(Logic::Replace, bytes, operand),
            Operation::Add => self.add(bytes, operand),
            Operation::Compare | Operation::Subtract => self.lessen(Link::Subtract, bytes, operand),
        }
    }
}

// Works on the row in place, which is lent beside an operand that is only read. A refused operation leaves it as it was.
pub fn operate(
    op: Operation,
    flags: Flags,
    bytes: &mut [u8],
    operand: &[u8],
) -> Result<Flags, NotDecimal>
    ensures outcome { left_of bytes.new result ≡ operated op flags bytes.old operand.now }
    ensures row { bytes.new ≡ row_after bytes.old (operated op flags bytes.old operand.now) }
{
    flags.check(op, bytes, operand)?;
    Ok(flags.work(op, bytes, operand))
}
