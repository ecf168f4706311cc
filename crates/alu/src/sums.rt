// Sums and differences in the counting of the mode, and whether they overflow.
ghost use Rattle.std.specs.Prelude.{◌≡◌, ◌<◌, ◌≤◌, ◌^◌, false, [], ◌∷◌, length, if◌then◌else◌};
ghost use Rattle.counting.specs.Chain.{row_of, carry_of, Whole, Counts};
ghost use Rattle.counting.specs.System.{Lawful, number};
ghost use Rattle.alu.specs.Sums.{system_of, overflow_of, signs_of};

use crate::status::is_negative;
use counting::binary::Binary;
use counting::decimal::Decimal;
use counting::{Link, chain};

// The carry or borrow out of a chain, and whether its signed result does not fit.
#[derive(Clone, Copy, PartialEq, Eq, Debug)]
pub struct Carried {
    pub carry: bool,
    pub overflow: bool,
}

// Whether two numbers of one sign have a sum of the other; which two numbers a link adds, if any, goes by its case.
pub(crate) fn overflows(op: Link, a: bool, b: bool, outcome: bool) -> bool
    ensures { result ≡ signs_of op a b outcome }
{
    let (a, b) = match op {
        Link::Add => (a, b),
        Link::Subtract => (a, !b),
        Link::Negate => (false, !a),
        Link::Complement => return false,
    };
    a == b && outcome != a
}

// The chain in the counting of the mode, with no carry in. In decimal nothing overflows.
// The mode is the status bit DCM as it stands; an enum would only be made of it at each call.
pub fn combine(decimal: bool, op: Link, bytes: &mut [u8], operand: &[u8]) -> Carried
    ensures row { bytes.new ≡ row_of (system_of decimal) op bytes.old operand.now false }
    ensures carry { result.carry ≡ carry_of (system_of decimal) op bytes.old operand.now false }
    ensures whole { Lawful (system_of decimal) bytes.old → Lawful (system_of decimal) operand.now → length operand.now ≤ length bytes.old → Whole (system_of decimal) op bytes.old operand.now false bytes.new result.carry }
    ensures one { Lawful (system_of decimal) bytes.old → 0 < length bytes.old → operand.now ≡ 1 ∷ [] → Counts op ((system_of decimal).base ^ length bytes.old) (number (system_of decimal) bytes.old) (number (system_of decimal) bytes.new) result.carry }
    ensures overflow { result.overflow ≡ (if decimal then false else overflow_of op bytes.old operand.now) }
{
    if decimal {
        let carry = chain::<Decimal>(op, bytes, operand, false);
        return Carried {
            carry,
            overflow: false,
        };
    }
    let n = bytes.len();
    let a = is_negative(bytes, n);
    let b = is_negative(operand, n);
    let carry = chain::<Binary>(op, bytes, operand, false);
    let outcome = is_negative(bytes, n);
    Carried {
        carry,
        overflow: overflows(op, a, b, outcome),
    }
}
