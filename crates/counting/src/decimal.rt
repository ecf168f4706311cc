// Bytes of two decimal digits: a byte is lawful if both are 0 to 9.
ghost use Rattle.std.specs.Prelude.{◌≡◌, ◌<◌, ◌+◌, ◌*◌, ◌/◌, ◌%◌, Bool};
ghost use Rattle.counting.specs.Decimal.{decimal as digits, digit_sum, digit_difference};
ghost use Rattle.std.proofs.Common.{rules};

use crate::Counting;

#[derive(Clone, Copy, PartialEq, Eq, Debug)]
pub struct Decimal;

// A digit has four bits.
#[derive(Clone, Copy, PartialEq, Eq, Debug)]
struct Digit {
    value: u8,
    ghost small: { value < 16 },
}

#[derive(Clone, Copy, PartialEq, Eq, Debug)]
struct Digits {
    high: Digit,
    low: Digit,
}

impl From<u8> for Digits {
    fn from(byte: u8) -> Digits
        ensures { (result.high.value ≡ byte / 16) × (result.low.value ≡ byte % 16) }
    {
        Digits {
            high: Digit { value: byte / 16 },
            low: Digit { value: byte % 16 },
        }
    }
}

// A sum above 9 loses 10 and carries; what is kept is the digit's four bits.
fn add_digits(a: Digit, b: Digit, carry: bool) -> (Digit, bool)
    ensures { (result.0.value, result.1) ≡ digit_sum a.value b.value carry }
{
    let sum = a.value + b.value + u8::from(carry);
    let out = sum > 9;
    let value = if out { (sum - 10) % 16 } else { sum };
    (Digit { value }, out)
}

// A difference below 0 gains 10 and borrows.
fn subtract_digits(a: Digit, b: Digit, borrow: bool) -> (Digit, bool)
    ensures { (result.0.value, result.1) ≡ digit_difference a.value b.value borrow }
{
    let taken = b.value + u8::from(borrow);
    let out = a.value < taken;
    let value = if out {
        (a.value + 26 - taken) % 16
    } else {
        a.value - taken
    };
    (Digit { value }, out)
}

// A digit operation on both digits of a byte, the low one first.
fn on_digits<F: Fn(Digit, Digit, bool) -> (Digit, bool)>(
    digit: F,
    a: Digits,
    b: Digits,
    carry: bool,
) -> (u8, bool)
    requires { F.IsAlwaysCallable digit }
    ensures { (low high : Digit × Bool) × F.post digit a.low b.low carry low × F.post digit a.high b.high low.1 high × (result ≡ (16 * high.0.value + low.0.value, high.1)) }
{
    let (low, half) = digit(a.low, b.low, carry);
    let (high, out) = digit(a.high, b.high, half);
    (16 * high.value + low.value, out)
}

impl Counting for Decimal {
    ghost system = { digits };

    ghost sound = { Prim.search rules };

    fn accepts(byte: u8) -> bool {
        byte / 16 < 10 && byte % 16 < 10
    }

    fn add(a: u8, b: u8, carry: bool) -> (u8, bool) {
        on_digits(add_digits, Digits::from(a), Digits::from(b), carry)
    }

    fn subtract(a: u8, b: u8, borrow: bool) -> (u8, bool) {
        on_digits(subtract_digits, Digits::from(a), Digits::from(b), borrow)
    }

    fn complement(a: u8) -> u8 {
        16 * ((25 - a / 16) % 16) + (25 - a % 16) % 16
    }
}
