// Decimal rows of up to eight bytes as words. Bytes of two digits are taken as values below 100, each in a byte of the word, added
// or subtracted in binary, and made digits again.
ghost use Rattle.std.specs.Prelude.{◌≡◌, ◌*◌, ◌/◌, ◌%◌, ◌≤◌, true, false, map, nat_lt};
ghost use Rattle.byte_rows.specs.Short.{low_bytes, bytes_of};
ghost use Rattle.counting.specs.Chain.{row_of, carry_of};
ghost use Rattle.counting.specs.Decimal.{decimal, two_digits};
ghost use Rattle.counting.specs.declared.Link.TheVariants.{Add as Plus, Subtract as Less};
ghost use Rattle.alu.specs.Lanes.{reached, rest, raised, is_outcome, lowered, decimal_of, all_bytes};

use crate::sums::Carried;
use crate::words::{Combined, add, subtract};
use byte_rows::Row;

// The number 1 in each byte.
const ONES: u64 = 0x0101_0101_0101_0101;

// What the low digit of each byte is masked by.
const LOW_DIGITS: u64 = 0x0F0F_0F0F_0F0F_0F0F;

// With one of two values raised by this, their sum passes a byte where it would pass 99.
const RAISE: u64 = 156;

// Bytes from 128 on.
#[inline(always)]
#[tactic(auto, using(crate::proofs::Lanes::top_bits))]
fn top_bits(word: u64) -> u64
    ensures { low_bytes 8 result ≡ map (λ b. b / 128) (low_bytes 8 word) }
{
    (word >> 7) & ONES
}

#[inline(always)]
#[tactic(auto, using(crate::proofs::Lanes::high_digits))]
fn high_digits(word: u64) -> u64
    ensures { low_bytes 8 result ≡ map (λ b. b / 16) (low_bytes 8 word) }
{
    (word >> 4) & LOW_DIGITS
}

#[inline(always)]
#[tactic(auto, using(crate::proofs::Lanes::low_digits))]
fn low_digits(word: u64) -> u64
    ensures { low_bytes 8 result ≡ map (λ b. b % 16) (low_bytes 8 word) }
{
    word & LOW_DIGITS
}

// Which of the bytes, all below twice k, reach k.
#[inline(always)]
fn reach(word: u64, k: u64) -> u64
    requires small { k ≤ 128 }
    requires bytes { all_bytes (λ b. nat_lt b (2 * k)) word ≡ true }
    ensures { low_bytes 8 result ≡ map (reached k) (low_bytes 8 word) }
{
    top_bits(word.wrapping_add((128 - k) * ONES))
}

// The values of bytes of two digits.
#[inline(always)]
fn values(word: u64) -> u64
    ensures { low_bytes 8 result ≡ map decimal.value (low_bytes 8 word) }
{
    word.wrapping_sub(high_digits(word).wrapping_mul(6))
}

// Values below 100, raised.
#[inline(always)]
fn raise(word: u64) -> u64
    requires { all_bytes (λ b. nat_lt b 100) word ≡ true }
    ensures { low_bytes 8 result ≡ map raised (low_bytes 8 word) }
{
    word.wrapping_add(RAISE * ONES)
}

// The values that a sum of raised values and values, or a difference of values, stands for.
#[inline(always)]
fn lower(word: u64) -> u64
    requires { all_bytes is_outcome word ≡ true }
    ensures { low_bytes 8 result ≡ map lowered (low_bytes 8 word) }
{
    word.wrapping_sub(top_bits(word).wrapping_mul(RAISE))
}

// Which bytes reach k, and what is left of each without it.
#[derive(Clone, Copy, PartialEq, Eq, Debug)]
struct Parted {
    reached: u64,
    rest: u64,
}

#[inline(always)]
fn part(word: u64, k: u64) -> Parted
    requires small { k ≤ 128 }
    requires bytes { all_bytes (λ b. nat_lt b (2 * k)) word ≡ true }
    ensures reached { low_bytes 8 result.reached ≡ map (reached k) (low_bytes 8 word) }
    ensures rest { low_bytes 8 result.rest ≡ map (rest k) (low_bytes 8 word) }
{
    let reached = reach(word, k);
    Parted {
        reached,
        rest: word.wrapping_sub(reached.wrapping_mul(k)),
    }
}

// The tens of values below 100.
#[inline(always)]
fn tens(word: u64) -> u64
    requires { all_bytes (λ b. nat_lt b 100) word ≡ true }
    ensures { low_bytes 8 result ≡ map (λ b. b / 10) (low_bytes 8 word) }
{
    let eighty = part(word, 80);
    let forty = part(eighty.rest, 40);
    let twenty = part(forty.rest, 20);
    reach(twenty.rest, 10)
        .wrapping_add(twenty.reached.wrapping_mul(2))
        .wrapping_add(forty.reached.wrapping_mul(4))
        .wrapping_add(eighty.reached.wrapping_mul(8))
}

// The digits of values below 100.
#[inline(always)]
fn digits(word: u64) -> u64
    requires { all_bytes (λ b. nat_lt b 100) word ≡ true }
    ensures { low_bytes 8 result ≡ map decimal.byte (low_bytes 8 word) }
{
    word.wrapping_add(tens(word).wrapping_mul(6))
}

// Whether each byte is two digits.
#[inline(always)]
pub(crate) fn are_digits(word: u64) -> bool
    ensures { result ≡ all_bytes two_digits word }
{
    let high = reach(high_digits(word), 10);
    let low = reach(low_digits(word), 10);
    high == 0 && low == 0
}

// The digits of what a sum or difference of values left.
fn outcome_digits(word: u64) -> u64
    requires { all_bytes is_outcome word ≡ true }
    ensures { low_bytes 8 result ≡ map decimal_of (low_bytes 8 word) }
{
    digits(lower(word))
}

// A decimal sum, of rows of one length.
#[inline(always)]
pub(crate) fn add_decimals(a: &Row, b: &Row) -> Combined
    requires same { a.now.len ≡ b.now.len }
    requires data { all_bytes two_digits a.now.word ≡ true }
    requires operand { all_bytes two_digits b.now.word ≡ true }
    ensures row { bytes_of result.row ≡ row_of decimal Plus (bytes_of a.now) (bytes_of b.now) false }
    ensures carry { result.carried.carry ≡ carry_of decimal Plus (bytes_of a.now) (bytes_of b.now) false }
    ensures overflow { result.carried.overflow ≡ false }
{
    let sum = add(
        &a.with_word(raise(values(a.word))),
        &b.with_word(values(b.word)),
    );
    sum.counted()
}

// A decimal difference, of rows of one length.
#[inline(always)]
pub(crate) fn subtract_decimals(a: &Row, b: &Row) -> Combined
    requires same { a.now.len ≡ b.now.len }
    requires data { all_bytes two_digits a.now.word ≡ true }
    requires operand { all_bytes two_digits b.now.word ≡ true }
    ensures row { bytes_of result.row ≡ row_of decimal Less (bytes_of a.now) (bytes_of b.now) false }
    ensures carry { result.carried.carry ≡ carry_of decimal Less (bytes_of a.now) (bytes_of b.now) false }
    ensures overflow { result.carried.overflow ≡ false }
{
    let difference = subtract(&a.with_word(values(a.word)), &b.with_word(values(b.word)));
    difference.counted()
}

impl Combined {
    // The digits of what a sum or difference of values left. In decimal nothing overflows.
    #[inline(always)]
    fn counted(self) -> Combined
        requires { all_bytes is_outcome self.row.word ≡ true }
        ensures row { bytes_of result.row ≡ map decimal_of (bytes_of self.row) }
        ensures carry { result.carried.carry ≡ self.carried.carry }
        ensures overflow { result.carried.overflow ≡ false }
    {
        Combined {
            row: self.row.with_word(outcome_digits(self.row.word)),
            carried: Carried {
                carry: self.carried.carry,
                overflow: false,
            },
        }
    }
}
