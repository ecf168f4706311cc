// Arithmetic on rows of bytes, low byte first, over any counting.
#![tactic(auto)]

ghost use Rattle.std.specs.Prelude.{◌≡◌, ◌<◌, ◌≤◌, ◌^◌, false, length, slice_index};
ghost use Rattle.counting.specs.System.{System, Laws, Lawful, number};
ghost use Rattle.counting.specs.Chain.{linked, row_of, carry_of, Whole, one, Counts, first_refused as refused_in};

pub mod binary;
pub mod decimal;

// What a chain does with each byte and the carry.
#[derive(Clone, Copy, PartialEq, Eq, Debug)]
pub enum Link {
    // Data plus operand.
    Add,
    // Data less operand; the carry is a borrow.
    Subtract,
    // 0 less data; the carry is a borrow.
    Negate,
    // Base - 1 less each byte; the carry passes.
    Complement,
}

// A way to count with bytes: a base, a value under the base for each lawful byte, and one lawful byte for each value.
// What it does with other bytes is its own affair, since no law speaks of them.
pub trait Counting {
    ghost system: { System };

    // Whether it can be asked to count with the byte.
    fn accepts(byte: u8) -> bool
        ensures { result ≡ system.accepts byte };

    fn add(a: u8, b: u8, carry: bool) -> (u8, bool)
        ensures { result ≡ system.plus a b carry };

    fn subtract(a: u8, b: u8, borrow: bool) -> (u8, bool)
        ensures { result ≡ system.minus a b borrow };

    // The byte taken from the base less one.
    fn complement(a: u8) -> u8
        ensures { result ≡ system.rest a };

    ghost sound: { Laws system };
}

// A match on data and not a closure, since the law `Whole` speaks of a link by its case.
fn link_bytes<C: Counting>(op: Link, a: u8, b: u8, carry: bool) -> (u8, bool)
    ensures { result ≡ linked C.Counting.system op a b carry }
{
    match op {
        Link::Add => C::add(a, b, carry),
        Link::Subtract => C::subtract(a, b, carry),
        Link::Negate => C::subtract(0, a, carry),
        Link::Complement => (C::complement(a), carry),
    }
}

// The byte at a place, and 0 past the end.
#[inline(always)]
pub fn byte_at(row: &[u8], i: usize) -> u8
    ensures { result ≡ slice_index row.now i }
{
    row.get(i).copied().unwrap_or(0)
}

// Works through the data from its low byte up, handing the carry on, and gives the carry out of the last byte. An
// operand that is shorter than the data goes on with zero bytes; what is longer is not looked at.
pub fn chain<C: Counting>(op: Link, bytes: &mut [u8], operand: &[u8], mut carry: bool) -> bool
    ensures row { bytes.new ≡ row_of C.Counting.system op bytes.old operand.now carry }
    ensures carry { result ≡ carry_of C.Counting.system op bytes.old operand.now carry }
    ensures whole { Lawful C.Counting.system bytes.old → Lawful C.Counting.system operand.now → length operand.now ≤ length bytes.old → Whole C.Counting.system op bytes.old operand.now carry bytes.new result }
    ensures one { Lawful C.Counting.system bytes.old → 0 < length bytes.old → operand.now ≡ one C.Counting.system → carry ≡ false → Counts op (C.Counting.system.base ^ length bytes.old) (number C.Counting.system bytes.old) (number C.Counting.system bytes.new) result }
{
    // The operand by its places: of a loop over a zip, a proof does not learn which bytes were written.
    for (i, d) in bytes.iter_mut().enumerate() {
        (*d, carry) = link_bytes::<C>(op, *d, byte_at(operand, i), carry);
    }
    carry
}

// The place of the first byte that the counting does not accept.
pub fn first_refused<C: Counting>(row: &[u8]) -> Option<usize>
    ensures { result ≡ refused_in C.Counting.system row.now }
{
    row.iter().position(|b| !C::accepts(*b))
}
