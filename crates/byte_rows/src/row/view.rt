// The bytes of a row.
ghost use Rattle.std.specs.Prelude.{◌≡◌, ◌≤◌, ◌*◌, ◌%◌, ◌^◌, [], ◌==◌, length, take, slice_index, min, ◌-◌, ◌<◌};
ghost use Rattle.std.specs.List.{list_all};
ghost use Rattle.byte_rows.specs.Rows.{pair};
ghost use Rattle.byte_rows.specs.Short.{low_bytes, bytes_of};

use crate::row::Row;

// The n lowest bytes of a word.
#[inline(always)]
fn cut(word: u64, n: u8) -> u64
    requires { n ≤ 8 }
    ensures { result ≡ word % 2 ^ (8 * n) }
{
    if n < 8 { word % (1 << (8 * n)) } else { word }
}

impl Row {
    // No bytes.
    #[inline(always)]
    #[tactic(auto, unfolding(crate::specs::Short::low_bytes))]
    pub fn empty() -> Row
        ensures { bytes_of result ≡ [] }
    {
        Row { word: 0, len: 0 }
    }

    // The n lowest bytes of a number; eight where n is larger.
    #[inline(always)]
    #[tactic(auto, using(crate::proofs::Lows::low_cut))]
    pub fn of_word(word: u64, n: usize) -> Row
        ensures word { result.word ≡ word % 2 ^ (8 * min n 8) }
        ensures len { result.len ≡ min n 8 }
        ensures bytes { bytes_of result ≡ low_bytes (min n 8) word }
    {
        let len = if n < 8 { n as u8 } else { 8 };
        Row {
            word: cut(word, len),
            len,
        }
    }

    // The lowest bytes of a number, as many as this row has.
    #[inline(always)]
    #[tactic(auto, using(crate::proofs::Lows::low_cut))]
    pub fn with_word(&self, word: u64) -> Row
        ensures word { result.word ≡ word % 2 ^ (8 * self.now.len) }
        ensures len { result.len ≡ self.now.len }
        ensures bytes { bytes_of result ≡ low_bytes self.now.len word }
    {
        Row {
            word: cut(word, self.len),
            len: self.len,
        }
    }

    // The first n of the bytes.
    #[inline(always)]
    pub fn new(bytes: [u8; 8], n: usize) -> Row
        ensures { bytes_of result ≡ take n bytes }
    {
        Row::of_word(u64::from_le_bytes(bytes), n)
    }

    // The bytes, and zero bytes after them.
    #[inline(always)]
    #[tactic(auto, using(crate::proofs::Lows::take_eight, crate::proofs::Lows::eight_low))]
    pub fn bytes(&self) -> [u8; 8]
        ensures bytes { take (length (bytes_of self.now)) result ≡ bytes_of self.now }
        ensures word { result ≡ low_bytes 8 self.now.word }
    {
        self.word.to_le_bytes()
    }

    // How many bytes there are.
    #[inline(always)]
    #[tactic(auto, using(crate::proofs::Lows::length_low))]
    pub fn len(&self) -> usize
        ensures value { result ≡ length (bytes_of self.now) }
        ensures few { result ≤ 8 }
    {
        usize::from(self.len)
    }

    #[inline(always)]
    #[tactic(auto, using(crate::proofs::Lows::length_low))]
    pub fn count(&self) -> u8
        ensures value { result ≡ length (bytes_of self.now) }
        ensures few { result ≤ 8 }
    {
        self.len
    }

    // The first byte, and 0 where there is none.
    #[inline(always)]
    #[tactic(auto, using(crate::proofs::Lows::get_low))]
    pub fn first(&self) -> u8
        ensures { result ≡ slice_index (bytes_of self.now) 0 }
    {
        (self.word % 256) as u8
    }

    // The first two bytes as a pair; those that are not there are 0.
    #[inline(always)]
    #[tactic(auto, using(crate::proofs::Lows::get_low))]
    pub fn pair(&self) -> u16
        ensures { result ≡ pair (slice_index (bytes_of self.now) 0) (slice_index (bytes_of self.now) 1) }
    {
        (self.word % 65536) as u16
    }

    // The last byte, and 0 where there is none.
    #[inline(always)]
    #[tactic(auto, using(crate::proofs::Lows::get_low, crate::proofs::Lows::length_low))]
    pub fn last(&self) -> u8
        ensures { result ≡ slice_index (bytes_of self.now) (length (bytes_of self.now) - 1) }
    {
        if self.len == 0 {
            0
        } else {
            ((self.word >> (8 * (self.len - 1))) % 256) as u8
        }
    }

    // Whether all the bytes are zero.
    #[inline(always)]
    #[tactic(auto, using(crate::proofs::Lows::zero_low))]
    pub fn is_zero(&self) -> bool
        ensures { result ≡ list_all (λ b. b == 0) (bytes_of self.now) }
    {
        self.word == 0
    }
}
