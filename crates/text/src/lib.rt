// Lines of text, written piece by piece into a lent buffer. Nothing is allocated. It is not done by `Display` and `write!`: their
// clauses say what is written where they answer Ok, and none says that they do, while `put` fails for want of room alone.
#![tactic(auto)]

ghost use Rattle.std.specs.Prelude.{◌≡◌, ◌+◌, ◌-◌, ◌<◌, ◌≤◌, length, is_some, IfSome, if◌then◌else◌, Some, None, nat_le};
ghost use Rattle.byte_rows.specs.Rows.{over};
ghost use Rattle.text.specs.Pieces.{hex_digit, hex2, spelled, joined, widest, room, one_apart};
ghost use Rattle.text.specs.Line.{HasRoom, Wrote};

use byte_rows::overwrite;
use itoa::Buffer;

// What a line is made of.
#[derive(Clone, Copy, PartialEq, Eq, Debug)]
pub enum Piece {
    Byte(u8),
    Word([u8; 3]),
    Decimal(u64),
    // Two octal digits.
    Octal2(u8),
    // One, two and four hexadecimal digits, in capitals. One variant with a width would admit a width that its number does not fit.
    Hex1(u8),
    Hex2(u8),
    Hex4(u16),
    // Eight bytes, each two hexadecimal digits after a space.
    Row([u8; 8]),
}

// Writes the pieces one after another from `at` on, and says where they end. Where the buffer has no room for the pieces
// at their widest, nothing is written.
pub fn put(out: &mut [u8], at: usize, pieces: &[Piece]) -> Option<usize>
    ensures answer { result ≡ (if nat_le (at + room pieces.now) (length out.old) then Some (at + length (joined pieces.now)) else None) }
    ensures after { out.new ≡ (if is_some result then over out.old at (joined pieces.now) else out.old) }
    ensures room { IfSome result (λ n. n ≤ at + room pieces.now) }
{
    room_after(out.len().checked_sub(at)?, pieces)?;
    let mut line = Line { out, at };
    for piece in pieces {
        line.put(*piece);
    }
    Some(line.at)
}

// How much room is left after the pieces at their widest, if they have room. It stops at the first piece that has none, which a
// proof does not learn of `try_fold` with `checked_sub`.
fn room_after(size: usize, pieces: &[Piece]) -> Option<usize>
    ensures { result ≡ (if nat_le (room pieces.now) size then Some (size - room pieces.now) else None) }
{
    let mut left = size;
    for piece in pieces {
        left = left.checked_sub(piece.widest())?;
    }
    Some(left)
}

impl Piece {
    fn widest(self) -> usize
        ensures { result ≡ widest self }
    {
        match self {
            Piece::Byte(_) => 1,
            Piece::Word(_) => 3,
            Piece::Decimal(_) => 20,
            Piece::Octal2(_) => 2,
            Piece::Hex1(_) => 1,
            Piece::Hex2(_) => 2,
            Piece::Hex4(_) => 4,
            Piece::Row(_) => 24,
        }
    }
}

// A line as far as it is written: its buffer, and the place after its last byte.
#[derive(Drop)]
struct Line<'a> {
    out: &'a mut [u8],
    at: usize,
}

impl Line<'_> {
    #[tactic(auto, using(crate::proofs::Writing::hex4))]
    fn put(&mut self, piece: Piece)
        requires { HasRoom self.old (widest piece) }
        ensures wrote { Wrote self.old self.new (spelled piece) }
        ensures room { self.new.at ≤ self.old.at + widest piece }
    {
        match piece {
            Piece::Byte(b) => self.bytes(&[b]),
            Piece::Word(word) => self.bytes(&word),
            Piece::Decimal(n) => self.bytes(Buffer::new().format(n).as_bytes()),
            Piece::Octal2(n) => self.bytes(&[b'0' + n / 8 % 8, b'0' + n % 8]),
            Piece::Hex1(n) => self.bytes(&[hex_digit(n % 16)]),
            Piece::Hex2(n) => self.bytes(&hex2(n)),
            Piece::Hex4(n) => {
                let [high, low] = n.to_be_bytes();
                self.bytes(&hex2(high));
                self.bytes(&hex2(low));
            }
            Piece::Row(row) => self.bytes(row.map(one_apart).as_flattened()),
        }
    }

    // The caller has room for the bytes, so `overwrite` refuses none.
    fn bytes(&mut self, bytes: &[u8])
        requires { HasRoom self.old (length bytes.now) }
        ensures { Wrote self.old self.new bytes.now }
    {
        overwrite(self.out, self.at, bytes).unwrap();
        self.at += bytes.len();
    }
}

// A space and two hexadecimal digits.
pub fn one_apart(n: u8) -> [u8; 3]
    ensures { result ≡ one_apart n }
{
    let [high, low] = hex2(n);
    [b' ', high, low]
}

fn hex2(n: u8) -> [u8; 2]
    ensures { result ≡ hex2 n }
{
    [hex_digit(n / 16), hex_digit(n % 16)]
}

fn hex_digit(n: u8) -> u8
    requires { n < 16 }
    ensures { result ≡ hex_digit n }
{
    if n < 10 { b'0' + n } else { b'A' - 10 + n }
}
