// Up to eight bytes.
ghost use Rattle.std.specs.Prelude.{◌≤◌, ◌<◌, ◌*◌, ◌^◌};

pub mod view;

// The bytes are those of a number, the lowest first, so that a row passes from call to call as a word and a length. The bytes
// of the word above the length are zero.
#[derive(Clone, Copy, PartialEq, Eq, Debug)]
pub struct Row {
    pub word: u64,
    pub len: u8,
    ghost short: { len ≤ 8 },
    ghost cut: { word < 2 ^ (8 * len) },
}
