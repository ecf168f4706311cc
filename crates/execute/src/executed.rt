// What is left to do and to tell once an instruction's registers are written.
ghost use Rattle.std.specs.Prelude.{◌≡◌, false, []};
ghost use Rattle.byte_rows.specs.Short.{bytes_of};

use byte_rows::Row;

// The bytes are to be stored upward from the address.
#[derive(Clone, Copy, Debug)]
pub struct Executed {
    pub at: u16,
    pub bytes: Row,
    // How many bytes the instruction has.
    pub length: u8,
    // Whether it was RTN.
    pub returns: bool,
}

impl Executed {
    // Nothing is to be stored.
    #[inline(always)]
    pub fn still(size: u8) -> Executed
        ensures at { result.at ≡ 0 }
        ensures bytes { bytes_of result.bytes ≡ [] }
        ensures length { result.length ≡ size }
        ensures returns { result.returns ≡ false }
    {
        Executed {
            at: 0,
            bytes: Row::empty(),
            length: size,
            returns: false,
        }
    }
}
