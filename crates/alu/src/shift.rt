// Shifts of a row by one bit or one digit.
ghost use Rattle.std.specs.Prelude.{◌≡◌, ◌+◌, ◌*◌, ◌%◌, ◌^◌, ◌<◌, length};
ghost use Rattle.counting.specs.Binary.{binary};
ghost use Rattle.counting.specs.System.{number};
ghost use Rattle.alu.specs.Shifts.{radix_of, left_row, left_out, right_row, right_out};

// What a shift moves by.
#[derive(Clone, Copy, PartialEq, Eq, Debug)]
pub enum Unit {
    Bit,
    Digit,
}

impl Unit {
    fn radix(self) -> u16
        ensures { result ≡ radix_of self }
    {
        match self {
            Unit::Bit => 2,
            Unit::Digit => 16,
        }
    }
}

// Shifts the row up, puts the low bit or digit of `incoming` in below, and gives what is lost above.
pub fn shift_left(unit: Unit, bytes: &mut [u8], incoming: u8) -> u8
    ensures row { bytes.new ≡ left_row (radix_of unit) bytes.old (incoming % radix_of unit) }
    ensures out { result ≡ left_out (radix_of unit) bytes.old (incoming % radix_of unit) }
    ensures small { result < radix_of unit }
    ensures whole { number binary bytes.new + 256 ^ length bytes.old * result ≡ radix_of unit * number binary bytes.old + incoming % radix_of unit }
{
    let radix = unit.radix();
    let mut carry = u16::from(incoming) % radix;
    for byte in bytes.iter_mut() {
        let wide = u16::from(*byte) * radix + carry;
        *byte = (wide % 256) as u8;
        carry = wide / 256;
    }
    carry as u8
}

// Shifts the row down, puts the low bit or digit of `incoming` in above, and gives what is lost below.
#[tactic(auto, using(crate::proofs::Shifting::right_whole))]
pub fn shift_right(unit: Unit, bytes: &mut [u8], incoming: u8) -> u8
    ensures row { bytes.new ≡ right_row (radix_of unit) bytes.old (incoming % radix_of unit) }
    ensures out { result ≡ right_out (radix_of unit) bytes.old (incoming % radix_of unit) }
    ensures small { result < radix_of unit }
    ensures whole { radix_of unit * number binary bytes.new + result ≡ number binary bytes.old + 256 ^ length bytes.old * (incoming % radix_of unit) }
{
    let radix = unit.radix();
    let mut carry = u16::from(incoming) % radix;
    // By index: of a loop over `iter_mut().rev()`, a proof does not learn which bytes were written.
    for i in (0..bytes.len()).rev() {
        let wide = carry * 256 + u16::from(bytes[i]);
        bytes[i] = (wide / radix) as u8;
        carry = wide % radix;
    }
    carry as u8
}
