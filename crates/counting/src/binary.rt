// Bytes as whole numbers below 256: every byte is lawful.
ghost use Rattle.counting.specs.Binary.{binary as numbers};
ghost use Rattle.std.proofs.Common.{rules};

use crate::Counting;

#[derive(Clone, Copy, PartialEq, Eq, Debug)]
pub struct Binary;

impl Counting for Binary {
    ghost system = { numbers };

    ghost sound = { Prim.search rules };

    fn accepts(_byte: u8) -> bool {
        true
    }

    fn add(a: u8, b: u8, carry: bool) -> (u8, bool) {
        let sum = u16::from(a) + u16::from(b) + u16::from(carry);
        ((sum % 256) as u8, sum >= 256)
    }

    fn subtract(a: u8, b: u8, borrow: bool) -> (u8, bool) {
        let taken = u16::from(b) + u16::from(borrow);
        (
            ((u16::from(a) + 256 - taken) % 256) as u8,
            u16::from(a) < taken,
        )
    }

    fn complement(a: u8) -> u8 {
        255 - a
    }
}
