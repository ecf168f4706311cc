// Bytes that are read and not stored, lent by whoever owns them.
ghost use Rattle.std.specs.Prelude.{ℕ, List};
ghost use Rattle.bus.specs.Kept.{rom_rules};
ghost use Rattle.bus.specs.Kinds.{rom_meaning};

use crate::contract::Bus;
use crate::place::place;
use crate::refusal::{BusRefusal, Cause};

// Byte i is at the address base + i.
#[derive(Clone, PartialEq, Eq, Debug, Drop)]
pub struct Rom<'a> {
    pub base: u16,
    pub bytes: &'a [u8],
}

impl<'a> Bus for Rom<'a> {
    ghost meaning = { λ s. rom_meaning s.base s.bytes.now };

    ghost Frame = { ℕ × List ℕ };

    ghost held = { λ s. (s.base, s.bytes.now) };

    ghost rules = { λ s. rom_rules s.base s.bytes.now };

    // As in RAM: what the two share is `place`.
    #[inline(always)]
    fn read(&self, address: u16) -> Result<u8, BusRefusal> {
        let i = place(self.base, self.bytes.len(), address)?;
        Ok(self.bytes[i])
    }

    #[inline(always)]
    fn inquire(&self, address: u16) -> Result<(), BusRefusal> {
        place(self.base, self.bytes.len(), address)?;
        Err(BusRefusal::here(Cause::RomStore))
    }

    #[inline(always)]
    fn store(&mut self, address: u16, _byte: u8) -> Result<(), BusRefusal> {
        self.inquire(address)
    }
}
