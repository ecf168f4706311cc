// Bytes that are read and stored.
ghost use Rattle.std.specs.Prelude.{◌≡◌, ℕ, ◌-◌, is_ok, length, if◌then◌else◌};
ghost use Rattle.byte_rows.specs.Rows.{over};
ghost use Rattle.bus.specs.Kept.{ram_rules};
ghost use Rattle.bus.specs.Kinds.{ram_meaning, holds};
ghost use Rattle.bus.specs.Meaning.{loaded};

use crate::contract::Bus;
use crate::place::place;
use crate::refusal::BusRefusal;
use byte_rows::{PastEnd, overwrite};

// Byte i is at the address base + i.
#[derive(PartialEq, Eq, Debug, Drop)]
pub struct Ram {
    pub base: u16,
    pub bytes: Vec<u8>,
}

impl Ram {
    // Puts all the bytes in from the address on, or none where it has not all of these addresses.
    pub fn load(&mut self, address: u16, bytes: &[u8]) -> Result<(), PastEnd>
        ensures fits { is_ok result ≡ holds self.old.base (length self.old.bytes.items) address (length bytes.now) }
        ensures bytes { self.new.bytes.items ≡ (if is_ok result then over self.old.bytes.items (address - self.old.base) bytes.now else self.old.bytes.items) }
        ensures base { self.new.base ≡ self.old.base }
        ensures size { length self.new.bytes.items ≡ length self.old.bytes.items }
        ensures meaning { ram_meaning self.new.base self.new.bytes.items ≡ (if is_ok result then loaded (ram_meaning self.old.base self.old.bytes.items) address bytes.now else ram_meaning self.old.base self.old.bytes.items) }
    {
        let at = address.checked_sub(self.base).ok_or(PastEnd)?;
        if bytes.len() > 65536 - usize::from(address) {
            return Err(PastEnd);
        }
        overwrite(&mut self.bytes, usize::from(at), bytes)
    }
}

impl Bus for Ram {
    ghost meaning = { λ s. ram_meaning s.base s.bytes.items };

    ghost Frame = { ℕ × ℕ };

    ghost held = { λ s. (s.base, length s.bytes.items) };

    ghost rules = { λ s. ram_rules s.base s.bytes.items };

    #[inline(always)]
    fn read(&self, address: u16) -> Result<u8, BusRefusal> {
        let i = place(self.base, self.bytes.len(), address)?;
        Ok(self.bytes[i])
    }

    #[inline(always)]
    fn inquire(&self, address: u16) -> Result<(), BusRefusal> {
        place(self.base, self.bytes.len(), address)?;
        Ok(())
    }

    #[inline(always)]
    fn store(&mut self, address: u16, byte: u8) -> Result<(), BusRefusal> {
        let i = place(self.base, self.bytes.len(), address)?;
        self.bytes[i] = byte;
        Ok(())
    }

    #[inline(always)]
    fn read_eight(&self, address: u16) -> Option<[u8; 8]> {
        let i = place(self.base, self.bytes.len(), address).ok()?;
        if address > 65_528 || self.bytes.len() - i < 8 {
            return None;
        }
        let mut bytes = [0; 8];
        bytes.copy_from_slice(&self.bytes[i..i + 8]);
        Some(bytes)
    }

    #[inline(always)]
    fn takes_eight(&self, address: u16) -> bool {
        match place(self.base, self.bytes.len(), address) {
            Ok(i) => address <= 65_528 && self.bytes.len() - i >= 8,
            Err(_) => false,
        }
    }
}
