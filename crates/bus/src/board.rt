// Sixteen trunks, each a byte of the bus.
ghost use Rattle.std.specs.Prelude.{◌≡◌, ℕ, ◌<◌, map, is_some, IfSome, if◌then◌else◌, nat_lt, slice_index_or, slice_set};
ghost use Rattle.bus.specs.Kept.{bytes_rules};
ghost use Rattle.bus.specs.Kinds.{board_meaning, trunk_byte};

use crate::contract::Bus;
use crate::place::place;
use crate::refusal::BusRefusal;
use crate::trunk::Trunk;

// Trunk i is at the address base + i.
#[derive(Clone, PartialEq, Eq, Debug, Drop)]
pub struct LineBoard {
    base: u16,
    trunks: [Trunk; 16],
}

impl LineBoard {
    pub fn new(base: u16, trunks: [Trunk; 16]) -> LineBoard
        ensures { (result.base ≡ base) × (result.trunks ≡ trunks) }
    {
        LineBoard { base, trunks }
    }

    // Trunk n, of 0 to 15.
    pub fn trunk(&self, n: u8) -> Option<Trunk>
        ensures test { is_some result ≡ nat_lt n 16 }
        ensures value { IfSome result (λ t. t ≡ slice_index_or self.now.trunks n t) }
    {
        self.trunks.get(usize::from(n)).copied()
    }

    // Rewrites trunk n, of 0 to 15, and answers the trunk that stood there; or changes nothing.
    pub fn rewrite(&mut self, n: u8, trunk: Trunk) -> Option<Trunk>
        ensures test { is_some result ≡ nat_lt n 16 }
        ensures was { IfSome result (λ t. t ≡ slice_index_or self.old.trunks n t) }
        ensures trunks { self.new.trunks ≡ (if is_some result then slice_set self.old.trunks n trunk else self.old.trunks) }
        ensures base { self.new.base ≡ self.old.base }
    {
        let old = self.trunk(n)?;
        self.trunks[usize::from(n)] = trunk;
        Some(old)
    }
}

impl Bus for LineBoard {
    ghost meaning = { λ s. board_meaning s.base s.trunks };

    ghost Frame = { ℕ };

    ghost held = { λ s. s.base };

    ghost rules = { λ s. bytes_rules s.base 16 (map trunk_byte s.trunks) };

    #[inline(always)]
    fn read(&self, address: u16) -> Result<u8, BusRefusal> {
        let i = place(self.base, self.trunks.len(), address)?;
        Ok(u8::from(self.trunks[i]))
    }

    #[inline(always)]
    fn inquire(&self, address: u16) -> Result<(), BusRefusal> {
        place(self.base, self.trunks.len(), address)?;
        Ok(())
    }

    #[inline(always)]
    fn store(&mut self, address: u16, byte: u8) -> Result<(), BusRefusal> {
        let i = place(self.base, self.trunks.len(), address)?;
        self.trunks[i] = Trunk::from(byte);
        Ok(())
    }
}
