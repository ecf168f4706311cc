// A layer over two buses, one for the addresses under a bound and one for the others.
ghost use Rattle.std.specs.Prelude.{ℕ};
ghost use Rattle.layers.specs.Kept.{split_rules};
ghost use Rattle.layers.specs.Layers.{split_meaning};

use bus::{Bus, BusRefusal, raise};

#[derive(Clone, PartialEq, Eq, Debug, Drop)]
pub struct Split<L, U> {
    pub at: u16,
    pub low: L,
    pub high: U,
}

impl<L: Bus, U: Bus> Bus for Split<L, U> {
    ghost meaning = { λ s. split_meaning s.at (L.Bus.meaning s.low) (U.Bus.meaning s.high) };

    ghost Frame = { ℕ × L.Bus.Frame × U.Bus.Frame };

    ghost held = { λ s. (s.at, L.Bus.held s.low, U.Bus.held s.high) };

    ghost rules = { λ s. split_rules s.at (L.Bus.meaning s.low) (U.Bus.meaning s.high) (L.Bus.rules s.low) (U.Bus.rules s.high) };

    fn read(&self, address: u16) -> Result<u8, BusRefusal> {
        raise(if address < self.at {
            self.low.read(address)
        } else {
            self.high.read(address)
        })
    }

    fn inquire(&self, address: u16) -> Result<(), BusRefusal> {
        raise(if address < self.at {
            self.low.inquire(address)
        } else {
            self.high.inquire(address)
        })
    }

    fn store(&mut self, address: u16, byte: u8) -> Result<(), BusRefusal> {
        raise(if address < self.at {
            self.low.store(address, byte)
        } else {
            self.high.store(address, byte)
        })
    }

    // All eight are on one side, or nothing is said of them.
    fn read_eight(&self, address: u16) -> Option<[u8; 8]> {
        if address >= self.at {
            self.high.read_eight(address)
        } else if self.at - address >= 8 {
            self.low.read_eight(address)
        } else {
            None
        }
    }

    fn takes_eight(&self, address: u16) -> bool {
        if address >= self.at {
            self.high.takes_eight(address)
        } else {
            self.at - address >= 8 && self.low.takes_eight(address)
        }
    }
}
