// A layer that refuses stores to a range of addresses.
ghost use Rattle.std.specs.Prelude.{◌≡◌, ℕ};
ghost use Rattle.layers.specs.Kept.{guard_rules};
ghost use Rattle.layers.specs.Layers.{guard_admits, guard_meaning, guarded};

use bus::{Bus, BusRefusal, Cause, raise};

// Locks the addresses from first to last; with first above last it locks none.
#[derive(Clone, PartialEq, Eq, Debug, Drop)]
pub struct Guard<B> {
    pub first: u16,
    pub last: u16,
    pub below: B,
}

impl<B> Guard<B> {
    pub fn locks(&self, address: u16) -> bool
        ensures { result ≡ guarded self.now.first self.now.last address }
    {
        (self.first..=self.last).contains(&address)
    }

    // Refuses a store to a locked address.
    pub fn admit(&self, address: u16) -> Result<(), BusRefusal>
        ensures { result ≡ guard_admits self.now.first self.now.last address }
    {
        if self.locks(address) {
            return Err(BusRefusal::here(Cause::Guarded));
        }
        Ok(())
    }
}

impl<B: Bus> Bus for Guard<B> {
    ghost meaning = { λ s. guard_meaning s.first s.last (B.Bus.meaning s.below) };

    ghost Frame = { ℕ × ℕ × B.Bus.Frame };

    ghost held = { λ s. (s.first, s.last, B.Bus.held s.below) };

    ghost rules = { λ s. guard_rules s.first s.last (B.Bus.meaning s.below) (B.Bus.rules s.below) };

    fn read(&self, address: u16) -> Result<u8, BusRefusal> {
        raise(self.below.read(address))
    }

    fn inquire(&self, address: u16) -> Result<(), BusRefusal> {
        self.admit(address)?;
        raise(self.below.inquire(address))
    }

    fn store(&mut self, address: u16, byte: u8) -> Result<(), BusRefusal> {
        self.admit(address)?;
        raise(self.below.store(address, byte))
    }

    fn read_eight(&self, address: u16) -> Option<[u8; 8]> {
        self.below.read_eight(address)
    }

    // None of the eight is locked where the range ends before them or begins after them.
    fn takes_eight(&self, address: u16) -> bool {
        let is_apart = self.last < address || self.first > address.saturating_add(7);
        is_apart && self.below.takes_eight(address)
    }
}
