// A page of 256 addresses, and the bytes that a shadow keeps of it.
ghost use Rattle.std.specs.Prelude.{◌≡◌, ◌%◌, None};
ghost use Rattle.layers.specs.Layers.{in_page, kept_at, kept_after, shadow_takes};
ghost use Rattle.layers.specs.Pages.{kept_of};

use bus::{BusRefusal, Cause, raise};

// The page is the 256 addresses from 256 times its number on.
#[derive(Clone, PartialEq, Eq, Debug, Drop)]
pub struct Page {
    number: u8,
    kept: [Option<u8>; 256],
}

impl Page {
    // No byte is kept yet.
    pub fn new(number: u8) -> Page
        ensures number { result.number ≡ number }
        ensures kept { kept_of result ≡ (λ _. None) }
    {
        Page {
            number,
            kept: [None; 256],
        }
    }

    fn covers(&self, address: u16) -> bool
        ensures { result ≡ in_page self.now.number address }
    {
        address / 256 == u16::from(self.number)
    }

    // The byte kept at the address, if any.
    pub fn byte(&self, address: u16) -> Option<u8>
        ensures { result ≡ kept_at self.now.number (kept_of self.now) address }
    {
        if self.covers(address) {
            self.kept[usize::from(address % 256)]
        } else {
            None
        }
    }

    // Whether a store to the address is taken, by what a read of the bus below gives there.
    pub fn inquire(&self, below: Result<u8, BusRefusal>, address: u16) -> Result<(), BusRefusal>
        ensures { result ≡ shadow_takes self.now.number below address }
    {
        if !self.covers(address) {
            return Err(BusRefusal::here(Cause::OutsideShadow));
        }
        raise(below).map(|_| ())
    }

    // Keeps the byte if the store is taken.
    pub fn store(
        &mut self,
        below: Result<u8, BusRefusal>,
        address: u16,
        byte: u8,
    ) -> Result<(), BusRefusal>
        ensures answer { result ≡ shadow_takes self.old.number below address }
        ensures number { self.new.number ≡ self.old.number }
        ensures kept { kept_of self.new ≡ kept_after self.old.number (kept_of self.old) below address byte }
    {
        self.inquire(below, address)?;
        self.kept[usize::from(address % 256)] = Some(byte);
        Ok(())
    }
}
