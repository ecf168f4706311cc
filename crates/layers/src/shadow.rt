// A layer that keeps the bytes stored to one page; the bus below is never stored to.
ghost use Rattle.std.specs.Prelude.{◌≡◌, ℕ, None};
ghost use Rattle.layers.specs.Kept.{shadow_rules};
ghost use Rattle.layers.specs.Layers.{kept_at, kept_after, shadow_meaning, shadow_takes};
ghost use Rattle.layers.specs.Pages.{kept_of};

use crate::page::Page;
use bus::{Bus, BusRefusal, raise};

#[derive(Clone, PartialEq, Eq, Debug, Drop)]
pub struct Shadow<B> {
    page: Page,
    below: B,
}

impl<B> Shadow<B> {
    // A shadow of page number `page`, which keeps no byte yet.
    pub fn new(page: u8, below: B) -> Shadow<B>
        ensures page { result.page.number ≡ page }
        ensures kept { kept_of result.page ≡ (λ _. None) }
        ensures below { result.below ≡ below }
    {
        Shadow {
            page: Page::new(page),
            below,
        }
    }

    // The bus below, as it was handed in.
    pub fn into_below(self) -> B
        ensures { result ≡ self.below }
    {
        self.below
    }

    // The bus below, to be looked at alone.
    pub fn below(&self) -> &B
        ensures { result.now ≡ self.now.below }
    {
        &self.below
    }

    // The byte kept at the address, if any.
    pub fn byte(&self, address: u16) -> Option<u8>
        ensures { result ≡ kept_at self.now.page.number (kept_of self.now.page) address }
    {
        self.page.byte(address)
    }

    // Whether a store to the address is taken, by what a read of the bus below gives there.
    pub fn admit(&self, below: Result<u8, BusRefusal>, address: u16) -> Result<(), BusRefusal>
        ensures { result ≡ shadow_takes self.now.page.number below address }
    {
        self.page.inquire(below, address)
    }

    // Keeps the byte if the store is taken. The bus below stays as it is.
    pub fn keep(
        &mut self,
        below: Result<u8, BusRefusal>,
        address: u16,
        byte: u8,
    ) -> Result<(), BusRefusal>
        ensures answer { result ≡ shadow_takes self.old.page.number below address }
        ensures number { self.new.page.number ≡ self.old.page.number }
        ensures kept { kept_of self.new.page ≡ kept_after self.old.page.number (kept_of self.old.page) below address byte }
        ensures below { self.new.below ≡ self.old.below }
    {
        self.page.store(below, address, byte)
    }
}

impl<B: Bus> Bus for Shadow<B> {
    ghost meaning = { λ s. shadow_meaning s.page.number (kept_of s.page) (B.Bus.meaning s.below) };

    ghost Frame = { ℕ × B };

    ghost held = { λ s. (s.page.number, s.below) };

    ghost rules = { λ s. shadow_rules s.page.number (kept_of s.page) (B.Bus.meaning s.below) (B.Bus.rules s.below) };

    fn read(&self, address: u16) -> Result<u8, BusRefusal> {
        match self.page.byte(address) {
            Some(byte) => Ok(byte),
            None => raise(self.below.read(address)),
        }
    }

    fn inquire(&self, address: u16) -> Result<(), BusRefusal> {
        self.page.inquire(self.below.read(address), address)
    }

    #[tactic(auto, using(crate::proofs::Stores::shadow_after))]
    fn store(&mut self, address: u16, byte: u8) -> Result<(), BusRefusal> {
        self.page.store(self.below.read(address), address, byte)
    }
}
