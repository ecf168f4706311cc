// A pile that is built at run time, of any height, over one kind of bus.
ghost use Rattle.std.specs.Prelude.{◌≡◌, IfOk, None};
ghost use Rattle.piles.specs.Built.{built, outline, Outline};
ghost use Rattle.piles.specs.Piles.{pile_meaning, pile_rules, bottom, guard, split, shadow, PilesAreBuses};

use bus::{Bus, BusRefusal, raise};
use layers::{Guard, Shadow, Split};
use std::alloc::{AllocError, Global};

#[derive(PartialEq, Eq, Debug, Drop)]
pub enum Pile<B> {
    Bottom(B),
    Guard(Guard<Box<Pile<B>>>),
    Split(Split<Box<Pile<B>>, Box<Pile<B>>>),
    Shadow(Shadow<Box<Pile<B>>>),
}

impl<B: Bus + Drop> Pile<B> {
    // A pile of no layer yet. Whatever layers are put on it, it is a bus by the same rules.
    pub fn new(lowest: B) -> Pile<B>
        ensures built { built B.Bus.meaning B.Bus.rules result ≡ bottom (B.Bus.meaning lowest) (B.Bus.rules lowest) }
        ensures outline { outline B.Bus.held result ≡ Outline.bottom (B.Bus.held lowest) }
        ensures every_pile { PilesAreBuses }
    {
        Pile::Bottom(lowest)
    }

    // Fails for want of memory alone, as the next two do.
    pub fn guarded(self, heap: Global, first: u16, last: u16) -> Result<Pile<B>, AllocError>
        ensures made { IfOk result (λ p. built B.Bus.meaning B.Bus.rules p ≡ guard first last (built B.Bus.meaning B.Bus.rules self)) }
        ensures outline { IfOk result (λ p. outline B.Bus.held p ≡ Outline.guard first last (outline B.Bus.held self)) }
    {
        let below = Box::new(heap, self)?;
        Ok(Pile::Guard(Guard { first, last, below }))
    }

    // This pile for the addresses under `at`, the other for the rest.
    pub fn beside(self, heap: Global, at: u16, other: Pile<B>) -> Result<Pile<B>, AllocError>
        ensures made { IfOk result (λ p. built B.Bus.meaning B.Bus.rules p ≡ split at (built B.Bus.meaning B.Bus.rules self) (built B.Bus.meaning B.Bus.rules other)) }
        ensures outline { IfOk result (λ p. outline B.Bus.held p ≡ Outline.split at (outline B.Bus.held self) (outline B.Bus.held other)) }
    {
        let low = Box::new(heap, self)?;
        let high = Box::new(heap, other)?;
        Ok(Pile::Split(Split { at, low, high }))
    }

    pub fn shadowed(self, heap: Global, page: u8) -> Result<Pile<B>, AllocError>
        ensures made { IfOk result (λ p. built B.Bus.meaning B.Bus.rules p ≡ shadow page (λ _. None) (built B.Bus.meaning B.Bus.rules self)) }
        ensures outline { IfOk result (λ p. outline B.Bus.held p ≡ Outline.shadow page self) }
    {
        let below = Box::new(heap, self)?;
        Ok(Pile::Shadow(Shadow::new(page, below)))
    }
}

// An arm takes the steps of its layer and calls this impl for what is below. The layer's own methods would do, but they would lead
// back to this impl through theirs, and the check makes no proof of that where a method takes `&mut self`.
impl<B: Bus> Bus for Pile<B> {
    ghost meaning = { λ s. pile_meaning (built B.Bus.meaning B.Bus.rules s) };

    ghost Frame = { Outline B B.Bus.Frame };

    ghost held = { λ s. outline B.Bus.held s };

    ghost rules = { λ s. pile_rules (built B.Bus.meaning B.Bus.rules s) };

    fn read(&self, address: u16) -> Result<u8, BusRefusal> {
        match self {
            Pile::Bottom(bus) => bus.read(address),
            Pile::Guard(guard) => raise(guard.below.read(address)),
            Pile::Split(split) => raise(if address < split.at {
                split.low.read(address)
            } else {
                split.high.read(address)
            }),
            Pile::Shadow(shadow) => match shadow.byte(address) {
                Some(byte) => Ok(byte),
                None => raise(shadow.below().read(address)),
            },
        }
    }

    fn inquire(&self, address: u16) -> Result<(), BusRefusal> {
        match self {
            Pile::Bottom(bus) => bus.inquire(address),
            Pile::Guard(guard) => {
                guard.admit(address)?;
                raise(guard.below.inquire(address))
            }
            Pile::Split(split) => raise(if address < split.at {
                split.low.inquire(address)
            } else {
                split.high.inquire(address)
            }),
            Pile::Shadow(shadow) => shadow.admit(shadow.below().read(address), address),
        }
    }

    #[tactic(auto, using(layers::proofs::Stores::low_after, layers::proofs::Stores::high_after, layers::proofs::Stores::shadow_after))]
    fn store(&mut self, address: u16, byte: u8) -> Result<(), BusRefusal> {
        match self {
            Pile::Bottom(bus) => bus.store(address, byte),
            Pile::Guard(guard) => {
                guard.admit(address)?;
                raise(guard.below.store(address, byte))
            }
            Pile::Split(split) => raise(if address < split.at {
                split.low.store(address, byte)
            } else {
                split.high.store(address, byte)
            }),
            Pile::Shadow(shadow) => { shadow.keep(shadow.below().read(address), address, byte) }
        }
    }
}
