// What is done with the memory.
ghost use Rattle.std.specs.Prelude.{◌≡◌, length, map, IfOk};
ghost use Rattle.byte_rows.specs.Rows.{zeros};
ghost use Rattle.bus.specs.Kinds.{trunk_byte};
ghost use Rattle.memory.specs.Blank.{blank};
ghost use Rattle.memory.specs.Pile.{meaning_of, rules_of};

use crate::memory::Memory;
use bus::{Bus, BusRefusal, LineBoard, Loadable, Ram, Trunk};
use byte_rows::PastEnd;
use layers::{Guard, Split};
use std::alloc::{AllocError, Global};

impl Memory {
    // All bytes and trunks zero. Fails for want of memory alone.
    pub fn new(heap: Global) -> Result<Memory, AllocError>
        ensures made { IfOk result (λ m. meaning_of m ≡ blank) }
    {
        let bytes = zero_bytes(heap)?;
        let low = Guard {
            first: 0,
            last: 255,
            below: Ram { base: 0, bytes },
        };
        let high = LineBoard::new(32768, zero_trunks());
        let pile = Split {
            at: 32768,
            low,
            high,
        };
        Ok(Memory { pile })
    }
}

// For the RAM.
fn zero_bytes(heap: Global) -> Result<Vec<u8>, AllocError>
    ensures bytes { IfOk result (λ v. v.items ≡ zeros 32768) }
    ensures size { IfOk result (λ v. length v.items ≡ 32768) }
{
    Ok(vec![in heap; 0u8; 32768]?)
}

// For the line board.
fn zero_trunks() -> [Trunk; 16]
    ensures { map trunk_byte result ≡ zeros 16 }
{
    [Trunk::from(0); 16]
}

impl Bus for Memory {
    ghost meaning = { meaning_of };

    // All bounds of this pile are fixed by its type.
    ghost Frame = { Unit {0} };

    ghost held = { λ _. tt };

    ghost rules = { rules_of };

    fn read(&self, address: u16) -> Result<u8, BusRefusal> {
        self.pile.read(address)
    }

    fn inquire(&self, address: u16) -> Result<(), BusRefusal> {
        self.pile.inquire(address)
    }

    fn store(&mut self, address: u16, byte: u8) -> Result<(), BusRefusal> {
        self.pile.store(address, byte)
    }
}

impl Loadable for Memory {
    ghost room = { 32768 };

    #[tactic(auto, using(crate::proofs::Loads::loaded_behind))]
    fn load(&mut self, address: u16, bytes: &[u8]) -> Result<(), PastEnd> {
        self.pile.low.below.load(address, bytes)
    }
}
