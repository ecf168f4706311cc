// What every bus does.
ghost use Rattle.std.specs.Prelude.{◌≡◌, ℕ, ◌+◌, is_ok, true, IfSome, length, if◌then◌else◌, nat_le};
ghost use Rattle.bus.specs.Meaning.{Meaning, after, loaded};
ghost use Rattle.bus.specs.Rules.{Rules};
ghost use Rattle.bus.specs.Eights.{ReadsEight, TakesEight};

use crate::refusal::BusRefusal;
use byte_rows::PastEnd;

pub trait Bus {
    // At each address, what a read gives and what a store gets.
    ghost meaning: { Self → Meaning };

    // What no store changes: where the bus begins, a layer's bounds, what is below.
    ghost Frame: { Type 0 };

    ghost held: { Self → Frame };

    // The bus rules, which each kind of bus proves of its meaning.
    ghost rules: { (s : Self) → Rules (meaning s) };

    fn read(&self, address: u16) -> Result<u8, BusRefusal>
        ensures { result ≡ (meaning self.now).reads address };

    // Whether a store would be taken.
    fn inquire(&self, address: u16) -> Result<(), BusRefusal>
        ensures { result ≡ (meaning self.now).takes address };

    fn store(&mut self, address: u16, byte: u8) -> Result<(), BusRefusal>
        ensures answer { result ≡ (meaning self.old).takes address }
        ensures after { meaning self.new ≡ after (meaning self.old) address byte }
        ensures held { held self.new ≡ held self.old };

    // Eight bytes from the address on, where this kind of bus can read them at once; none says nothing of them.
    #[inline(always)]
    fn read_eight(&self, _address: u16) -> Option<[u8; 8]>
        ensures { IfSome result (λ bytes. ReadsEight (meaning self.now) _address bytes) }
    {
        None
    }

    // Whether it is seen at once that stores to eight addresses from this on would be taken; `false` says nothing.
    #[inline(always)]
    fn takes_eight(&self, _address: u16) -> bool
        ensures { result ≡ true → TakesEight (meaning self.now) _address }
    {
        false
    }
}

// A bus whose memory is filled before the exchange goes into service, behind whatever guards it.
pub trait Loadable: Bus {
    // Loads reach the addresses below this one.
    ghost room: { ℕ };

    // Puts all the bytes into the memory from the address on, or none where they would pass its end.
    fn load(&mut self, address: u16, bytes: &[u8]) -> Result<(), PastEnd>
        ensures fits { is_ok result ≡ nat_le (address + length bytes.now) room }
        ensures after { Self.Bus.meaning self.new ≡ (if is_ok result then loaded (Self.Bus.meaning self.old) address bytes.now else Self.Bus.meaning self.old) }
        ensures held { Self.Bus.held self.new ≡ Self.Bus.held self.old };
}
