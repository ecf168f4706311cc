// Where the byte of an address lies in a row that begins at a base address.
ghost use Rattle.std.specs.Prelude.{◌≡◌};
ghost use Rattle.bus.specs.Kinds.{place_of};

use crate::refusal::{BusRefusal, Cause};

#[inline(always)]
pub fn place(base: u16, size: usize, address: u16) -> Result<usize, BusRefusal>
    ensures { result ≡ place_of base size address }
{
    let i = usize::from(address.wrapping_sub(base));
    if base <= address && i < size {
        Ok(i)
    } else {
        Err(BusRefusal::here(Cause::NoByte))
    }
}
