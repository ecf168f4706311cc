// Stores through a bus, with the sheet of stains kept beside it. A stain is a taint bit: it is set where an interrupt
// handler was the last to store.
#![tactic(auto)]

ghost use Rattle.std.specs.Prelude.{◌≡◌};
ghost use Rattle.stains.specs.Marks.{mark as marked};
ghost use Rattle.stains.specs.Stores.{upward, taken, stored_all, marked_all};

use bus::Bus;

// Sets or clears the stain of an address; a sheet that is too short keeps none past its end.
#[inline(always)]
pub fn mark(sheet: &mut [u8], stain: bool, address: u16)
    ensures { sheet.new ≡ marked stain address sheet.old }
{
    let i = usize::from(address / 8);
    let bit = 1u8 << (address % 8);
    if i < sheet.len() {
        if stain {
            sheet[i] |= bit;
        } else {
            sheet[i] &= !bit;
        }
    }
}

// Stores the bytes upward from the address, and sets or clears the stain of each byte's address. A store that the bus
// refuses changes neither; callers that inquired first know that there is none.
#[inline(always)]
pub fn make_stores<B: Bus>(bus: &mut B, sheet: &mut [u8], stain: bool, address: u16, bytes: &[u8])
    ensures bus { B.meaning bus.new ≡ stored_all (taken (B.meaning bus.old).takes (upward address bytes.now)) (B.meaning bus.old) }
    ensures sheet { sheet.new ≡ marked_all stain (taken (B.meaning bus.old).takes (upward address bytes.now)) sheet.old }
    ensures held { B.held bus.new ≡ B.held bus.old }
{
    for (i, byte) in bytes.iter().enumerate() {
        let at = address.wrapping_add((i % 65536) as u16);
        if bus.store(at, *byte).is_ok() {
            mark(sheet, stain, at);
        }
    }
}
