// Reads one byte, a pair or a row, and inquires about stores.
ghost use Rattle.std.specs.Prelude.{◌≡◌, ℕ, ◌+◌, ◌<◌, ◌≤◌, true, false, Ok, IfSome, take, length};
ghost use Rattle.reading.specs.Readings.{ReadsBy, byte_tree, pair_tree, row_tree, row_with, row_got, stores_tree};
ghost use Rattle.reading.specs.Sheets.{stained};

use crate::fault::Fault;
use bus::Bus;
use counting::byte_at;

// Whether the sheet has the stain of an address; a sheet that is too short has none past its end.
#[inline(always)]
pub fn is_stained(sheet: &[u8], address: u16) -> bool
    ensures { result ≡ stained sheet.now address }
{
    (byte_at(sheet, usize::from(address / 8)) >> (address % 8)) % 2 == 1
}

// Whether it is seen at once that none of the eight addresses from this one on is stained: two bytes of the sheet have their stains.
#[inline(always)]
#[tactic(auto, using(crate::proofs::Eights::none_stained))]
fn is_clear(sheet: &[u8], address: u16) -> bool
    ensures { (i : ℕ) → result ≡ true → i < 8 → stained sheet.now (address + i) ≡ false }
{
    let i = usize::from(address / 8);
    byte_at(sheet, i) == 0 && byte_at(sheet, i + 1) == 0
}

// A reader of a bus, with the sheet of its stains.
#[derive(Drop)]
pub struct BusReader<'a, B> {
    bus: &'a B,
    sheet: &'a [u8],
    // The first stained address that was asked for.
    pub told: Option<u16>,
}

impl<'a, B: Bus> BusReader<'a, B> {
    // Nothing is told yet.
    #[inline(always)]
    pub fn new(bus: &'a B, sheet: &'a [u8]) -> BusReader<'a, B>
        ensures bus { result.bus.now ≡ bus.now }
        ensures sheet { result.sheet.now ≡ sheet.now }
        ensures told { result.told ≡ None }
    {
        BusReader {
            bus,
            sheet,
            told: None,
        }
    }

    // Reads one byte, and notes the address if it is the first that is stained.
    #[inline(always)]
    pub fn byte(&mut self, address: u16) -> Result<u8, Fault>
        ensures { ReadsBy B.Bus.meaning self.old (byte_tree address) result self.new }
    {
        if self.told.is_none() && is_stained(self.sheet, address) {
            self.told = Some(address);
        }
        self.bus
            .read(address)
            .map_err(|refusal| Fault::Bus { address, refusal })
    }

    // Reads a pair, low byte first. The address after 65,535 is 0.
    #[inline(always)]
    pub fn pair(&mut self, address: u16) -> Result<u16, Fault>
        ensures { ReadsBy B.Bus.meaning self.old (pair_tree address) result self.new }
    {
        let low = self.byte(address)?;
        let high = self.byte(address.wrapping_add(1))?;
        Ok(u16::from_le_bytes([low, high]))
    }

    // Fills the row with the bytes from the address on, upward; here too 0 comes after 65,535.
    #[inline(always)]
    #[tactic(auto, using(crate::proofs::Filling::filling_begins))]
    pub fn row(&mut self, address: u16, row: &mut [u8]) -> Result<(), Fault>
        ensures read { ReadsBy B.Bus.meaning self.old (row_tree (length row.old) address) (row_with row.new result) self.new }
        ensures got { row.new ≡ row_got (B.Bus.meaning self.old.bus.now).reads address row.old }
    {
        for (i, byte) in row.iter_mut().enumerate() {
            *byte = self.byte(address.wrapping_add((i % 65536) as u16))?;
        }
        Ok(())
    }

    // Eight bytes at once, of which any number are what a row is filled with; none where the bus has no short way, or where one
    // of them may be stained and has to be told.
    #[inline(always)]
    pub fn eight(&self, address: u16) -> Option<[u8; 8]>
        ensures { IfSome result (λ bytes. (n : ℕ) → n ≤ 8 → ReadsBy B.Bus.meaning self.now (row_tree n address) (Ok (take n bytes)) self.now) }
    {
        if self.told.is_some() || is_clear(self.sheet, address) {
            self.bus.read_eight(address)
        } else {
            None
        }
    }

    // Inquires about stores to n addresses upward; the first that would not be taken refuses.
    #[inline(always)]
    #[tactic(auto, using(crate::proofs::Laws::store_more, crate::proofs::Laws::inquiring))]
    pub fn inquire(&self, address: u16, n: usize) -> Result<(), Fault>
        ensures { ReadsBy B.Bus.meaning self.now (stores_tree n address) result self.now }
    {
        if n <= 8 && self.bus.takes_eight(address) {
            return Ok(());
        }
        for i in 0..n {
            let at = address.wrapping_add((i % 65536) as u16);
            let taken = self.bus.inquire(at);
            taken.map_err(|refusal| Fault::Bus {
                address: at,
                refusal,
            })?;
        }
        Ok(())
    }
}
