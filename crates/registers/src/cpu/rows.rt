// Registers, pairs and rows of them. Register numbers wrap modulo 64.
ghost use Rattle.std.specs.Prelude.{◌≡◌, ◌≤◌, length};
ghost use Rattle.byte_rows.specs.Short.{bytes_of};
ghost use Rattle.registers.specs.Model.{state_of};
ghost use Rattle.registers.specs.Rows.{register_at, pair_at, row_at, with_pair, with_row, span_of};

use crate::cpu::Cpu;
use byte_rows::{Row, overwrite};

// Byte forms work on one register, multi forms on as many as DRP says.
#[derive(Clone, Copy, PartialEq, Eq, Debug)]
pub enum Form {
    Byte,
    Multi,
}

// How many registers a form works on: one for a byte form; for a multi form those up to the next boundary, which below
// R40 lies at every second register, and from R40 on at every eighth.
#[inline(always)]
pub fn span(form: Form, drp: u8) -> usize
    ensures value { result ≡ span_of form drp }
    ensures few { result ≤ 8 }
{
    match form {
        Form::Byte => 1,
        Form::Multi if drp < 32 => 2 - usize::from(drp % 2),
        Form::Multi => 8 - usize::from(drp % 8),
    }
}

impl Cpu {
    #[inline(always)]
    pub fn register(&self, k: u8) -> u8
        ensures { result ≡ register_at self.now.registers k }
    {
        self.registers[usize::from(k % 64)]
    }

    // The pair of register k and the next one, low byte first.
    #[inline(always)]
    pub fn pair(&self, k: u8) -> u16
        ensures { result ≡ pair_at self.now.registers k }
    {
        u16::from_le_bytes([self.register(k), self.register(k.wrapping_add(1))])
    }

    // Writes the pair of register k and the next one; nothing else changes.
    #[inline(always)]
    pub fn set_pair(&mut self, k: u8, value: u16)
        ensures { state_of self.new ≡ with_pair (state_of self.old) k value }
    {
        let [low, high] = value.to_le_bytes();
        self.registers[usize::from(k) % 64] = low;
        self.registers[(usize::from(k) + 1) % 64] = high;
    }

    // Fills the row with the registers from k on.
    #[inline(always)]
    #[tactic(auto, using(std::proofs::lemmas::Grind::common_steps, crate::proofs::Rows::row_more))]
    pub fn read_row(&self, k: u8, row: &mut [u8])
        ensures { row.new ≡ row_at self.now.registers k (length row.old) }
    {
        for (i, byte) in row.iter_mut().enumerate() {
            *byte = self.registers[(usize::from(k) + i) % 64];
        }
    }

    // Writes the row to the registers from k on; nothing else changes.
    #[inline(always)]
    #[tactic(auto, using(std::proofs::lemmas::Grind::common_steps, crate::proofs::Rows::with_more))]
    pub fn write_row(&mut self, k: u8, row: &[u8])
        ensures { state_of self.new ≡ with_row (state_of self.old) k row.now }
    {
        for (i, byte) in row.iter().enumerate() {
            self.registers[(usize::from(k) + i) % 64] = *byte;
        }
    }

    // Eight registers that lie in line, copied at once.
    #[inline(always)]
    fn in_line(&self, k: u8) -> [u8; 8]
        requires { k ≤ 56 }
        ensures { result ≡ row_at self.now.registers k 8 }
    {
        let mut bytes = [0; 8];
        bytes.copy_from_slice(&self.registers[usize::from(k)..usize::from(k) + 8]);
        bytes
    }

    // Eight registers from k on, past the last to the first.
    #[inline(always)]
    fn around(&self, k: u8) -> [u8; 8]
        ensures { result ≡ row_at self.now.registers k 8 }
    {
        let mut bytes = [0; 8];
        self.read_row(k, &mut bytes);
        bytes
    }

    // The registers from k on that a form works on. The row is made in each case apart, so that one in line is a single load.
    #[inline(always)]
    #[tactic(auto, using(crate::proofs::Rows::row_first))]
    pub fn row(&self, k: u8, form: Form) -> Row
        ensures { bytes_of result ≡ row_at self.now.registers k (span_of form self.now.drp) }
    {
        let n = span(form, self.drp);
        if k <= 56 {
            Row::new(self.in_line(k), n)
        } else {
            Row::new(self.around(k), n)
        }
    }

    // Writes the row to the registers from k on; nothing else changes. One byte, and eight that lie in line, are written at once.
    #[inline(always)]
    pub fn set_row(&mut self, k: u8, row: Row)
        ensures { state_of self.new ≡ with_row (state_of self.old) k (bytes_of row) }
    {
        let bytes = row.bytes();
        match row.len() {
            1 => self.registers[usize::from(k) % 64] = bytes[0],
            8 if k <= 56 => {
                let _ = overwrite(&mut self.registers, usize::from(k), &bytes);
            }
            n => self.write_row(k, &bytes[..n]),
        }
    }
}
