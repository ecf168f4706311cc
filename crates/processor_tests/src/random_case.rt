// A random row of one to eight bytes, and the numbers that it stands for, in a u128.
ghost use Rattle.std.specs.Prelude.{◌≤◌};

use alu::{Flags, NotDecimal, Operation, Worked, operate_row};
use byte_rows::Row;
use registers::Status;

// The mode that a row counts in.
#[derive(Clone, Copy, PartialEq, Eq, Debug)]
pub enum Base {
    Binary,
    Decimal,
}

impl Base {
    // How many numbers a byte stands for.
    fn size(self) -> u128 {
        match self {
            Base::Binary => 256,
            Base::Decimal => 100,
        }
    }

    fn value(self, byte: u8) -> u128 {
        match self {
            Base::Binary => u128::from(byte),
            Base::Decimal => u128::from(byte / 16) * 10 + u128::from(byte % 16),
        }
    }

    // A byte that the mode accepts. Every fourth is its first or its last, so that carries go far.
    fn byte(self, seed: u64) -> u8 {
        match (seed >> 60, self) {
            (0..=1, _) => 0,
            (2..=3, Base::Binary) => 255,
            (2..=3, Base::Decimal) => 0x99,
            (_, Base::Binary) => ((seed >> 40) % 256) as u8,
            (_, Base::Decimal) => { 16 * ((seed >> 50) % 10) as u8 + ((seed >> 40) % 10) as u8 }
        }
    }

    // What a row stands for, its low byte first.
    pub fn number(self, row: &[u8]) -> u128 {
        row.iter().rev().fold(0u128, |n, b| {
            n.wrapping_mul(self.size()).wrapping_add(self.value(*b))
        })
    }
}

fn next(seed: u64) -> u64 {
    seed.wrapping_mul(6364136223846793005)
        .wrapping_add(1442695040888963407)
}

fn fill(row: &mut [u8; 8], mut seed: u64, base: Base) -> u64 {
    for b in row.iter_mut() {
        seed = next(seed);
        *b = base.byte(seed);
    }
    seed
}

#[derive(Clone, Copy, PartialEq, Eq, Debug)]
pub struct Case {
    pub base: Base,
    pub data: [u8; 8],
    pub operand: [u8; 8],
    pub span: usize,
    pub cy: bool,
    pub e: u8,
    pub seed: u64,
    ghost short: { span ≤ 8 },
}

impl Case {
    pub fn new(seed: u64, base: Base) -> Case {
        let mut data = [0u8; 8];
        let mut operand = [0u8; 8];
        let seed = fill(&mut data, seed, base);
        let seed = next(fill(&mut operand, seed, base));
        Case {
            base,
            data,
            operand,
            span: 1 + ((seed >> 33) % 8) as usize,
            cy: (seed >> 25) % 2 == 1,
            e: ((seed >> 20) % 16) as u8,
            seed,
        }
    }

    pub fn data(&self) -> &[u8] {
        &self.data[..self.span]
    }

    pub fn operand(&self) -> &[u8] {
        &self.operand[..self.span]
    }

    pub fn short_operand(&self) -> &[u8] {
        &self.operand[..self.span / 2]
    }

    // All status bits but CY and the mode are set beforehand, to see that each is written.
    pub fn flags(&self) -> Flags {
        Flags {
            status: Status {
                dcm: self.base == Base::Decimal,
                cy: self.cy,
                ovf: true,
                lsb: true,
                msb: true,
                z: true,
                ldz: true,
                rdz: true,
            },
            e: self.e,
        }
    }

    // The same on rows as words.
    pub fn operate_row(&self, op: Operation) -> Result<Worked, NotDecimal> {
        let row = Row::new(self.data, self.span);
        operate_row(op, self.flags(), &row, &Row::new(self.operand, self.span))
    }

    pub fn bits(&self) -> u32 {
        8 * (self.span % 9) as u32
    }

    // How many numbers the row has in a base.
    pub fn whole(&self, base: Base) -> u128 {
        base.size().wrapping_pow((self.span % 9) as u32)
    }
}
