// What an example is: registers and memory before it, its code, and what the manual says of the machine after it. Where the manual
// describes an example but prints no numbers, they are chosen.
use registers::Status;

// A bit of the status.
#[derive(Clone, Copy, PartialEq, Eq, Debug)]
pub enum Bit {
    Dcm,
    Cy,
    Ovf,
    Lsb,
    Msb,
    Z,
    Ldz,
    Rdz,
}

impl Bit {
    pub fn of(self, status: Status) -> bool {
        match self {
            Bit::Dcm => status.dcm,
            Bit::Cy => status.cy,
            Bit::Ovf => status.ovf,
            Bit::Lsb => status.lsb,
            Bit::Msb => status.msb,
            Bit::Z => status.z,
            Bit::Ldz => status.ldz,
            Bit::Rdz => status.rdz,
        }
    }
}

// What is said of the machine after an example.
#[derive(Clone, Copy)]
pub enum Fact {
    // The bytes that registers hold, from this one on.
    Registers(u8, &'static [u8]),
    // The bytes in memory, from this address on.
    Memory(u16, &'static [u8]),
    Pc(u16),
    Arp(u8),
    Drp(u8),
    Set(Bit),
    Clear(Bit),
    E(u8),
}

// The numbers of registers and the codes are octal, as the manual has them.
#[derive(Clone, Copy)]
pub struct Case {
    pub name: &'static str,
    // The bytes that registers hold before, from one on; the others hold 0.
    pub registers: &'static [(u8, &'static [u8])],
    // The bytes in memory before, from an address on; the others are 0.
    pub memory: &'static [(u16, &'static [u8])],
    pub code: &'static [u8],
    // How many instructions are carried out.
    pub steps: u16,
    pub facts: &'static [Fact],
}

pub const NOTHING: Case = Case {
    name: "",
    registers: &[],
    memory: &[],
    code: &[],
    steps: 0,
    facts: &[],
};

// Where an example's code begins, and the return pointer before it.
pub const START: u16 = 0x1000;

pub const RETURNS: u16 = 0x0400;
