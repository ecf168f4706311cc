// The processor's state.
ghost use Rattle.std.specs.Prelude.{◌<◌};

use crate::status::Status;

pub mod differences;
pub mod rows;
pub mod start;

// Registers 4 and 5 are the program counter, 6 and 7 the return pointer, each a pair with its low byte first.
#[derive(Clone, Copy, PartialEq, Eq, Debug)]
pub struct Cpu {
    pub registers: [u8; 64],
    pub arp: u8,
    pub drp: u8,
    pub status: Status,
    pub e: u8,
    ghost arp_low: { arp < 64 },
    ghost drp_low: { drp < 64 },
    ghost e_low: { e < 16 },
}
