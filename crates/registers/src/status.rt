// The status bits.
ghost use Rattle.std.specs.Prelude.{◌≡◌};
ghost use Rattle.registers.specs.Bits.{status_byte, clear};

#[derive(Clone, Copy, PartialEq, Eq, Default, Debug)]
pub struct Status {
    // Decimal mode.
    pub dcm: bool,
    // Carry.
    pub cy: bool,
    // Overflow.
    pub ovf: bool,
    // Least and most significant bit.
    pub lsb: bool,
    pub msb: bool,
    // Zero.
    pub z: bool,
    // Left and right digit zero.
    pub ldz: bool,
    pub rdz: bool,
}

impl Status {
    // No bit set.
    pub fn clear() -> Status
        ensures { result ≡ clear }
    {
        Status::default()
    }
}

// The eight bits as one byte, DCM in bit 0.
impl From<Status> for u8 {
    ghost from_gives = { λ s r. r ≡ status_byte s };

    fn from(status: Status) -> u8 {
        u8::from(status.dcm)
            + 2 * u8::from(status.cy)
            + 4 * u8::from(status.ovf)
            + 8 * u8::from(status.lsb)
            + 16 * u8::from(status.msb)
            + 32 * u8::from(status.z)
            + 64 * u8::from(status.ldz)
            + 128 * u8::from(status.rdz)
    }
}
