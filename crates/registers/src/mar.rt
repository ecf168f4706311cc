// A mar is the first part of the processor in which a state differs from an earlier one: what an interrupt handler did not give
// back.
ghost use Rattle.std.specs.Prelude.{◌≡◌};
ghost use Rattle.registers.specs.Marks.{mar_number};

#[derive(Clone, Copy, PartialEq, Eq, Debug)]
pub enum Mar {
    Register(u8),
    Arp,
    Drp,
    Status,
    E,
}

impl Mar {
    // Registers are 0 to 63: a case that holds its own number, as a discriminant could not.
    pub fn number(self) -> u8
        ensures { result ≡ mar_number self }
    {
        match self {
            Mar::Register(k) => k,
            Mar::Arp => 64,
            Mar::Drp => 65,
            Mar::Status => 66,
            Mar::E => 67,
        }
    }
}
