// Why an instruction is refused.
ghost use Rattle.std.specs.Prelude.{◌≡◌};
ghost use Rattle.reading.specs.Faults.{fault_number};

use alu::NotDecimal;
use bus::BusRefusal;

#[derive(Clone, Copy, PartialEq, Eq, Debug)]
pub enum Fault {
    // The bus refused at the address.
    Bus { address: u16, refusal: BusRefusal },
    Illegal { code: u8 },
    NotDecimal(NotDecimal),
}

impl Fault {
    // The refusal's number: that of the cause where the bus refused, so that no discriminant can say it.
    pub fn number(self) -> u8
        ensures { result ≡ fault_number self }
    {
        match self {
            Fault::Bus { refusal, .. } => refusal.cause.number(),
            Fault::Illegal { .. } => 8,
            Fault::NotDecimal(_) => 9,
        }
    }
}
