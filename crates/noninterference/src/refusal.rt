// Why a step or a ring is refused.
ghost use Rattle.std.specs.Prelude.{◌≡◌};
ghost use Rattle.noninterference.specs.Refusals.{fault_detail, described, step_number};
ghost use Rattle.noninterference.specs.declared.refusal.StepFault.TheVariants.{Instruction};

use reading::Fault;

#[derive(Clone, Copy, PartialEq, Eq, Debug)]
pub enum StepFault {
    // The sheet has not 8,192 bytes.
    Sheet,
    OddVector,
    VisitOpen,
    // The instruction was refused, or the reads and stores of a ring.
    Instruction(Fault),
}

// The place is the program counter beforehand. A refused step tells the first stained address that it read, too.
#[derive(Clone, Copy, PartialEq, Eq, Debug)]
pub struct Refusal {
    pub place: u16,
    pub fault: StepFault,
    pub told: Option<u16>,
}

// What a fault says besides its number.
#[derive(Clone, Copy, PartialEq, Eq, Debug)]
pub enum Detail {
    None,
    // What the bus refused, and how deep in its pile of layers.
    Bus { address: u16, depth: u8 },
    // An illegal code.
    Code(u8),
    // The index of a byte that is not decimal.
    Index(u8),
}

// A fault's number and detail.
#[derive(Clone, Copy, PartialEq, Eq, Debug)]
pub struct Description {
    pub number: u8,
    pub detail: Detail,
}

impl From<Fault> for StepFault {
    ghost from_gives = { λ fault r. r ≡ Instruction fault };

    fn from(below: Fault) -> StepFault {
        StepFault::Instruction(below)
    }
}

impl From<Fault> for Detail {
    ghost from_gives = { λ fault r. r ≡ fault_detail fault };

    fn from(fault: Fault) -> Detail {
        match fault {
            Fault::Bus { address, refusal } => Detail::Bus {
                address,
                depth: refusal.depth,
            },
            Fault::Illegal { code } => Detail::Code(code),
            Fault::NotDecimal(byte) => Detail::Index(byte.index),
        }
    }
}

impl StepFault {
    pub fn describe(self) -> Description
        ensures { result ≡ described self }
    {
        let (number, detail) = match self {
            StepFault::Sheet => (1, Detail::None),
            StepFault::OddVector => (2, Detail::None),
            StepFault::VisitOpen => (3, Detail::None),
            StepFault::Instruction(fault) => (fault.number(), fault.into()),
        };
        Description { number, detail }
    }

    pub fn number(self) -> u8
        ensures { result ≡ step_number self }
    {
        self.describe().number
    }
}
