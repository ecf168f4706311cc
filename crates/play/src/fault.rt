// What comes of a record, and why one is refused.
ghost use Rattle.std.specs.Prelude.{◌≡◌};
ghost use Rattle.play.specs.declared.fault.Refusal.TheVariants.{Tape, Load, Step};
ghost use Rattle.play.specs.Numbers.{refusal_described, refusal_number};

use engine::{LoadFault, ReadOut, Report};
use noninterference::{Description, Detail, Refusal as StepRefusal};
use tape::TapeFault;

#[derive(Clone, Copy, PartialEq, Eq, Debug)]
pub enum Refusal {
    // The sheet has not 8,192 bytes.
    Sheet,
    Tape(TapeFault),
    Load(LoadFault),
    // A run was refused whole.
    Step(StepRefusal),
    // The line buffer has under 512 bytes.
    Buffer,
}

impl Refusal {
    // Number and detail: those of the fault below where there is one, so that no discriminant can say them.
    pub fn describe(self) -> Description
        ensures { result ≡ refusal_described self }
    {
        let number = match self {
            Refusal::Sheet => 1,
            Refusal::Tape(fault) => fault.number(),
            Refusal::Load(fault) => return fault.describe(),
            Refusal::Step(refusal) => return refusal.fault.describe(),
            Refusal::Buffer => 14,
        };
        Description {
            number,
            detail: Detail::None,
        }
    }

    pub fn number(self) -> u8
        ensures { result ≡ refusal_number self }
    {
        self.describe().number
    }
}

impl From<TapeFault> for Refusal {
    ghost from_gives = { λ fault r. r ≡ Tape fault };

    fn from(below: TapeFault) -> Refusal {
        Refusal::Tape(below)
    }
}

impl From<LoadFault> for Refusal {
    ghost from_gives = { λ fault r. r ≡ Load fault };

    fn from(below: LoadFault) -> Refusal {
        Refusal::Load(below)
    }
}

impl From<StepRefusal> for Refusal {
    ghost from_gives = { λ refusal r. r ≡ Step refusal };

    fn from(below: StepRefusal) -> Refusal {
        Refusal::Step(below)
    }
}

// A refused record, and the offset at which it begins.
#[derive(Clone, Copy, PartialEq, Eq, Debug)]
pub struct PlayFault {
    pub offset: usize,
    pub refusal: Refusal,
}

// A record that was played.
#[derive(Clone, Copy, PartialEq, Eq, Debug)]
pub enum Event {
    Loaded,
    Began,
    // The program counter is the one after the run or the ring. What a run stopped at, and a refused ring, refuse no record.
    Ran {
        report: Report,
        pc: u16,
    },
    Rang {
        outcome: Result<(), StepRefusal>,
        pc: u16,
    },
    Ended(ReadOut),
}

// What came of a record, and how many bytes of lines were written: they stand in the buffer that the caller lent.
#[derive(Clone, Copy, PartialEq, Eq, Debug)]
pub struct Played {
    pub wrote: usize,
    pub outcome: Result<Event, PlayFault>,
}
