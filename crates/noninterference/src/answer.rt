// What a step answers, and why a run stops.
ghost use Rattle.std.specs.Prelude.{◌≡◌};
ghost use Rattle.noninterference.specs.Letters.{letter_byte};

use registers::Mar;

// How a visit ended. A visit is one activation of an interrupt handler: it opens with a ring and ends with the return that
// brings the return pointer back. It is clean if the whole processor is as before the ring; else it is marred, and its mar
// is the first part of the processor that was not given back.
#[derive(Clone, Copy, PartialEq, Eq, Debug)]
pub enum VisitEnd {
    Clean,
    Marred(Mar),
}

// The answer of a step that was not refused.
#[derive(Clone, Copy, PartialEq, Eq, Debug)]
pub struct Answer {
    // The program counter before the step.
    pub place: u16,
    // How many bytes the instruction has.
    pub length: u8,
    // The first stained address that the step read, outside a visit; within one no stain is told.
    pub told: Option<u16>,
    // How the visit ended, if this step ended one.
    pub ended: Option<VisitEnd>,
}

// Why a run stopped: all its steps were done (S), one was refused (R), one told a stain (T), or a visit ended marred (M).
#[derive(Clone, Copy, PartialEq, Eq, Debug)]
pub enum Letter {
    Done,
    Refused,
    Told,
    Marred,
}

impl Letter {
    // The letter as it is printed.
    pub fn byte(self) -> u8
        ensures { result ≡ letter_byte self }
    {
        match self {
            Letter::Done => b'S',
            Letter::Refused => b'R',
            Letter::Told => b'T',
            Letter::Marred => b'M',
        }
    }
}
