// Records, their marks, and why one is refused.
ghost use Rattle.std.specs.Prelude.{◌≡◌, Some};
ghost use Rattle.tape.specs.Records.{entry_of, size_of, tape_number, admit_of};

// A load holds its bytes as a part of the tape, which begins at the offset.
#[derive(Clone, Copy, PartialEq, Eq, Debug)]
pub enum Record<'a> {
    Load {
        address: u16,
        offset: usize,
        bytes: &'a [u8],
    },
    Go {
        pc: u16,
        return_pointer: u16,
    },
    Run {
        steps: u16,
    },
    Ring {
        vector: u8,
    },
    End,
}

#[derive(Clone, Copy, PartialEq, Eq, Debug)]
pub(crate) enum Mark {
    Load,
    Go,
    Run,
    Ring,
    End,
}

// Why there is no record to play. Each has its number.
#[derive(Clone, Copy, PartialEq, Eq, Debug)]
pub enum TapeFault {
    UnknownMark = 10,
    CutOff = 11,
    OutOfTurn = 12,
}

// What may come next: loads and GO, or what an exchange in service does, or nothing. Any record may come where a tape is read
// and not played.
#[derive(Clone, Copy, PartialEq, Eq, Debug)]
pub enum Turn {
    Cold,
    Live,
    Over,
    Any,
}

impl TapeFault {
    // The refusal's number.
    pub fn number(self) -> u8
        ensures { result ≡ tape_number self }
    {
        self as u8
    }
}

impl Record<'_> {
    // How many bytes of the tape it takes, its mark included.
    pub fn size(&self) -> usize
        ensures { result ≡ size_of (entry_of self.now) }
    {
        match self {
            Record::Load { bytes, .. } => 5 + bytes.len(),
            Record::Go { .. } => 6,
            Record::Run { .. } => 4,
            Record::Ring { .. } => 3,
            Record::End => 2,
        }
    }
}

impl Turn {
    // The mark, if a record with it may come now.
    pub(crate) fn admit(self, mark: Mark) -> Result<Mark, TapeFault>
        ensures { result ≡ admit_of self (Some mark) }
    {
        match (self, mark) {
            (Turn::Cold, Mark::Load | Mark::Go) => Ok(mark),
            (Turn::Live, Mark::Run | Mark::Ring | Mark::End) => Ok(mark),
            (Turn::Any, _) => Ok(mark),
            _ => Err(TapeFault::OutOfTurn),
        }
    }
}
