// Why a text is not a tape's, and where.
ghost use Rattle.std.specs.Prelude.{◌≡◌, Some};
ghost use Rattle.tape_text.specs.Messages.{expected_text, fault_text, error_text};
ghost use Rattle.tape_text.specs.declared.fault.PunchError.TheVariants.{OutOfMemory};

use std::alloc::AllocError;
use std::error::Error;
use std::fmt;

// What may come next on a line: first a mark, then bytes.
#[derive(Clone, Copy, PartialEq, Eq, Debug)]
pub enum Expected {
    Mark,
    Byte,
}

// Something else stands where this is expected. Lines and columns are counted from 1, columns in bytes.
#[derive(Clone, Copy, PartialEq, Eq, Debug)]
pub struct TextFault {
    pub line: usize,
    pub column: usize,
    pub expected: Expected,
}

#[derive(Clone, Copy, PartialEq, Eq, Debug)]
pub enum PunchError {
    Text(TextFault),
    OutOfMemory,
}

impl From<AllocError> for PunchError {
    ghost from_gives = { λ below e. e ≡ OutOfMemory };

    fn from(_below: AllocError) -> PunchError {
        PunchError::OutOfMemory
    }
}

impl fmt::Display for Expected {
    ghost output = { λ e. Some (expected_text e) };

    fn fmt<W: fmt::Write>(&self, f: &mut fmt::Formatter<W>) -> fmt::Result {
        match self {
            Self::Mark => write!(f, "a mark of two capital letters, or two dots"),
            Self::Byte => write!(f, "a byte of two hexadecimal digits"),
        }
    }
}

impl fmt::Display for TextFault {
    ghost output = { λ f. Some (fault_text f) };

    fn fmt<W: fmt::Write>(&self, f: &mut fmt::Formatter<W>) -> fmt::Result {
        let TextFault {
            line,
            column,
            expected,
        } = self;
        write!(f, "line {line}, column {column}: expected {expected}")
    }
}

impl fmt::Display for PunchError {
    ghost output = { λ e. Some (error_text e) };

    fn fmt<W: fmt::Write>(&self, f: &mut fmt::Formatter<W>) -> fmt::Result {
        match self {
            Self::Text(fault) => write!(f, "{fault}"),
            Self::OutOfMemory => write!(f, "out of memory"),
        }
    }
}

impl Error for PunchError {}
