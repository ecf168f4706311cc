// What calls say, in plain numbers: enums and options do not cross to C.
ghost use Rattle.std.specs.Prelude.{◌≡◌};
ghost use Rattle.board.specs.Answers.{said_of, ran_of, read_out_of, refused, answered, silent};

use engine::Report;
use installation::CallFault;
use noninterference::{Answer, Description, Detail, VisitEnd};

// A step's answer, or a refusal.
#[repr(C)]
#[derive(Clone, Copy, Default, PartialEq, Eq, Debug)]
pub struct Said {
    // The program counter beforehand.
    pub place: u16,
    // The first stained address that was read, if one is told.
    pub stain: u16,
    // Of a refusal: the address asked, the illegal code or the index of the byte that is not decimal.
    pub detail: u16,
    // The refusal's number; 0 where the call was taken.
    pub number: u8,
    // How many bytes the instruction has; 0 if it was refused.
    pub length: u8,
    // How deep the bus refused.
    pub depth: u8,
    // The number of the mar, if the visit that ended was marred.
    pub mar: u8,
    pub told: bool,
    // The step ended a visit.
    pub ended: bool,
    pub marred: bool,
}

// What a run did. A run that was refused whole has no letter, and its refusal stands in `last`.
#[repr(C)]
#[derive(Clone, Copy, Default, PartialEq, Eq, Debug)]
pub struct Ran {
    // The last answer; all zero where no step was asked for.
    pub last: Said,
    // The steps done.
    pub done: u16,
    // S, R, T or M.
    pub letter: u8,
}

#[repr(C)]
#[derive(Clone, Copy, PartialEq, Eq, Debug)]
pub struct ReadOut {
    pub registers: [u8; 64],
    pub arp: u8,
    pub drp: u8,
    pub e: u8,
    // DCM in bit 0, then CY, OVF, LSB, MSB, Z, LDZ and RDZ.
    pub status: u8,
}

impl Said {
    fn answered(answer: Answer) -> Said
        ensures { result ≡ answered answer }
    {
        let mar = match answer.ended {
            Some(VisitEnd::Marred(mar)) => Some(mar.number()),
            Some(VisitEnd::Clean) | None => None,
        };
        Said {
            place: answer.place,
            length: answer.length,
            told: answer.told.is_some(),
            stain: answer.told.unwrap_or(0),
            ended: answer.ended.is_some(),
            marred: mar.is_some(),
            mar: mar.unwrap_or(0),
            ..Said::default()
        }
    }

    fn refused(fault: CallFault) -> Said
        ensures { result ≡ refused fault }
    {
        let Description { number, detail } = fault.describe();
        let (detail, depth) = match detail {
            Detail::None => (0, 0),
            Detail::Bus { address, depth } => (address, depth),
            Detail::Code(code) => (u16::from(code), 0),
            Detail::Index(index) => (u16::from(index), 0),
        };
        Said {
            place: fault.place(),
            number,
            detail,
            depth,
            told: fault.told().is_some(),
            stain: fault.told().unwrap_or(0),
            ..Said::default()
        }
    }
}

impl From<Result<Answer, CallFault>> for Said {
    ghost from_gives = { λ outcome r. r ≡ said_of answered outcome };

    fn from(outcome: Result<Answer, CallFault>) -> Said {
        match outcome {
            Ok(answer) => Said::answered(answer),
            Err(fault) => Said::refused(fault),
        }
    }
}

impl From<Result<(), CallFault>> for Said {
    ghost from_gives = { λ outcome r. r ≡ said_of silent outcome };

    fn from(outcome: Result<(), CallFault>) -> Said {
        match outcome {
            Ok(()) => Said::default(),
            Err(fault) => Said::refused(fault),
        }
    }
}

impl From<Result<Report, CallFault>> for Ran {
    ghost from_gives = { λ outcome r. r ≡ ran_of outcome };

    fn from(outcome: Result<Report, CallFault>) -> Ran {
        match outcome {
            Ok(report) => Ran {
                last: match report.last {
                    Some(Ok(answer)) => Said::answered(answer),
                    Some(Err(refusal)) => Said::refused(CallFault::Exchange(refusal)),
                    None => Said::default(),
                },
                done: report.done,
                letter: report.letter.byte(),
            },
            Err(fault) => Ran {
                last: Said::refused(fault),
                ..Ran::default()
            },
        }
    }
}

impl From<engine::ReadOut> for ReadOut {
    ghost from_gives = { λ read_out r. r ≡ read_out_of read_out };

    fn from(read_out: engine::ReadOut) -> ReadOut {
        let registers = read_out.registers;
        ReadOut {
            registers,
            arp: read_out.arp,
            drp: read_out.drp,
            e: read_out.e,
            status: u8::from(read_out.status),
        }
    }
}
