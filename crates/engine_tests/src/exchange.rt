// An exchange with its bus and its sheet, as the tests call it.
use crate::same;
use bus::{Bus, Ram};
use engine::{Cold, Live, Report, SHEET_SIZE};
use layers::Guard;
use noninterference::{Answer, Refusal, VisitEnd};
use std::process::Abort;
use std::test::Fail;

// RAM ends here.
pub const RAM_END: u16 = 60_000;

// The vector of the handler.
pub const VECTOR: u16 = 8;

#[derive(PartialEq, Eq, Debug, Drop)]
pub struct Exchange {
    pub live: Live,
    pub bus: Guard<Ram>,
    pub sheet: Vec<u8>,
}

// In service at 256, where the program is. The handler is at 768, and 0 to 255 are guarded.
pub fn begun(
    rt: &(impl Abort + AllocGlobal),
    program: &[u8],
    handler: &[u8],
    return_pointer: u16,
) -> Result<Exchange, Fail> {
    let mut below = Ram {
        base: 0,
        bytes: vec![in rt.alloc(); 0u8; 60_000]?,
    };
    same(rt, "vector", below.load(VECTOR, &[0, 3]), Ok(()));
    same(rt, "program", below.load(256, program), Ok(()));
    same(rt, "handler", below.load(768, handler), Ok(()));
    let bus = Guard {
        first: 0,
        last: 255,
        below,
    };
    let live = Cold.go(&bus, 256, return_pointer);
    let sheet = vec![in rt.alloc(); 0u8; SHEET_SIZE]?;
    Ok(Exchange { live, bus, sheet })
}

impl Exchange {
    pub fn step(&mut self) -> Result<Answer, Refusal> {
        self.live.step(&mut self.bus, &mut self.sheet)
    }

    pub fn ring(&mut self, vector: u16) -> Result<(), Refusal> {
        self.live.ring(&mut self.bus, &mut self.sheet, vector)
    }

    // A ring that is taken.
    pub fn rung(&mut self, rt: &impl Abort) {
        same(rt, "ring", self.ring(VECTOR), Ok(()));
    }

    pub fn run(&mut self, n: u16) -> Result<Report, Refusal> {
        self.live.run(&mut self.bus, &mut self.sheet, n)
    }
}

// How the last step of a run ended a visit, if it did.
pub fn ended(report: Report) -> Option<VisitEnd> {
    report.last?.ok()?.ended
}
