// Both rooms' calls from GO to the end, undisturbed or with a timeout on the way.
use crate::code::{DONE, LOADS, ROOMS, STACK, START};
use bus::Bus;
use engine::{Cold, ReadOut, SHEET_SIZE};
use memory::Memory;
use noninterference::VisitEnd;
use reading::is_stained;
use std::alloc::{AllocError, Global};

// More steps than both calls and a handler take.
const ENOUGH: u16 = 1000;

// A timeout rings before the step of this number, through this vector.
#[derive(Clone, Copy, Debug)]
pub struct Timeout {
    pub step: u16,
    pub vector: u16,
}

// What came of the calls.
#[derive(Drop, Debug)]
pub struct Calls {
    memory: Memory,
    sheet: Vec<u8>,
    read_out: ReadOut,
    // The steps outside the visit.
    pub steps: u16,
    // Where the timeout rang, how its visit ended, and the first stain told.
    pub place: u16,
    pub ended: Option<VisitEnd>,
    pub told: Option<u16>,
}

impl Calls {
    pub fn make(heap: Global, timeout: Option<Timeout>) -> Result<Calls, AllocError> {
        let mut memory = Memory::new(heap)?;
        let mut sheet = vec![in heap; 0u8; SHEET_SIZE]?;
        let cold = Cold;
        for (address, bytes) in LOADS {
            // All of them lie in RAM.
            let _ = cold.load(&mut memory, address, bytes);
        }
        let mut live = cold.go(&memory, START, STACK);
        let (mut steps, mut place, mut ended, mut told) = (0u16, START, None, None);
        let mut in_visit = false;
        for _ in 0..ENOUGH {
            if let Some(timeout) = timeout
                && timeout.step == steps
                && !in_visit
                && ended.is_none()
            {
                place = live.pc();
                in_visit = live.ring(&mut memory, &mut sheet, timeout.vector).is_ok();
            }
            if !in_visit && live.pc() == DONE {
                break;
            }
            let Ok(answer) = live.step(&mut memory, &mut sheet) else {
                break;
            };
            told = told.or(answer.told);
            steps = steps.saturating_add(u16::from(!in_visit));
            if answer.ended.is_some() {
                ended = answer.ended;
                in_visit = false;
            }
        }
        Ok(Calls {
            memory,
            sheet,
            read_out: live.end(),
            steps,
            place,
            ended,
            told,
        })
    }

    fn byte(&self, address: u16) -> u8 {
        self.memory.read(address).unwrap_or(0)
    }

    // Each room's line.
    pub fn lines(&self) -> [u8; 2] {
        let [first, second] = ROOMS;
        [self.byte(first), self.byte(second)]
    }

    // Each room's bill, two decimal digits.
    pub fn bills(&self) -> [u8; 2] {
        let [first, second] = ROOMS;
        [self.byte(first + 1), self.byte(second + 1)]
    }

    // Whether both rooms are on one line.
    pub fn share_a_line(&self) -> bool {
        let [first, second] = self.lines();
        first == second
    }

    // Whether these calls took the same steps as others, left the same processor, and the same bytes wherever there is no stain.
    pub fn is_as(&self, others: &Calls) -> bool {
        self.steps == others.steps
            && self.read_out == others.read_out
            && (0..=u16::MAX).all(|address| {
                is_stained(&self.sheet, address)
                    || self.memory.read(address) == others.memory.read(address)
            })
    }
}
