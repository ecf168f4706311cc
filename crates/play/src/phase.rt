// How far the exchange on a tape has come, and what a record does there.
ghost use Rattle.std.specs.Prelude.{◌≡◌};
ghost use Rattle.memory.specs.Pile.{meaning_of};
ghost use Rattle.tape.specs.Records.{entry_of};
ghost use Rattle.play.specs.Work.{stage_of, turn_of, scene, worked, work_of};

use crate::fault::{Event, Refusal};
use engine::{Cold, Live};
use memory::Memory;
use tape::{Record, TapeFault, Turn};

const OUT_OF_TURN: Refusal = Refusal::Tape(TapeFault::OutOfTurn);

#[derive(Drop, PartialEq, Eq, Debug)]
pub enum Phase {
    Loading(Cold),
    InService(Live),
    Ended,
    Refused,
}

impl Phase {
    // What may come next on the tape.
    pub fn turn(&self) -> Turn
        ensures { result ≡ turn_of (stage_of self.now) }
    {
        match self {
            Phase::Loading(_) => Turn::Cold,
            Phase::InService(_) => Turn::Live,
            Phase::Ended | Phase::Refused => Turn::Over,
        }
    }

    // Works the record, and leaves the phase that comes of it. Of a refused one only the refusal counts, since it ends the tape. An
    // exchange that goes on is worked where it is: to move it out and back takes longer than a load.
    pub(crate) fn work(
        &mut self,
        item: Record,
        memory: &mut Memory,
        sheet: &mut [u8],
    ) -> Result<Event, Refusal>
        ensures { worked result (stage_of self.new) sheet.new (meaning_of memory.new) ≡ work_of (entry_of item.entry) (scene (stage_of self.old) sheet.old (meaning_of memory.old)) }
    {
        match item {
            Record::Load { address, bytes, .. } => {
                let Phase::Loading(exchange) = self else {
                    return Err(OUT_OF_TURN);
                };
                exchange.load(memory, address, bytes)?;
                Ok(Event::Loaded)
            }
            Record::Go { pc, return_pointer } => {
                let Phase::Loading(exchange) = std::mem::replace(self, Phase::Refused) else {
                    return Err(OUT_OF_TURN);
                };
                *self = Phase::InService(exchange.go(memory, pc, return_pointer));
                Ok(Event::Began)
            }
            Record::Run { steps } => {
                let Phase::InService(exchange) = self else {
                    return Err(OUT_OF_TURN);
                };
                let report = exchange.run(memory, sheet, steps)?;
                let pc = exchange.pc();
                Ok(Event::Ran { report, pc })
            }
            Record::Ring { vector } => {
                let Phase::InService(exchange) = self else {
                    return Err(OUT_OF_TURN);
                };
                let outcome = exchange.ring(memory, sheet, u16::from(vector));
                let pc = exchange.pc();
                Ok(Event::Rang { outcome, pc })
            }
            Record::End => {
                let Phase::InService(exchange) = std::mem::replace(self, Phase::Ended) else {
                    return Err(OUT_OF_TURN);
                };
                Ok(Event::Ended(exchange.end()))
            }
        }
    }
}
