// A player: a reader over the tape, and the exchange that it works.
ghost use Rattle.std.specs.Prelude.{◌≡◌, ◌+◌, ◌≤◌, length, IfOk};
ghost use Rattle.byte_rows.specs.Rows.{over};
ghost use Rattle.memory.specs.Pile.{meaning_of};
ghost use Rattle.tape.specs.Records.{entry_of, size_of};
ghost use Rattle.play.specs.Work.{stage_of, cold};
ghost use Rattle.play.specs.Lines.{lines_of};
ghost use Rattle.play.specs.Play.{world_of, tape_of, next_of, entry_in, handled_of, play_of, over_of};

use crate::fault::{Event, PlayFault, Played, Refusal};
use crate::lines::{BUFFER_SIZE, put_lines};
use crate::phase::Phase;
use engine::{Cold, SHEET_SIZE};
use memory::Memory;
use tape::{Reader, Record};

#[derive(Drop)]
pub struct Player<'a> {
    reader: Reader<'a>,
    phase: Phase,
}

impl<'a> Player<'a> {
    // At the tape's first record, with a cold exchange.
    pub fn new(tape: &'a [u8]) -> Player<'a>
        ensures tape { tape_of result ≡ tape.now }
        ensures stage { stage_of result.phase ≡ cold }
        ensures place { result.reader.place ≡ 0 }
    {
        Player {
            reader: Reader::new(tape),
            phase: Phase::Loading(Cold),
        }
    }

    // Nothing is left to play: a record was refused, or EN was the last.
    pub fn is_over(&self) -> bool
        ensures { result ≡ over_of (stage_of self.now.phase) (tape_of self.now) self.now.reader.place }
    {
        match self.phase {
            Phase::Loading(_) | Phase::InService(_) => false,
            Phase::Ended => self.reader.is_at_end(),
            Phase::Refused => true,
        }
    }

    // The next record, if the sheet has its size and the record is known, in turn and whole.
    fn next(&self, sheet: &[u8]) -> Result<Record<'a>, Refusal>
        ensures entry { entry_in result ≡ next_of (tape_of self.now) (stage_of self.now.phase) sheet.now self.now.reader.place }
        ensures within { IfOk result (λ x. self.now.reader.place + size_of (entry_of x) ≤ length (tape_of self.now)) }
    {
        if sheet.len() != SHEET_SIZE {
            return Err(Refusal::Sheet);
        }
        Ok(self.reader.peek(self.phase.turn())?)
    }

    // Works the next record and passes it. One that is refused ends the tape, and stays where it is.
    fn handle(&mut self, memory: &mut Memory, sheet: &mut [u8]) -> Result<Event, Refusal>
        ensures outcome { result ≡ (handled_of (tape_of self.old) (world_of self.old sheet.old (meaning_of memory.old))).outcome }
        ensures after { world_of self.new sheet.new (meaning_of memory.new) ≡ (handled_of (tape_of self.old) (world_of self.old sheet.old (meaning_of memory.old))).after }
        ensures tape { tape_of self.new ≡ tape_of self.old }
    {
        let item = match self.next(sheet) {
            Ok(item) => item,
            Err(refusal) => {
                self.phase = Phase::Refused;
                return Err(refusal);
            }
        };
        let outcome = self.phase.work(item, memory, sheet);
        match outcome {
            Ok(_) => self.reader.pass(item),
            Err(_) => self.phase = Phase::Refused,
        }
        outcome
    }

    // Plays one record, and writes its lines at the front of the buffer; the rest of the buffer stays.
    #[tactic(auto, using(byte_rows::proofs::Writing::over_none, crate::proofs::Playing::joined_none))]
    pub fn play(&mut self, memory: &mut Memory, sheet: &mut [u8], out: &mut [u8]) -> Played
        ensures outcome { result.outcome ≡ (play_of (length out.old) (tape_of self.old) (world_of self.old sheet.old (meaning_of memory.old))).outcome }
        ensures after { world_of self.new sheet.new (meaning_of memory.new) ≡ (play_of (length out.old) (tape_of self.old) (world_of self.old sheet.old (meaning_of memory.old))).after }
        ensures tape { tape_of self.new ≡ tape_of self.old }
        ensures lines { out.new ≡ over out.old 0 (lines_of result.outcome) }
        ensures wrote { result.wrote ≡ length (lines_of result.outcome) }
        ensures room { result.wrote ≤ 512 }
    {
        let offset = self.reader.place;
        let Some(lines) = out.first_chunk_mut::<BUFFER_SIZE>() else {
            let refusal = Refusal::Buffer;
            let outcome = Err(PlayFault { offset, refusal });
            return Played { wrote: 0, outcome };
        };
        let outcome = self
            .handle(memory, sheet)
            .map_err(|refusal| PlayFault { offset, refusal });
        let wrote = put_lines(lines, outcome);
        Played { wrote, outcome }
    }
}
