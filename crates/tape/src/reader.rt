// A reader over the tape, with its place.
ghost use Rattle.std.specs.Prelude.{◌≡◌, ◌+◌, ◌≤◌, min, length, drop, IfOk, nat_le};
ghost use Rattle.tape.specs.Records.{entry, entry_of, size_of, load_of, go_of, run_of, ring_of, record_of};

use crate::record::{Mark, Record, TapeFault, Turn};

#[derive(Drop)]
pub struct Reader<'a> {
    tape: &'a [u8],
    pub place: usize,
    ghost within: { place ≤ length tape.now },
}

impl<'a> Reader<'a> {
    pub fn new(tape: &'a [u8]) -> Reader<'a>
        ensures tape { result.tape.now ≡ tape.now }
        ensures place { result.place ≡ 0 }
    {
        Reader { tape, place: 0 }
    }

    // Whether nothing is left.
    pub fn is_at_end(&self) -> bool
        ensures { result ≡ nat_le (length self.now.tape.now) self.now.place }
    {
        self.place >= self.tape.len()
    }

    // What is left of the tape.
    pub fn rest(&self) -> &'a [u8]
        ensures { result.now ≡ drop self.now.place self.now.tape.now }
    {
        &self.tape[self.place..]
    }

    // LD at the place: an address, a count, and that many bytes.
    fn load(&self) -> Result<Record<'a>, TapeFault>
        ensures { entry result ≡ load_of (self.now.place + 2) (drop 2 (drop self.now.place self.now.tape.now)) }
    {
        match self.rest() {
            [_, _, low, high, count, rest @ ..] if rest.len() >= usize::from(*count) => {
                Ok(Record::Load {
                    address: u16::from_le_bytes([*low, *high]),
                    offset: self.place + 5,
                    bytes: &rest[..usize::from(*count)],
                })
            }
            _ => Err(TapeFault::CutOff),
        }
    }

    // GO at the place: the program counter and the return pointer.
    fn go(&self) -> Result<Record<'a>, TapeFault>
        ensures { entry result ≡ go_of (drop 2 (drop self.now.place self.now.tape.now)) }
    {
        match self.rest() {
            [_, _, pc_low, pc_high, return_low, return_high, ..] => Ok(Record::Go {
                pc: u16::from_le_bytes([*pc_low, *pc_high]),
                return_pointer: u16::from_le_bytes([*return_low, *return_high]),
            }),
            _ => Err(TapeFault::CutOff),
        }
    }

    // RU at the place: the number of steps.
    fn run(&self) -> Result<Record<'a>, TapeFault>
        ensures { entry result ≡ run_of (drop 2 (drop self.now.place self.now.tape.now)) }
    {
        match self.rest() {
            [_, _, low, high, ..] => Ok(Record::Run {
                steps: u16::from_le_bytes([*low, *high]),
            }),
            _ => Err(TapeFault::CutOff),
        }
    }

    // RI at the place: the vector.
    fn ring(&self) -> Result<Record<'a>, TapeFault>
        ensures { entry result ≡ ring_of (drop 2 (drop self.now.place self.now.tape.now)) }
    {
        match self.rest() {
            [_, _, vector, ..] => Ok(Record::Ring { vector: *vector }),
            _ => Err(TapeFault::CutOff),
        }
    }

    // The next record, which the reader does not pass yet. An unknown mark is refused first, then one out of turn,
    // then a record that is cut off.
    #[tactic(auto, using(crate::proofs::Sizes::record_fits))]
    pub fn peek(&self, turn: Turn) -> Result<Record<'a>, TapeFault>
        ensures entry { entry result ≡ record_of turn self.now.place (drop self.now.place self.now.tape.now) }
        ensures within { IfOk result (λ x. self.now.place + size_of (entry_of x) ≤ length self.now.tape.now) }
    {
        let mark = match self.rest() {
            [b'L', b'D', ..] => Mark::Load,
            [b'G', b'O', ..] => Mark::Go,
            [b'R', b'U', ..] => Mark::Run,
            [b'R', b'I', ..] => Mark::Ring,
            [b'E', b'N', ..] => Mark::End,
            [_, _, ..] => return Err(TapeFault::UnknownMark),
            _ if turn == Turn::Over => return Err(TapeFault::OutOfTurn),
            _ => return Err(TapeFault::CutOff),
        };
        match turn.admit(mark)? {
            Mark::Load => self.load(),
            Mark::Go => self.go(),
            Mark::Run => self.run(),
            Mark::Ring => self.ring(),
            Mark::End => Ok(Record::End),
        }
    }

    // Goes past the record, at most to the tape's end.
    pub fn pass(&mut self, played: Record)
        ensures place { self.new.place ≡ min (self.old.place + size_of (entry_of played.entry)) (length self.old.tape.now) }
        ensures tape { self.new.tape.now ≡ self.old.tape.now }
    {
        let left = self.tape.len() - self.place;
        self.place += played.size().min(left);
    }
}
