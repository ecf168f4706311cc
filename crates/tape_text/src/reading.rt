// A text read line by line, and punched.
ghost use Rattle.std.specs.Prelude.{◌≡◌, ◌+◌, ◌<◌, ◌≤◌, [], ◌∷◌, length};
ghost use Rattle.tape_text.specs.Reading.{before, byte_of, fault, bytes_from, line_at, tape_of, Reads, Punched};

use crate::fault::{Expected, PunchError, TextFault};
use std::alloc::Global;

// A line of a text, and its number.
#[derive(Clone, Copy, PartialEq, Eq, Debug)]
struct Line<'a> {
    number: usize,
    text: &'a [u8],
}

// The tape that the text stands for. Fails where the text is no tape's, at the first such place, and for want of memory.
#[tactic(auto, using(crate::proofs::Punching::punched, crate::proofs::Punching::not_punched))]
pub fn punch(heap: Global, text: &[u8]) -> Result<Vec<u8>, PunchError>
    ensures { Punched (tape_of text.now) result }
{
    let mut tape = Vec::new(heap);
    read_lines(text, &mut tape)?;
    Ok(tape)
}

// Punches the lines of the text, which are counted from 1.
fn read_lines(text: &[u8], tape: &mut Vec<u8>) -> Result<(), PunchError>
    ensures { Reads (tape_of text.now) tape.old.items result tape.new.items }
{
    for (n, text) in text.split(|byte| *byte == b'\n').enumerate() {
        let line = Line {
            number: n + 1,
            text,
        };
        line.read(tape)?;
    }
    Ok(())
}

impl Line<'_> {
    // Punches the line, unless it is blank.
    #[tactic(auto, using(crate::proofs::Punching::marked_line, std::proofs::lemmas::Bool::Decides::nat_tests, std::proofs::lemmas::List::take_all))]
    fn read(&self, tape: &mut Vec<u8>) -> Result<(), PunchError>
        ensures { Reads (line_at self.now.number self.now.text.now) tape.old.items result tape.new.items }
    {
        let mut rest = self.text;
        loop {
            match rest {
                [] | [b'#', ..] => return Ok(()),
                [b' ' | b'\t' | b'\r', after @ ..] => rest = after,
                [b'.', b'.', bytes @ ..] => return self.read_bytes(bytes, tape),
                [first @ b'A'..=b'Z', second @ b'A'..=b'Z', bytes @ ..] => {
                    return self.read_record(*first, *second, bytes, tape);
                }
                _ => return Err(PunchError::Text(self.fault(rest, Expected::Mark))),
            }
        }
    }

    // Punches a mark and the bytes after it.
    #[tactic(auto, using(crate::proofs::Punching::reads_before))]
    fn read_record(
        &self,
        first: u8,
        second: u8,
        bytes: &[u8],
        tape: &mut Vec<u8>,
    ) -> Result<(), PunchError>
        requires { length bytes.now ≤ length self.now.text.now }
        ensures { Reads (before (first ∷ second ∷ []) (bytes_from self.now.number (length self.now.text.now + 1) bytes.now)) tape.old.items result tape.new.items }
    {
        tape.extend_from_slice(&[first, second])?;
        self.read_bytes(bytes, tape)
    }

    // Punches the bytes in the rest of the line, up to a comment.
    fn read_bytes(&self, rest: &[u8], tape: &mut Vec<u8>) -> Result<(), PunchError>
        requires { length rest.now ≤ length self.now.text.now }
        ensures { Reads (bytes_from self.now.number (length self.now.text.now + 1) rest.now) tape.old.items result tape.new.items }
    {
        let mut rest = rest;
        loop {
            match rest {
                [] | [b'#', ..] => return Ok(()),
                [b' ' | b'\t' | b'\r', after @ ..] => rest = after,
                [first, second, after @ ..] => {
                    let Some(byte) = byte_of(*first, *second) else {
                        return Err(PunchError::Text(self.fault(rest, Expected::Byte)));
                    };
                    tape.extend_from_slice(&[byte])?;
                    rest = after;
                }
                [_] => return Err(PunchError::Text(self.fault(rest, Expected::Byte))),
            }
        }
    }

    // What is expected where the rest of the line begins.
    fn fault(&self, rest: &[u8], expected: Expected) -> TextFault
        requires some { 0 < length rest.now }
        requires within { length rest.now ≤ length self.now.text.now }
        ensures { result ≡ fault self.now.number (length self.now.text.now + 1) rest.now expected }
    {
        TextFault {
            line: self.number,
            column: self.text.len() - rest.len() + 1,
            expected,
        }
    }
}

// The byte that two hexadecimal digits stand for, capital or small.
fn byte_of(high: u8, low: u8) -> Option<u8>
    ensures { result ≡ byte_of high low }
{
    let high = char::from(high).to_digit(16)?;
    let low = char::from(low).to_digit(16)?;
    Some((high * 16 + low) as u8)
}
