// A tape read record by record, and listed as text.
ghost use Rattle.std.specs.Prelude.{◌≡◌, ◌++◌, drop, IfOk, OnOk, Ok};
ghost use Rattle.tape_text.specs.Reading.{tape_of};
ghost use Rattle.tape_text.specs.Listing.{line_of, rows_of, left, text_of, EveryRecordIsListed};

use std::alloc::{AllocError, Global};
use tape::{Reader, Turn};
use text::one_apart;

// How many bytes that belong to no record stand on a line.
const ROW: usize = 16;

// The text of the tape, whatever its bytes are. Punching it gives the tape again. Fails for want of memory alone.
#[tactic(auto, using(crate::proofs::Enough::every_record_is_listed, crate::proofs::Enough::left_all, crate::proofs::Again::punched_again))]
pub fn list(heap: Global, tape: &[u8]) -> Result<Vec<u8>, AllocError>
    ensures text { IfOk result (λ text. text.items ≡ text_of tape.now) }
    ensures again { IfOk result (λ text. tape_of text.items ≡ Ok tape.now) }
    ensures every_record { EveryRecordIsListed }
{
    let mut text = Vec::new(heap);
    let mut reader = Reader::new(tape);
    put_records(&mut text, &mut reader)?;
    put_rows(&mut text, reader.rest())?;
    Ok(text)
}

// Writes the lines of the records, up to where no whole one begins.
#[tactic(auto, using(crate::proofs::Enough::left_record, crate::proofs::Enough::left_rest, std::proofs::lemmas::Grind::common_steps))]
fn put_records(text: &mut Vec<u8>, reader: &mut Reader) -> Result<(), AllocError>
    ensures { OnOk result (text.new.items ++ rows_of (drop reader.new.place reader.new.tape.now) ≡ text.old.items ++ left reader.old.place reader.old.tape.now) }
{
    while let Ok(record) = reader.peek(Turn::Any) {
        let (mark, fields) = reader.rest()[..record.size()].split_at(2);
        put_line(text, mark, fields)?;
        reader.pass(record);
    }
    Ok(())
}

// Writes the lines of bytes that belong to no record.
#[tactic(auto, using(crate::proofs::Enough::rows_first, std::proofs::lemmas::Grind::common_steps))]
fn put_rows(text: &mut Vec<u8>, bytes: &[u8]) -> Result<(), AllocError>
    ensures { OnOk result (text.new.items ≡ text.old.items ++ rows_of bytes.now) }
{
    for row in bytes.chunks(ROW) {
        put_line(text, b"..", row)?;
    }
    Ok(())
}

// Writes a line at the end of the text.
fn put_line(text: &mut Vec<u8>, mark: &[u8], bytes: &[u8]) -> Result<(), AllocError>
    ensures { OnOk result (text.new.items ≡ text.old.items ++ line_of mark.now bytes.now) }
{
    text.extend_from_slice(mark)?;
    for byte in bytes {
        text.extend_from_slice(&one_apart(*byte))?;
    }
    text.extend_from_slice(b"\n")
}
