// A whole tape, and all that is printed of it.
#![tactic(auto)]

ghost use Rattle.std.specs.Prelude.{◌≡◌, take, IfOk};
ghost use Rattle.transcript.specs.Printed.{transcript_of, EveryRecordIsPlayed};

mod session;

use session::Session;
use std::alloc::{AllocError, Global};

// At most so many bytes of a tape are played.
pub const TAPE_SIZE: usize = 16384;

// The tape's first 16,384 bytes are played, from a cold exchange with a zero sheet on zero memory; this is all that
// they print. Fails for want of memory alone.
#[tactic(auto, using(crate::proofs::Progress::every_record_is_played))]
pub fn transcribe(heap: Global, tape: &[u8]) -> Result<Vec<u8>, AllocError>
    ensures made { IfOk result (λ v. v.items ≡ transcript_of (take 16384 tape.now)) }
    ensures to_the_end { EveryRecordIsPlayed }
{
    // With `?`, so that the proof has the text itself.
    Ok(play_tape(heap, front(tape))?)
}

// The bytes of the tape that are played.
fn front(tape: &[u8]) -> &[u8]
    ensures { result.now ≡ take 16384 tape.now }
{
    &tape[..TAPE_SIZE.min(tape.len())]
}

// The same of a tape of any size.
fn play_tape(heap: Global, tape: &[u8]) -> Result<Vec<u8>, AllocError>
    ensures { IfOk result (λ v. v.items ≡ transcript_of tape.now) }
{
    let mut session = Session::new(heap, tape)?;
    while !session.player.is_over() {
        session.play_record()?;
    }
    Ok(session.text)
}
