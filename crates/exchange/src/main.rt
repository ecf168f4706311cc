// Plays the tape on standard input and prints its lines.
#![tactic(auto)]

use std::io::{Read, Write};
use transcript::{TAPE_SIZE, transcribe};

fn main(rt: HostRuntime) -> anyhow::Result<()> {
    // Bytes past the first TAPE_SIZE are not played, so they are not read. With room for one more, the vector does not grow to find
    // that there is none.
    let mut tape = Vec::with_capacity(rt.alloc(), TAPE_SIZE + 1)?;
    rt.stdin().take(TAPE_SIZE as u64).read_to_end(&mut tape)?;
    let text = transcribe(rt.alloc(), &tape)?;
    rt.stdout().write_all(&text)?;
    Ok(())
}
