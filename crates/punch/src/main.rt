// Punches the text on standard input: the tape comes on standard output. With the argument -d, for dump, a tape comes in and its
// text goes out.
#![tactic(auto)]

use anyhow::{Result, bail};
use std::env;
use std::io::{Read, Write};
use tape_text::{list, punch};

fn main(rt: HostRuntime) -> Result<()> {
    let mut arguments = env::args(&rt)?.skip(1);
    let direction = arguments.next();
    if arguments.next().is_some() {
        bail!("usage: punch [-d]");
    }
    let mut input = Vec::new(rt.alloc());
    rt.stdin().read_to_end(&mut input)?;
    let output = match direction.as_deref() {
        None => punch(rt.alloc(), &input)?,
        Some("-d") => list(rt.alloc(), &input)?,
        Some(_) => bail!("usage: punch [-d]"),
    };
    rt.stdout().write_all(&output)?;
    Ok(())
}
