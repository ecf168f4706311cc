// Plays a table of tapes, one for each way a record is taken or refused, and prints what each prints.
#![tactic(auto)]

mod cases;

use cases::{Case, LOAD_OF_NO_BYTES, RECORDS, RUNS_AND_RINGS, UNKNOWN_MARK};
use engine::SHEET_SIZE;
use memory::Memory;
use play::{BUFFER_SIZE, Played, Player};
use std::io::Write;
use transcript::transcribe;

// What the sizes of a sheet and of a line buffer show, and the sizes.
#[derive(Clone, Copy, PartialEq, Eq, Debug)]
struct Lent {
    name: &'static str,
    sheet: usize,
    buffer: usize,
}

const LENT: [Lent; 4] = [
    Lent {
        name: "a buffer of 511 bytes, and a sheet of the wrong size: the buffer comes first",
        sheet: 0,
        buffer: BUFFER_SIZE - 1,
    },
    Lent {
        name: "a sheet of 8,191 bytes, and an unknown mark: the sheet comes first",
        sheet: SHEET_SIZE - 1,
        buffer: BUFFER_SIZE,
    },
    Lent {
        name: "a sheet of 8,193 bytes",
        sheet: SHEET_SIZE + 1,
        buffer: BUFFER_SIZE,
    },
    Lent {
        name: "a sheet of 8,192 bytes, and an unknown mark",
        sheet: SHEET_SIZE,
        buffer: BUFFER_SIZE,
    },
];

fn show(rt: &HostRuntime, (name, tape): Case) -> anyhow::Result<()> {
    println!(rt; "# {name}")?;
    let text = transcribe(rt.alloc(), tape)?;
    rt.stdout().write_all(&text)?;
    Ok(())
}

// One record, with a sheet and a line buffer of these sizes: its number, how many bytes it wrote, and the buffer up to four
// bytes past them.
fn show_lent(rt: &HostRuntime, lent: Lent) -> anyhow::Result<()> {
    println!(rt; "# {}", lent.name)?;
    let mut memory = Memory::new(rt.alloc())?;
    let mut sheet = vec![in rt.alloc(); 0u8; lent.sheet]?;
    let mut buffer = vec![in rt.alloc(); b'.'; lent.buffer]?;
    let mut player = Player::new(b"XY");
    let Played { wrote, outcome } = player.play(&mut memory, &mut sheet, &mut buffer);
    match outcome {
        Ok(_) => println!(rt; "played, {wrote} bytes written")?,
        Err(fault) => {
            let number = fault.refusal.number();
            println!(rt; "refused with {number}, {wrote} bytes written")?;
        }
    }
    let shown = buffer.len().min(wrote + 4);
    rt.stdout().write_all(&buffer[..shown])?;
    println!(rt; "")?;
    Ok(())
}

// The same record played twice: after a refusal the place stays, and all but an unknown mark is out of turn.
fn show_again(rt: &HostRuntime, (name, tape): Case) -> anyhow::Result<()> {
    println!(rt; "# {name}, played twice")?;
    let mut memory = Memory::new(rt.alloc())?;
    let mut sheet = vec![in rt.alloc(); 0u8; SHEET_SIZE]?;
    let mut player = Player::new(tape);
    for _ in 0..2 {
        let mut buffer = [0u8; BUFFER_SIZE];
        let wrote = player.play(&mut memory, &mut sheet, &mut buffer).wrote;
        rt.stdout().write_all(&buffer[..wrote])?;
    }
    Ok(())
}

fn main(rt: HostRuntime) -> anyhow::Result<()> {
    for case in RECORDS {
        show(&rt, case)?;
    }
    for case in RUNS_AND_RINGS {
        show(&rt, case)?;
    }
    for lent in LENT {
        show_lent(&rt, lent)?;
    }
    show_again(&rt, UNKNOWN_MARK)?;
    show_again(&rt, LOAD_OF_NO_BYTES)
}
