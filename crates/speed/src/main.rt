// Plays a workload over and over on a pile of a height, and prints where it ends. tools/speed takes the time of that, and of the same
// work in another program. Without arguments it plays each workload at each height for a run.
#![tactic(auto)]

mod heights;
mod workloads;

use anyhow::bail;
use bus::{Bus, Ram};
use engine::{Cold, Live, ReadOut, SHEET_SIZE};
use heights::{HEIGHTS, higher};
use noninterference::Refusal;
use std::alloc::{AllocError, Global};
use std::env;
use workloads::{STACK, START, VECTOR, WORKLOADS, Workload};

// The steps of a run.
const STEPS: u16 = 65_000;

// The steps from one ring to the next, those of the handler among them.
const BETWEEN_RINGS: u16 = 50;

// How many steps were done in all, and what the exchange ended with.
#[derive(Clone, Copy)]
struct End {
    steps: u64,
    read_out: ReadOut,
}

// Rings, and runs to the next ring.
fn ring_and_run<B: Bus>(live: &mut Live, bus: &mut B, sheet: &mut [u8]) -> Result<u16, Refusal> {
    live.ring(bus, sheet, VECTOR)?;
    Ok(live.run(bus, sheet, BETWEEN_RINGS)?.done)
}

// All the runs, one after another on one exchange. Where a ring is refused, no step of its turn counts.
fn play<B: Bus>(heap: Global, bus: &mut B, is_rung: bool, runs: u32) -> Result<End, AllocError> {
    let mut sheet = vec![in heap; 0u8; SHEET_SIZE]?;
    let mut live = Cold.go(bus, START, STACK);
    let mut steps = 0u64;
    for _ in 0..runs {
        if is_rung {
            for _ in 0..STEPS / BETWEEN_RINGS {
                let done = ring_and_run(&mut live, bus, &mut sheet).unwrap_or(0);
                steps = steps.saturating_add(u64::from(done));
            }
        } else {
            let done = live
                .run(bus, &mut sheet, STEPS)
                .map_or(0, |report| report.done);
            steps = steps.saturating_add(u64::from(done));
        }
    }
    Ok(End {
        steps,
        read_out: live.end(),
    })
}

fn show(rt: &HostRuntime, workload: &Workload, height: u8, runs: u32) -> anyhow::Result<()> {
    let mut ram = Ram {
        base: 0,
        bytes: vec![in rt.alloc(); 0u8; 65_536]?,
    };
    for (address, bytes) in workload.loads {
        // RAM has all addresses.
        let _ = ram.load(*address, bytes);
    }
    let (heap, is_rung) = (rt.alloc(), workload.is_rung);
    let end = match height {
        1 => play(heap, &mut ram, is_rung, runs)?,
        4 => play(heap, &mut higher(ram), is_rung, runs)?,
        16 => {
            let mut pile = higher(higher(higher(higher(higher(ram)))));
            play(heap, &mut pile, is_rung, runs)?
        }
        _ => bail!("the heights are 1, 4 and 16"),
    };
    let registers = &end.read_out.registers;
    let pc = u16::from_le_bytes([registers[4], registers[5]]);
    print!(rt;
        "{:8} {height:2} {:11} steps, PC {pc:04X}, R40 on",
        workload.name, end.steps
    )?;
    for register in &registers[32..40] {
        print!(rt; " {register:02X}")?;
    }
    println!(rt; "")?;
    Ok(())
}

fn show_all(rt: &HostRuntime) -> anyhow::Result<()> {
    for workload in WORKLOADS {
        for height in HEIGHTS {
            show(rt, workload, height, 1)?;
        }
    }
    Ok(())
}

fn main(rt: HostRuntime) -> anyhow::Result<()> {
    let mut arguments = env::args(&rt)?.skip(1);
    let Some(name) = arguments.next() else {
        return show_all(&rt);
    };
    let workload = WORKLOADS
        .iter()
        .find(|workload| workload.name == name.as_str());
    let height = arguments.next().and_then(|word| word.parse::<u8>().ok());
    let runs = arguments.next().and_then(|word| word.parse::<u32>().ok());
    let (Some(workload), Some(height), Some(runs), None) = (
        workload,
        height,
        runs,
        arguments.next(),
    ) else {
        bail!("usage: speed [WORKLOAD HEIGHT RUNS]");
    };
    show(&rt, workload, height, runs)
}
