// Two rooms ask for an outside line, and a timeout rings between every two instructions of call setup.
#![tactic(auto)]

mod calls;
mod code;

use calls::{Calls, Timeout};
use code::{HANDLERS, Handler};
use noninterference::VisitEnd;

fn show_calls(rt: &HostRuntime, calls: &Calls, alone: &Calls) -> anyhow::Result<()> {
    let [first, second] = calls.lines();
    let [first_bill, second_bill] = calls.bills();
    print!(rt;
        "{:04X}   {first} {second}    {first_bill:02X} {second_bill:02X}  ",
        calls.place
    )?;
    match calls.ended {
        None => print!(rt; "none     ")?,
        Some(VisitEnd::Clean) => print!(rt; "clean    ")?,
        Some(VisitEnd::Marred(mar)) => print!(rt; "mar {:2}   ", mar.number())?,
    }
    match calls.told {
        None => print!(rt; "none   ")?,
        Some(address) => print!(rt; "{address:04X}   ")?,
    }
    println!(rt; "{}", if calls.is_as(alone) { "yes" } else { "no" })?;
    Ok(())
}

// One run for each place.
fn show_handler(rt: &HostRuntime, handler: Handler, alone: &Calls) -> anyhow::Result<()> {
    println!(rt; "\n{}", handler.name)?;
    println!(rt; "place  lines  bills  visit    told   as undisturbed")?;
    let mut shared = 0u32;
    for step in 0..=alone.steps {
        let vector = handler.vector;
        let calls = Calls::make(rt.alloc(), Some(Timeout { step, vector }))?;
        show_calls(rt, &calls, alone)?;
        shared = shared.saturating_add(u32::from(calls.share_a_line()));
    }
    println!(rt; "shared lines: {shared}")?;
    Ok(())
}

fn main(rt: HostRuntime) -> anyhow::Result<()> {
    let alone = Calls::make(rt.alloc(), None)?;
    println!(rt; "undisturbed, {} steps", alone.steps)?;
    println!(rt; "place  lines  bills  visit    told   as undisturbed")?;
    show_calls(&rt, &alone, &alone)?;
    for handler in HANDLERS {
        show_handler(&rt, handler, &alone)?;
    }
    Ok(())
}
