// Sheets of the wrong size, and stains set and cleared.
use crate::exchange::{Exchange, VECTOR, begun};
use crate::same;
use noninterference::{Refusal, StepFault};
use std::process::Abort;
use std::test::Fail;

fn with_sheet(rt: &(impl Abort + AllocGlobal), size: usize) -> Result<Exchange, Fail> {
    let mut exchange = begun(rt, &[0xD6], &[0x9E], 1024)?;
    exchange.sheet = vec![in rt.alloc(); 0u8; size]?;
    Ok(exchange)
}

fn refuses_all(rt: &impl Abort, exchange: &mut Exchange) {
    let refusal = Refusal {
        place: 256,
        fault: StepFault::Sheet,
        told: None,
    };
    same(rt, "step", exchange.step().err(), Some(refusal));
    same(rt, "ring", exchange.ring(VECTOR + 1).err(), Some(refusal));
    same(rt, "run", exchange.run(0).err(), Some(refusal));
}

// Every call is refused first where the sheet has another size than 8,192 bytes, and changes nothing.
#[test]
fn wrong_size(rt: HostRuntime) -> Result<(), Fail> {
    for size in [0, 8191, 8193] {
        let mut exchange = with_sheet(&rt, size)?;
        refuses_all(&rt, &mut exchange);
        same(&rt, size, &exchange, &with_sheet(&rt, size)?);
    }
    same(&rt, "number", StepFault::Sheet.number(), 1);
    Ok(())
}

// The address that a step tells, and the stains of 1024 to 1031 after it.
fn try_step(
    rt: &impl Abort,
    exchange: &mut Exchange,
    told: Option<u16>,
    stains: u8,
) -> Result<(), Fail> {
    let answer = exchange.step()?;
    same(rt, "told", answer.told, told);
    same(rt, "stains", exchange.sheet.get(128), Some(&stains));
    Ok(())
}

// The ring stains 1024 and 1025, where it stored. Reading 1025 after the visit tells it and leaves its stain; a store to it clears
// the stain.
#[test]
fn set_and_cleared(rt: HostRuntime) -> Result<(), Fail> {
    // LDB from 1025, STB to it, LDB from it.
    let program = [0xB0, 0x01, 0x04, 0xB2, 0x01, 0x04, 0xB0, 0x01, 0x04];
    let mut exchange = begun(&rt, &program, &[0x9E], 1024)?;
    exchange.rung(&rt);
    same(
        &rt,
        "stains of the ring",
        exchange.sheet.get(128),
        Some(&0b11),
    );
    for (told, stains) in [(None, 0b11), (Some(1025), 0b11), (None, 0b01), (None, 0b01)] {
        try_step(&rt, &mut exchange, told, stains)?;
    }
    Ok(())
}

// A store of two bytes that is refused at the second clears no stain.
#[test]
fn refused_store(rt: HostRuntime) -> Result<(), Fail> {
    // STM of R0 and R1 to 59,999, the last byte of RAM.
    let mut exchange = begun(&rt, &[0xB3, 0x5F, 0xEA], &[0x9E], 59_998)?;
    exchange.rung(&rt);
    same(&rt, "the visit's step", exchange.step().is_ok(), true);
    same(&rt, "the store", exchange.step().is_ok(), false);
    same(&rt, "stains", exchange.sheet.get(7499), Some(&0b1100_0000));
    Ok(())
}
