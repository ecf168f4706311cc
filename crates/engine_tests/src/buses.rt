// Buses and piles.
mod depths;
mod edges;
mod ends;
mod three_high;

use crate::same;
use bus::{Bus, BusRefusal, Cause, Ram};
use std::process::Abort;
use std::test::Fail;

fn refused(cause: Cause, depth: u8) -> BusRefusal {
    BusRefusal { cause, depth }
}

// RAM of one byte again and again.
fn ram(rt: &impl AllocGlobal, base: u16, size: usize, byte: u8) -> Result<Ram, Fail> {
    let bytes = vec![in rt.alloc(); byte; size]?;
    Ok(Ram { base, bytes })
}

// What a read of the address gives, and an inquiry and a store get. A byte that is taken is read back; a refused store leaves
// what is read.
fn check<B: Bus>(
    rt: &impl Abort,
    bus: &mut B,
    address: u16,
    read: Result<u8, BusRefusal>,
    store: Result<(), BusRefusal>,
) {
    same(rt, ("read", address), bus.read(address), read);
    same(rt, ("inquiry", address), bus.inquire(address), store);
    same(rt, ("second read", address), bus.read(address), read);
    same(rt, ("store", address), bus.store(address, 0xA5), store);
    let now = store.and(Ok(0xA5)).or(read);
    same(rt, ("read after a store", address), bus.read(address), now);
}
