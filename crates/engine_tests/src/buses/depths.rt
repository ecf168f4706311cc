// Each cause through 300 layers: the depth counts them and stops at 255.
use crate::buses::{check, ram, refused};
use crate::same;
use bus::{Bus, Cause, Rom};
use piles::Pile;
use std::process::Abort;
use std::test::Fail;

// What a read of the address and a store to it get below one layer after another. The refusal's detail is the address asked and
// the depth.
fn at_each_depth<B: Bus + Drop>(
    rt: &(impl Abort + AllocGlobal),
    bottom: Pile<B>,
    address: u16,
    read: Result<u8, Cause>,
    cause: Cause,
) -> Result<(), Fail> {
    let mut pile = bottom;
    for layers in 0..=300u16 {
        let depth = layers.min(255) as u8;
        let refusal = refused(cause, depth);
        let read = read.map_err(|cause| refused(cause, depth));
        check(rt, &mut pile, address, read, Err(refusal));
        same(rt, layers, refusal.detail(address), (address, depth));
        pile = pile.guarded(rt.alloc(), 1, 0)?;
    }
    Ok(())
}

#[test]
fn each_cause(rt: HostRuntime) -> Result<(), Fail> {
    let bottom = Pile::new(ram(&rt, 0, 600, 7)?);
    let no_byte = Cause::NoByte;
    at_each_depth(&rt, bottom, 600, Err(no_byte), no_byte)?;
    let rom = Rom {
        base: 0,
        bytes: b"rom",
    };
    at_each_depth(&rt, Pile::new(rom), 2, Ok(b'm'), Cause::RomStore)?;
    let guard = Pile::new(ram(&rt, 0, 600, 7)?).guarded(rt.alloc(), 10, 20)?;
    at_each_depth(&rt, guard, 20, Ok(7), Cause::Guarded)?;
    let shadow = Pile::new(ram(&rt, 0, 600, 7)?).shadowed(rt.alloc(), 1)?;
    at_each_depth(&rt, shadow, 512, Ok(7), Cause::OutsideShadow)
}

// No layer keeps the last byte from being read, nor gives one past it.
#[test]
fn unreadable(rt: HostRuntime) -> Result<(), Fail> {
    let mut pile = Pile::new(ram(&rt, 0, 600, 7)?);
    for layers in 0..300u16 {
        let refusal = refused(Cause::NoByte, layers.min(255) as u8);
        for (address, read) in [(600, Err(refusal)), (599, Ok(7))] {
            same(&rt, (layers, address), pile.read(address), read);
        }
        pile = pile.guarded(rt.alloc(), 1, 0)?;
    }
    Ok(())
}

#[test]
fn numbers(rt: HostRuntime) {
    for (cause, number) in [
        (Cause::NoByte, 4),
        (Cause::RomStore, 5),
        (Cause::Guarded, 6),
        (Cause::OutsideShadow, 7),
    ] {
        same(&rt, cause, refused(cause, 3).number(), number);
    }
}
