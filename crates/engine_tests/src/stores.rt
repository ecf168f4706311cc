// Bytes stored upward, with the stains of their addresses.
use crate::same;
use bus::{Bus, BusRefusal, Cause, Ram};
use reading::is_stained;
use stains::make_stores;
use std::process::Abort;
use std::test::Fail;

fn ram(rt: &(impl Abort + AllocGlobal), size: usize) -> Result<Ram, Fail> {
    let bytes = vec![in rt.alloc(); 0u8; size]?;
    Ok(Ram { base: 0, bytes })
}

// After 65,535 comes 0. The addresses before and after the four keep what they had.
#[test]
fn upward_across_the_last_address(rt: HostRuntime) -> Result<(), Fail> {
    let mut ram = ram(&rt, 65_536)?;
    let mut sheet = [0u8; 8192];
    make_stores(&mut ram, &mut sheet, true, 65_534, &[1, 2, 3, 4]);
    let cases = [
        (65_533u16, 0u8, false),
        (65_534, 1, true),
        (65_535, 2, true),
        (0, 3, true),
        (1, 4, true),
        (2, 0, false),
    ];
    for (address, byte, stain) in cases {
        same(&rt, address, ram.read(address), Ok(byte));
        same(&rt, address, is_stained(&sheet, address), stain);
    }
    Ok(())
}

// Stores that clear stains clear those of their own addresses.
#[test]
fn clears_its_own(rt: HostRuntime) -> Result<(), Fail> {
    let mut ram = ram(&rt, 65_536)?;
    let mut sheet = [255u8; 8192];
    make_stores(&mut ram, &mut sheet, false, 7, &[5, 6]);
    let cases = [
        (6u16, 0u8, true),
        (7, 5, false),
        (8, 6, false),
        (9, 0, true),
    ];
    for (address, byte, stain) in cases {
        same(&rt, address, ram.read(address), Ok(byte));
        same(&rt, address, is_stained(&sheet, address), stain);
    }
    Ok(())
}

// A store that the bus refuses leaves the stain as it was.
#[test]
fn refused_stores_mark_nothing(rt: HostRuntime) -> Result<(), Fail> {
    let mut ram = ram(&rt, 10)?;
    let mut sheet = [0u8; 8192];
    make_stores(&mut ram, &mut sheet, true, 9, &[5, 6]);
    same(&rt, "the byte that is taken", ram.read(9), Ok(5));
    same(
        &rt,
        "the byte that is refused",
        ram.read(10),
        Err(BusRefusal::here(Cause::NoByte)),
    );
    same(&rt, "its stain", is_stained(&sheet, 9), true);
    same(&rt, "no stain", is_stained(&sheet, 10), false);
    Ok(())
}
