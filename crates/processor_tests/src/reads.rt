// Reads across address 65,535, a refused one, and the stained address told.
use crate::same;
use bus::{Bus, BusRefusal, Cause, Ram};
use reading::{BusReader, Fault, is_stained};
use std::process::Abort;
use std::test::Fail;

// Sevens, but a one at address 0.
fn ram(rt: &(impl Abort + AllocGlobal), size: usize) -> Result<Ram, Fail> {
    let bytes = vec![in rt.alloc(); 7u8; size]?;
    let mut ram = Ram { base: 0, bytes };
    same(rt, "store", ram.store(0, 1), Ok(()));
    Ok(ram)
}

#[test]
fn across_the_last_address(rt: HostRuntime) -> Result<(), Fail> {
    let ram = ram(&rt, 65_536)?;
    let mut reader = BusReader::new(&ram, &[]);
    let mut row = [0; 3];
    same(&rt, "pair", reader.pair(65_535), Ok(0x0107));
    same(&rt, "row", reader.row(65_535, &mut row), Ok(()));
    same(&rt, "bytes", row, [7, 1, 7]);
    same(&rt, "told", reader.told, None);
    Ok(())
}

// The row keeps what came before the refusal, which names its address.
#[test]
fn refused(rt: HostRuntime) -> Result<(), Fail> {
    let ram = ram(&rt, 10)?;
    let mut row = [0; 3];
    let refusal = BusRefusal::here(Cause::NoByte);
    let fault = Fault::Bus {
        address: 10,
        refusal,
    };
    same(
        &rt,
        "refusal",
        BusReader::new(&ram, &[]).row(8, &mut row),
        Err(fault),
    );
    same(&rt, "number", fault.number(), 4);
    same(&rt, "bytes", row, [7, 7, 0]);
    Ok(())
}

// Stores from 8 on: two would be taken, the third not; one at 65,535 is not, and so 0 is not asked after it.
#[test]
fn inquired(rt: HostRuntime) -> Result<(), Fail> {
    let ram = ram(&rt, 10)?;
    let reader = BusReader::new(&ram, &[]);
    let refused = |address| {
        Err(Fault::Bus {
            address,
            refusal: BusRefusal::here(Cause::NoByte),
        })
    };
    same(&rt, "8 and 9", reader.inquire(8, 2), Ok(()));
    same(&rt, "8 to 10", reader.inquire(8, 3), refused(10));
    same(
        &rt,
        "65,535 and 0",
        reader.inquire(65_535, 2),
        refused(65_535),
    );
    same(&rt, "no address", reader.inquire(65_535, 0), Ok(()));
    Ok(())
}

// Bit 3 of byte 1 is the stain of address 11. The first one told stays told.
#[test]
fn stained(rt: HostRuntime) -> Result<(), Fail> {
    let ram = ram(&rt, 20)?;
    let sheet = [0, 0b0001_1000, 0];
    same(&rt, "stain of 11", is_stained(&sheet, 11), true);
    same(&rt, "stain of 10", is_stained(&sheet, 10), false);
    let mut reader = BusReader::new(&ram, &sheet);
    same(&rt, "byte of 10", reader.byte(10), Ok(7));
    same(&rt, "told after 10", reader.told, None);
    same(&rt, "pair of 11", reader.pair(11), Ok(0x0707));
    same(&rt, "told after 11", reader.told, Some(11));
    same(&rt, "byte of 12", reader.byte(12), Ok(7));
    same(&rt, "told after 12", reader.told, Some(11));
    Ok(())
}
