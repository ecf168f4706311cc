// The edges of each layer.
use crate::buses::{check, ram, refused};
use crate::same;
use bus::{Bus, BusRefusal, Cause};
use layers::{Guard, Shadow, Split};
use std::test::Fail;

const LOCKED: Result<(), BusRefusal> = Err(BusRefusal {
    cause: Cause::Guarded,
    depth: 0,
});

const OUTSIDE: Result<(), BusRefusal> = Err(BusRefusal {
    cause: Cause::OutsideShadow,
    depth: 0,
});

// First, last, an address, and what a store to it gets. With first above last nothing is locked.
#[test]
fn guards(rt: HostRuntime) -> Result<(), Fail> {
    for (first, last, address, store) in [
        (0, 255, 0, LOCKED),
        (0, 255, 254, LOCKED),
        (0, 255, 255, LOCKED),
        (0, 255, 256, Ok(())),
        (255, 255, 254, Ok(())),
        (255, 255, 255, LOCKED),
        (255, 255, 256, Ok(())),
        (256, 255, 255, Ok(())),
        (256, 255, 256, Ok(())),
        (65535, 0, 0, Ok(())),
        (65535, 0, 65535, Ok(())),
        (65535, 65535, 65534, Ok(())),
        (65535, 65535, 65535, LOCKED),
        (0, 65535, 32768, LOCKED),
    ] {
        let below = ram(&rt, 0, 65_536, 7)?;
        let mut guard = Guard { first, last, below };
        check(&rt, &mut guard, address, Ok(7), store);
    }
    Ok(())
}

// A locked address is refused without asking below, also where there is no byte.
#[test]
fn a_guard_over_nothing(rt: HostRuntime) -> Result<(), Fail> {
    let mut guard = Guard {
        first: 10,
        last: 20,
        below: ram(&rt, 0, 0, 7)?,
    };
    let no_byte = refused(Cause::NoByte, 1);
    check(&rt, &mut guard, 10, Err(no_byte), LOCKED);
    check(&rt, &mut guard, 21, Err(no_byte), Err(no_byte));
    Ok(())
}

// The bound, an address, and the byte that is read there: ones on the bus below the bound, twos on the other.
#[test]
fn splits(rt: HostRuntime) -> Result<(), Fail> {
    for (at, address, byte) in [
        (32768, 0, 1),
        (32768, 32767, 1),
        (32768, 32768, 2),
        (32768, 65535, 2),
        (0, 0, 2),
        (1, 0, 1),
        (1, 1, 2),
        (65535, 65534, 1),
        (65535, 65535, 2),
    ] {
        let low = ram(&rt, 0, 65_536, 1)?;
        let high = ram(&rt, 0, 65_536, 2)?;
        let mut split = Split { at, low, high };
        check(&rt, &mut split, address, Ok(byte), Ok(()));
        let other = if byte == 1 {
            split.high.read(address)
        } else {
            split.low.read(address)
        };
        same(&rt, ("other", address), other, Ok(3 - byte));
    }
    Ok(())
}

// A page, an address, and what a store to it gets. The bus below keeps its byte.
#[test]
fn shadows(rt: HostRuntime) -> Result<(), Fail> {
    for (page, address, store) in [
        (0, 0, Ok(())),
        (0, 255, Ok(())),
        (0, 256, OUTSIDE),
        (0, 65535, OUTSIDE),
        (1, 0, OUTSIDE),
        (1, 255, OUTSIDE),
        (1, 256, Ok(())),
        (1, 511, Ok(())),
        (1, 512, OUTSIDE),
        (127, 32767, Ok(())),
        (127, 32768, OUTSIDE),
        (255, 65279, OUTSIDE),
        (255, 65280, Ok(())),
        (255, 65535, Ok(())),
        (255, 0, OUTSIDE),
    ] {
        let mut shadow = Shadow::new(page, ram(&rt, 0, 65_536, 7)?);
        check(&rt, &mut shadow, address, Ok(7), store);
        let below = shadow.into_below();
        same(&rt, ("below", address), below.read(address), Ok(7));
    }
    Ok(())
}

// In its page a shadow takes no byte where the bus below has none.
#[test]
fn a_shadow_past_the_bytes(rt: HostRuntime) -> Result<(), Fail> {
    let mut shadow = Shadow::new(1, ram(&rt, 0, 300, 7)?);
    let no_byte = refused(Cause::NoByte, 1);
    check(&rt, &mut shadow, 299, Ok(7), Ok(()));
    check(&rt, &mut shadow, 300, Err(no_byte), Err(no_byte));
    check(&rt, &mut shadow, 512, Err(no_byte), OUTSIDE);
    Ok(())
}
