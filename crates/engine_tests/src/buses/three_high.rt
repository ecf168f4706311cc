// Three layers, of every kind over every kind, over RAM, ROM and the line board.
use crate::buses::{check, ram, refused};
use crate::same;
use bus::{Bus, BusRefusal, Cause, LineBoard, Ram, Rom, Trunk};
use layers::{Guard, Shadow, Split};
use piles::Pile;
use std::process::Abort;
use std::test::Fail;

// A bus for the bottom of a pile, over sixteen bytes from 504 on: the page ends among them.
trait Bottom: Bus + Drop + Sized {
    // Why it takes no store, if it takes none.
    const CAUSE: Option<Cause>;

    fn new(rt: &impl AllocGlobal) -> Result<Self, Fail>;
}

const BASE: u16 = 504;

const BYTES: &[u8; 16] = b"0123456789abcdef";

impl Bottom for Ram {
    const CAUSE: Option<Cause> = None;

    fn new(rt: &impl AllocGlobal) -> Result<Ram, Fail> {
        let bytes = BYTES.to_vec(rt.alloc())?;
        Ok(Ram { base: BASE, bytes })
    }
}

impl Bottom for Rom<'static> {
    const CAUSE: Option<Cause> = Some(Cause::RomStore);

    fn new(_rt: &impl AllocGlobal) -> Result<Rom<'static>, Fail> {
        let bytes = BYTES;
        Ok(Rom { base: BASE, bytes })
    }
}

impl Bottom for LineBoard {
    const CAUSE: Option<Cause> = None;

    fn new(_rt: &impl AllocGlobal) -> Result<LineBoard, Fail> {
        Ok(LineBoard::new(BASE, BYTES.map(Trunk::from)))
    }
}

// A guard of 504 and 505; a split at 516, with another bottom from there on; a shadow of 256 to 511.
#[derive(Clone, Copy, PartialEq, Eq, Debug)]
enum Layer {
    Guard,
    Split,
    Shadow,
}

const LAYERS: [Layer; 3] = [Layer::Guard, Layer::Split, Layer::Shadow];

// What a read gives, by the layers from the top one on: how many it passes is counted here.
fn read_by(layers: &[Layer], address: u16) -> Result<u8, BusRefusal> {
    let passed = layers
        .iter()
        .position(|layer| *layer == Layer::Split && address >= 516)
        .map_or(layers.len(), |place| place + 1);
    address
        .checked_sub(BASE)
        .and_then(|place| BYTES.get(usize::from(place)).copied())
        .ok_or(refused(Cause::NoByte, (passed % 256) as u8))
}

// What a store gets, likewise. The bottom stores where it can be read, or refuses there for a cause of its own.
fn store_by(layers: &[Layer], address: u16, cause: Option<Cause>) -> Result<(), BusRefusal> {
    let mut passed = 0u8;
    for layer in layers {
        match layer {
            Layer::Guard if address == 504 || address == 505 => {
                return Err(refused(Cause::Guarded, passed));
            }
            Layer::Shadow if address / 256 != 1 => {
                return Err(refused(Cause::OutsideShadow, passed));
            }
            Layer::Shadow => return read_by(layers, address).map(|_| ()),
            _ => {}
        }
        passed = passed.saturating_add(1);
        if *layer == Layer::Split && address >= 516 {
            break;
        }
    }
    read_by(layers, address)?;
    cause.map_or(Ok(()), |cause| Err(refused(cause, passed)))
}

fn over<B: Bottom>(rt: &impl AllocGlobal, layer: Layer, below: Pile<B>) -> Result<Pile<B>, Fail> {
    Ok(match layer {
        Layer::Guard => below.guarded(rt.alloc(), 504, 505)?,
        Layer::Split => below.beside(rt.alloc(), 516, Pile::new(B::new(rt)?))?,
        Layer::Shadow => below.shadowed(rt.alloc(), 1)?,
    })
}

fn pile<B: Bottom>(rt: &impl AllocGlobal, layers: &[Layer]) -> Result<Pile<B>, Fail> {
    let mut pile = Pile::new(B::new(rt)?);
    for layer in layers.iter().rev() {
        pile = over(rt, *layer, pile)?;
    }
    Ok(pile)
}

fn every_pile<B: Bottom>(rt: &(impl Abort + AllocGlobal)) -> Result<(), Fail> {
    for top in LAYERS {
        for middle in LAYERS {
            for low in LAYERS {
                let layers = [top, middle, low];
                let mut pile: Pile<B> = pile(rt, &layers)?;
                for address in [503, 504, 505, 506, 511, 512, 515, 516, 519, 520] {
                    let read = read_by(&layers, address);
                    let store = store_by(&layers, address, B::CAUSE);
                    check(rt, &mut pile, address, read, store);
                }
            }
        }
    }
    Ok(())
}

#[test]
fn every_kind_over_every_kind(rt: HostRuntime) -> Result<(), Fail> {
    every_pile::<Ram>(&rt)?;
    every_pile::<Rom>(&rt)?;
    every_pile::<LineBoard>(&rt)
}

// Layers by their types: a guard over a split, over a shadow and a ROM.
#[test]
fn by_types(rt: HostRuntime) -> Result<(), Fail> {
    let low = Shadow::new(1, <Ram as Bottom>::new(&rt)?);
    let high = Rom {
        base: 516,
        bytes: BYTES,
    };
    let below = Split { at: 516, low, high };
    let mut bus = Guard {
        first: 504,
        last: 505,
        below,
    };
    for (address, read, store) in [
        (
            503,
            Err(refused(Cause::NoByte, 3)),
            Err(refused(Cause::NoByte, 3)),
        ),
        (505, Ok(b'1'), Err(refused(Cause::Guarded, 0))),
        (506, Ok(b'2'), Ok(())),
        (512, Ok(b'8'), Err(refused(Cause::OutsideShadow, 2))),
        (516, Ok(b'0'), Err(refused(Cause::RomStore, 2))),
        (
            532,
            Err(refused(Cause::NoByte, 2)),
            Err(refused(Cause::NoByte, 2)),
        ),
    ] {
        check(&rt, &mut bus, address, read, store);
    }
    let ram = bus.below.low.into_below();
    same(&rt, 506, ram.read(506), Ok(b'2'));
    Ok(())
}

const LOCKED: BusRefusal = BusRefusal {
    cause: Cause::Guarded,
    depth: 0,
};

const OUTSIDE: BusRefusal = BusRefusal {
    cause: Cause::OutsideShadow,
    depth: 2,
};

const PAST_RAM: BusRefusal = BusRefusal {
    cause: Cause::NoByte,
    depth: 3,
};

const IN_ROM: BusRefusal = BusRefusal {
    cause: Cause::RomStore,
    depth: 2,
};

const PAST_ROM: BusRefusal = BusRefusal {
    cause: Cause::NoByte,
    depth: 2,
};

// What a store of 1 gets.
const STORED: [(u16, Result<(), BusRefusal>); 7] = [
    (261, Ok(())),
    (256, Err(LOCKED)),
    (260, Err(LOCKED)),
    (0, Err(OUTSIDE)),
    (300, Err(PAST_RAM)),
    (1024, Err(IN_ROM)),
    (1027, Err(PAST_ROM)),
];

// What is read after these stores.
const READ: [(u16, Result<u8, BusRefusal>); 6] = [
    (261, Ok(1)),
    (262, Ok(9)),
    (1025, Ok(b'o')),
    (260, Ok(9)),
    (300, Err(PAST_RAM)),
    (65535, Err(PAST_ROM)),
];

// The same kinds, over 300 nines of RAM, of which those from 256 on are shadowed; from 1,024 on ROM; 256 to 260 locked.
#[test]
fn by_types_over_more(rt: HostRuntime) -> Result<(), Fail> {
    let low = Shadow::new(1, ram(&rt, 0, 300, 9)?);
    let high = Rom {
        base: 1024,
        bytes: b"rom",
    };
    let at = 1024;
    let mut bus = Guard {
        first: 256,
        last: 260,
        below: Split { at, low, high },
    };
    for (address, store) in STORED {
        same(&rt, ("store", address), bus.store(address, 1), store);
    }
    for (address, read) in READ {
        same(&rt, ("read", address), bus.read(address), read);
    }
    let ram = bus.below.low.into_below();
    same(&rt, "below", ram.read(261), Ok(9));
    Ok(())
}
