// The first and last address of each kind of bus, and one past each end.
use crate::buses::{check, ram, refused};
use crate::same;
use bus::{Bus, BusRefusal, Cause, LineBoard, Ram, Rom, Trunk};
use byte_rows::PastEnd;
use std::process::Abort;
use std::test::Fail;

const BYTES: &[u8; 16] = b"0123456789abcdef";

// Where sixteen bytes begin, some addresses that have one of them, and some that have none. Bytes past 65,535 are not reached.
const ENDS: [(u16, &[(u16, u8)], &[u16]); 5] = [
    (0, &[(0, b'0'), (1, b'1'), (15, b'f')], &[16, 256, 65535]),
    (100, &[(100, b'0'), (115, b'f')], &[0, 99, 116, 65535]),
    (65520, &[(65520, b'0'), (65535, b'f')], &[65519, 0, 15]),
    (
        65530,
        &[(65530, b'0'), (65535, b'5')],
        &[65529, 0, 5, 9, 10],
    ),
    (65535, &[(65535, b'0')], &[65534, 0, 1, 14]),
];

const NO_BYTE: BusRefusal = BusRefusal {
    cause: Cause::NoByte,
    depth: 0,
};

// What is stored in ten fives from 65,530 on, and what is read of them then.
const STORED_AT_THE_TOP: [(u16, u8, Result<(), BusRefusal>); 3] = [
    (65529, 1, Err(NO_BYTE)),
    (65530, 1, Ok(())),
    (65535, 2, Ok(())),
];

const READ_AT_THE_TOP: [(u16, Result<u8, BusRefusal>); 5] = [
    (65529, Err(NO_BYTE)),
    (65530, Ok(1)),
    (65531, Ok(5)),
    (65535, Ok(2)),
    (0, Err(NO_BYTE)),
];

fn at_the_ends<B: Bus>(
    rt: &impl Abort,
    bus: &mut B,
    with: &[(u16, u8)],
    without: &[u16],
    store: Result<(), BusRefusal>,
) {
    for (address, byte) in with.iter().copied() {
        check(rt, bus, address, Ok(byte), store);
    }
    let no_byte = refused(Cause::NoByte, 0);
    for address in without.iter().copied() {
        check(rt, bus, address, Err(no_byte), Err(no_byte));
    }
}

#[test]
fn sixteen_bytes(rt: HostRuntime) -> Result<(), Fail> {
    for (base, with, without) in ENDS {
        let bytes = BYTES.to_vec(rt.alloc())?;
        let mut ram = Ram { base, bytes };
        at_the_ends(&rt, &mut ram, with, without, Ok(()));
        let bytes = BYTES;
        let mut rom = Rom { base, bytes };
        let rom_store = refused(Cause::RomStore, 0);
        at_the_ends(&rt, &mut rom, with, without, Err(rom_store));
        let mut board = LineBoard::new(base, BYTES.map(Trunk::from));
        at_the_ends(&rt, &mut board, with, without, Ok(()));
    }
    Ok(())
}

// RAM without a byte, and RAM at all addresses.
#[test]
fn none_and_all(rt: HostRuntime) -> Result<(), Fail> {
    let mut none = ram(&rt, 0, 0, 7)?;
    at_the_ends(&rt, &mut none, &[], &[0, 1, 65535], Ok(()));
    let mut all = ram(&rt, 0, 65_536, 7)?;
    at_the_ends(&rt, &mut all, &[(0, 7), (65535, 7)], &[], Ok(()));
    Ok(())
}

// RAM and ROM of two bytes.
#[test]
fn two_bytes(rt: HostRuntime) -> Result<(), Fail> {
    let mut ram = ram(&rt, 0, 2, 5)?;
    at_the_ends(&rt, &mut ram, &[(0, 5), (1, 5)], &[2, 65535], Ok(()));
    let mut rom = Rom {
        base: 100,
        bytes: b"xy",
    };
    let rom_store = refused(Cause::RomStore, 0);
    at_the_ends(
        &rt,
        &mut rom,
        &[(100, b'x'), (101, b'y')],
        &[99, 102],
        Err(rom_store),
    );
    Ok(())
}

// What is stored at both ends leaves the bytes between.
#[test]
fn ram_at_the_top(rt: HostRuntime) -> Result<(), Fail> {
    let mut ram = ram(&rt, 65530, 10, 5)?;
    for (address, byte, store) in STORED_AT_THE_TOP {
        same(&rt, ("store", address), ram.store(address, byte), store);
    }
    for (address, read) in READ_AT_THE_TOP {
        same(&rt, ("read", address), ram.read(address), read);
    }
    Ok(())
}

// Ten bytes from 65,530 on, of which four are not reached: a load goes in whole or not at all.
#[test]
fn loads(rt: HostRuntime) -> Result<(), Fail> {
    let mut ram = ram(&rt, 65530, 10, 7)?;
    same(&rt, "below", ram.load(65529, b"a"), Err(PastEnd));
    same(&rt, "past the end", ram.load(65534, b"abc"), Err(PastEnd));
    same(&rt, "as before", ram.read(65534), Ok(7));
    same(&rt, "whole", ram.load(65534, b"ab"), Ok(()));
    same(&rt, "before it", ram.read(65533), Ok(7));
    same(&rt, "its last byte", ram.read(65535), Ok(b'b'));
    Ok(())
}

#[test]
fn trunks(rt: HostRuntime) {
    let mut board = LineBoard::new(32768, [Trunk::from(0); 16]);
    same(&rt, "store", board.store(32768, 0x3A), Ok(()));
    same(&rt, "stored", board.trunk(0), Trunk::new(3, 10));
    same(
        &rt,
        "rewritten",
        board.rewrite(15, Trunk::from(0xF1)),
        Some(Trunk::from(0)),
    );
    for (address, read) in [
        (32783, Ok(0xF1)),
        (32784, Err(NO_BYTE)),
        (32767, Err(NO_BYTE)),
    ] {
        same(&rt, ("read", address), board.read(address), read);
    }
    same(&rt, "no trunk", board.trunk(16), None);
    same(
        &rt,
        "none rewritten",
        board.rewrite(16, Trunk::from(1)),
        None,
    );
    same(&rt, "no such class", Trunk::new(16, 0), None);
    same(&rt, "no such party", Trunk::new(0, 16), None);
}
