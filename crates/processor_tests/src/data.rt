// Loads, operations and stores.
use crate::same;
use crate::setup::{carry, processor, ram};
use registers::Cpu;
use std::process::Abort;
use std::test::Fail;

// What an instruction changes: its length, the pair that it moves, and two registers from one on, over that.
fn changed(before: Cpu, length: u8, pair: (u8, u16), registers: (u8, [u8; 2])) -> Cpu {
    let mut cpu = before;
    cpu.set_pair(4, 0x0100 + u16::from(length));
    cpu.set_pair(pair.0, pair.1);
    cpu.write_row(registers.0, &registers.1);
    cpu
}

// Where no pair is moved: R20-R21 as it was.
const STILL: (u8, u16) = (0o20, 0x40);

// The code, ARP, DRP, the length, the pair, the registers, and the status, which has from bit 0 on DCM, CY, OVF, LSB, MSB, Z, LDZ,
// RDZ.
type OfTheData = ([u8; 3], u8, u8, u8, (u8, u16), (u8, [u8; 2]), u8);

// Loads, stores to registers, and operations.
const OF_THE_DATA: [OfTheData; 25] = [
    // LD of a register, of two, of one across R77, and of two that are the program counter.
    ([0xA0, 0, 0], 0o32, 0o30, 1, STILL, (0o30, [3, 2]), 0x48),
    ([0xA1, 0, 0], 0o32, 0o30, 1, STILL, (0o30, [3, 4]), 0x48),
    ([0xA1, 0, 0], 0o32, 0o77, 1, STILL, (0o77, [3, 0xC5]), 0x48),
    ([0xA1, 0, 0], 0o20, 0o04, 1, STILL, (0o04, [0x40, 0]), 0xC0),
    // LD immediate, register direct and indirect, literal direct and indirect, indexed direct and indirect.
    ([0xA8, 0x9A, 0], 0, 0o30, 2, STILL, (0o30, [0x9A, 2]), 0x10),
    ([0xA4, 0, 0], 0o20, 0o30, 1, STILL, (0o30, [0x11, 2]), 0x08),
    ([0xAC, 0, 0], 0o22, 0o30, 1, STILL, (0o30, [0x11, 2]), 0x08),
    ([0xB0, 0x42, 0], 0, 0o30, 3, STILL, (0o30, [0x33, 2]), 0x08),
    ([0xB8, 0x50, 0], 0, 0o30, 3, STILL, (0o30, [0x11, 2]), 0x08),
    (
        [0xB4, 2, 0],
        0o20,
        0o30,
        3,
        (2, 0x42),
        (0o30, [0x33, 2]),
        0x08,
    ),
    (
        [0xBC, 16, 0],
        0o20,
        0o30,
        3,
        (2, 0x50),
        (0o30, [0x11, 2]),
        0x08,
    ),
    // PO+ and PO-, direct and indirect, and PO+ into the pair that it raises.
    (
        [0xE1, 0, 0],
        0o20,
        0o30,
        1,
        (0o20, 0x42),
        (0o30, [0x11, 0x22]),
        0x08,
    ),
    (
        [0xE2, 0, 0],
        0o20,
        0o30,
        1,
        (0o20, 0x3F),
        (0o30, [0, 2]),
        0xE0,
    ),
    (
        [0xE8, 0, 0],
        0o22,
        0o30,
        1,
        (0o22, 0x52),
        (0o30, [0x11, 2]),
        0x08,
    ),
    (
        [0xEA, 0, 0],
        0o22,
        0o30,
        1,
        (0o22, 0x4E),
        (0o30, [0, 2]),
        0xE0,
    ),
    (
        [0xE0, 0, 0],
        0o20,
        0o20,
        1,
        (0o20, 0x41),
        (0o20, [0x11, 0]),
        0x08,
    ),
    // ST to a register.
    ([0xA2, 0, 0], 0o34, 0o30, 1, STILL, (0o34, [1, 6]), 0x48),
    // LL, IC, TS, CL.
    ([0x85, 0, 0], 0, 0o30, 1, STILL, (0o30, [2, 4]), 0x40),
    ([0x88, 0, 0], 0, 0o30, 1, STILL, (0o30, [2, 2]), 0x40),
    ([0x90, 0, 0], 0, 0o30, 1, STILL, (0o30, [1, 2]), 0x48),
    ([0x92, 0, 0], 0, 0o30, 1, STILL, (0o30, [0, 2]), 0xE0),
    // AD and SB of a register, CM immediate, AN literal direct.
    ([0xC2, 0, 0], 0o32, 0o30, 1, STILL, (0o30, [4, 2]), 0x40),
    (
        [0xC5, 0, 0],
        0o32,
        0o30,
        1,
        STILL,
        (0o30, [0xFE, 0xFD]),
        0x10,
    ),
    ([0xC8, 1, 0], 0, 0o30, 2, STILL, (0o30, [1, 2]), 0xE2),
    ([0xD7, 0x40, 0], 0, 0o30, 3, STILL, (0o30, [1, 2]), 0x48),
];

fn try_of_the_data(rt: &(impl Abort + AllocGlobal), case: &OfTheData) -> Result<(), Fail> {
    let (code, arp, drp, length, pair, registers, status) = *case;
    let ram = ram(rt, code)?;
    let before = processor(arp, drp);
    let mut cpu = before;
    let done = carry(rt, &ram, &mut cpu);
    let mut want = changed(before, length, pair, registers);
    want.status = cpu.status;
    same(rt, code, (cpu, u8::from(cpu.status)), (want, status));
    same(
        rt,
        code,
        (done.length, done.bytes.len(), done.returns),
        (length, 0, false),
    );
    Ok(())
}

#[test]
fn of_the_data(rt: HostRuntime) -> Result<(), Fail> {
    for case in &OF_THE_DATA {
        try_of_the_data(&rt, case)?;
    }
    Ok(())
}

// The code, ARP, DRP, the length, the pair that is moved, and the address with what is stored there.
type ToMemory = ([u8; 3], u8, u8, u8, (u8, u16), (u16, &'static [u8]));

// Stores to memory.
const TO_MEMORY: [ToMemory; 11] = [
    // ST register direct and indirect, immediate over its own bytes, literal direct and indirect.
    ([0xA7, 0, 0], 0o20, 0o30, 1, STILL, (0x40, &[1, 2])),
    ([0xAF, 0, 0], 0o22, 0o30, 1, STILL, (0x40, &[1, 2])),
    ([0xAB, 9, 9], 0, 0o30, 3, STILL, (0x101, &[1, 2])),
    ([0xB3, 0x60, 1], 0, 0o30, 3, STILL, (0x160, &[1, 2])),
    ([0xBB, 0x50, 0], 0, 0o30, 3, STILL, (0x40, &[1, 2])),
    // Indexed direct, of the pair that it writes as it was before, and indexed indirect.
    ([0xB7, 8, 0], 0o20, 2, 3, (2, 0x48), (0x48, &[7, 8])),
    ([0xBF, 16, 0], 0o20, 0o30, 3, (2, 0x50), (0x40, &[1, 2])),
    // PU+ and PU-, the latter of the pair that it lowers as it was before; PU+ and PU- indirect.
    ([0xE5, 0, 0], 0o20, 0o30, 1, (0o20, 0x42), (0x40, &[1, 2])),
    (
        [0xE7, 0, 0],
        0o20,
        0o20,
        1,
        (0o20, 0x3E),
        (0x3E, &[0x40, 0]),
    ),
    ([0xED, 0, 0], 0o22, 0o30, 1, (0o22, 0x52), (0x40, &[1, 2])),
    ([0xEF, 0, 0], 0o22, 0o30, 1, (0o22, 0x4E), (0, &[1, 2])),
];

fn try_to_memory(rt: &(impl Abort + AllocGlobal), case: &ToMemory) -> Result<(), Fail> {
    let (code, arp, drp, length, pair, (at, bytes)) = *case;
    let ram = ram(rt, code)?;
    let before = processor(arp, drp);
    let mut cpu = before;
    let done = carry(rt, &ram, &mut cpu);
    let mut want = changed(before, length, pair, (0o40, [0, 0]));
    want.status = cpu.status;
    same(rt, code, cpu, want);
    let stored = done.bytes.bytes();
    same(
        rt,
        code,
        (done.at, &stored[..done.bytes.len()], done.length),
        (at, bytes, length),
    );
    Ok(())
}

#[test]
fn to_memory(rt: HostRuntime) -> Result<(), Fail> {
    for case in &TO_MEMORY {
        try_to_memory(&rt, case)?;
    }
    Ok(())
}
