// Pointers, modes, E, saves, subroutines and jumps.
use crate::same;
use crate::setup::{carry, processor, ram};
use byte_rows::Row;
use registers::Status;
use std::process::Abort;
use std::test::Fail;

// ARP, DRP, DCM and E after a code; R0 holds C5.
const OF_ONE_BYTE: [(u8, u8, u8, bool, u8); 9] = [
    (0x22, 0o42, 0o30, true, 15),
    (0x01, 0o05, 0o30, true, 15),
    (0x62, 0o20, 0o42, true, 15),
    (0x41, 0o20, 0o05, true, 15),
    (0x98, 0o20, 0o30, false, 15),
    (0x99, 0o20, 0o30, true, 15),
    (0x9B, 0o20, 0o30, true, 14),
    (0x9C, 0o20, 0o30, true, 0),
    (0x9D, 0o20, 0o30, true, 0),
];

fn try_of_one_byte(
    rt: &(impl Abort + AllocGlobal),
    case: &(u8, u8, u8, bool, u8),
) -> Result<(), Fail> {
    let (code, arp, drp, dcm, e) = *case;
    let mut cpu = processor(0o20, 0o30);
    cpu.status.dcm = true;
    cpu.e = 15;
    let mut want = cpu;
    let done = carry(rt, &ram(rt, [code, 0, 0])?, &mut cpu);
    want.set_pair(4, 0x101);
    want.arp = arp % 64;
    want.drp = drp % 64;
    want.status.dcm = dcm;
    want.e = e % 16;
    same(rt, code, (cpu, done.length), (want, 1));
    Ok(())
}

#[test]
fn of_one_byte(rt: HostRuntime) -> Result<(), Fail> {
    for case in &OF_ONE_BYTE {
        try_of_one_byte(&rt, case)?;
    }
    Ok(())
}

// SAD stores the pointers and the status, not E, at the return pointer, and raises it by 3. PAD takes them back.
#[test]
fn saves(rt: HostRuntime) -> Result<(), Fail> {
    let mut cpu = processor(0o12, 0o34);
    cpu.e = 9;
    cpu.status = Status {
        cy: true,
        z: true,
        msb: true,
        rdz: true,
        ..Status::clear()
    };
    let mut want = cpu;
    let mut ram = ram(&rt, [0x9A, 0x9F, 0])?;
    let done = carry(&rt, &ram, &mut cpu);
    want.set_pair(4, 0x101);
    want.set_pair(6, 0x183);
    same(&rt, "SAD", cpu, want);
    same(&rt, "where SAD stores", done.at, 0x180);
    same(
        &rt,
        "what SAD stores",
        done.bytes,
        Row::new([0x4A, 0x9C, 0x0A, 0, 0, 0, 0, 0], 3),
    );
    same(&rt, "load", ram.load(0x180, &[0x4A, 0x9C, 0xFA]), Ok(()));
    cpu.arp = 0;
    cpu.drp = 0;
    cpu.status = Status::clear();
    let _ = carry(&rt, &ram, &mut cpu);
    want.set_pair(4, 0x102);
    want.set_pair(6, 0x180);
    same(&rt, "PAD", cpu, want);
    Ok(())
}

// The code; PC, R2-R3 and the return pointer after it; and what it stores.
type Subroutine = ([u8; 3], u16, u16, u16, &'static [u8]);

// JSB literal and indexed store the address after them; RTN goes to the one below the return pointer.
const SUBROUTINES: [Subroutine; 3] = [
    ([0xCE, 0x34, 0x12], 0x1234, 0x0807, 0x182, &[3, 1]),
    ([0xC6, 0x10, 0x00], 0x0050, 0x0050, 0x182, &[3, 1]),
    ([0x9E, 0x00, 0x00], 0x5678, 0x0807, 0x17E, &[]),
];

fn try_subroutine(rt: &(impl Abort + AllocGlobal), case: &Subroutine) -> Result<(), Fail> {
    let (code, pc, r2, return_pointer, stored) = *case;
    let mut ram = ram(rt, code)?;
    same(rt, "load", ram.load(0x17E, &[0x78, 0x56]), Ok(()));
    let mut cpu = processor(0o20, 0o30);
    let mut want = cpu;
    let done = carry(rt, &ram, &mut cpu);
    want.set_pair(4, pc);
    want.set_pair(2, r2);
    want.set_pair(6, return_pointer);
    same(rt, code, cpu, want);
    let returns = stored.is_empty();
    let length = if returns { 1 } else { 3 };
    let bytes = done.bytes.bytes();
    same(
        rt,
        code,
        (&bytes[..done.bytes.len()], done.length, done.returns),
        (stored, length, returns),
    );
    Ok(())
}

#[test]
fn subroutines(rt: HostRuntime) -> Result<(), Fail> {
    for case in &SUBROUTINES {
        try_subroutine(&rt, case)?;
    }
    Ok(())
}

fn after_jump(
    rt: &(impl Abort + AllocGlobal),
    code: u8,
    offset: u8,
    status: Status,
    e: u8,
) -> Result<u16, Fail> {
    let mut cpu = processor(0o20, 0o30);
    cpu.status = status;
    cpu.e = e % 16;
    let done = carry(rt, &ram(rt, [code, offset, 0])?, &mut cpu);
    same(rt, code, done.length, 2);
    Ok(cpu.pc())
}

// F0 FE at 256 goes to 256, and F0 7F to 385.
#[test]
fn jumps_far(rt: HostRuntime) -> Result<(), Fail> {
    let clear = Status::clear();
    for (offset, pc) in [(0xFE, 256), (0x7F, 385), (0x80, 130), (0, 258)] {
        same(&rt, offset, after_jump(&rt, 0xF0, offset, clear, 0)?, pc);
    }
    Ok(())
}

// F0 to FF: whether each jump is taken with all bits clear, with CY, OVF and Z set, and with LSB, MSB, LDZ, RDZ set and E 5.
const CONDITIONS: [(u8, bool, bool, bool); 16] = [
    (0xF0, true, true, true),
    (0xF1, true, false, true),
    (0xF2, false, false, true),
    (0xF3, true, true, false),
    (0xF4, false, true, true),
    (0xF5, true, false, false),
    (0xF6, true, false, true),
    (0xF7, false, true, false),
    (0xF8, false, false, true),
    (0xF9, true, true, false),
    (0xFA, true, false, true),
    (0xFB, false, true, false),
    (0xFC, false, false, true),
    (0xFD, true, true, false),
    (0xFE, false, false, true),
    (0xFF, true, true, false),
];

fn try_jump(
    rt: &(impl Abort + AllocGlobal),
    code: u8,
    status: Status,
    e: u8,
    taken: bool,
) -> Result<(), Fail> {
    let pc = if taken { 0x107 } else { 0x102 };
    same(rt, code, after_jump(rt, code, 5, status, e)?, pc);
    Ok(())
}

#[test]
fn conditions(rt: HostRuntime) -> Result<(), Fail> {
    let clear = Status::clear();
    let left = Status {
        cy: true,
        ovf: true,
        z: true,
        ..clear
    };
    let right = Status {
        lsb: true,
        msb: true,
        ldz: true,
        rdz: true,
        ..clear
    };
    for (code, first, second, third) in CONDITIONS {
        try_jump(&rt, code, clear, 0, first)?;
        try_jump(&rt, code, left, 0, second)?;
        try_jump(&rt, code, right, 5, third)?;
    }
    Ok(())
}
