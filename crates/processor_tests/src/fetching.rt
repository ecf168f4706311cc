// What is fetched and passed, and which stained address is told.
use crate::same;
use addressing::{fetch_literal, read_operand};
use alu::Operation;
use bus::{Bus, BusRefusal, Cause, Ram};
use byte_rows::Row;
use decode::{Base, Form, Instruction, Mode, decode};
use reading::{BusReader, Fault};
use registers::Cpu;
use std::process::Abort;
use std::test::Fail;

// From DRP, R42, a multi form spans six registers.
fn cpu(pc: u16) -> Cpu {
    let mut cpu = Cpu::new(pc, 0x0400);
    cpu.drp = 0o42;
    cpu
}

fn literal(indirect: bool) -> Option<Mode> {
    let base = Base::Literal;
    Some(Mode::Memory { base, indirect })
}

// The instruction at the program counter, which passes it, and the bytes after its code.
fn fetch(reader: &mut BusReader<Ram>, cpu: &mut Cpu) -> Result<(Instruction, Row), Fault> {
    let code = reader.byte(cpu.pc())?;
    let instruction = decode(code).ok_or(Fault::Illegal { code })?;
    Ok((instruction, fetch_literal(reader, cpu, instruction)?))
}

// How many bytes follow a code: none, an offset, an address, or as many as the data.
const LENGTHS: [(u8, u8); 11] = [
    (0x22, 1),
    (0x9E, 1),
    (0xE9, 1),
    (0xF7, 2),
    (0xA8, 2),
    (0xCE, 3),
    (0xC6, 3),
    (0xB2, 3),
    (0xBD, 3),
    (0xA9, 7),
    (0xC9, 7),
];

fn try_length(rt: &impl Abort, ram: &mut Ram, code: u8, length: u8) -> Result<(), Fail> {
    same(rt, code, ram.store(0, code), Ok(()));
    let mut cpu = cpu(0);
    let (_, literal) = fetch(&mut BusReader::new(ram, &[]), &mut cpu)?;
    same(rt, code, literal.count().wrapping_add(1), length);
    same(rt, code, cpu.pc(), u16::from(length));
    Ok(())
}

#[test]
fn lengths(rt: HostRuntime) -> Result<(), Fail> {
    let bytes = vec![in rt.alloc(); 9u8; 16]?;
    let mut ram = Ram { base: 0, bytes };
    for (code, length) in LENGTHS {
        try_length(&rt, &mut ram, code, length)?;
    }
    Ok(())
}

// LDB by a literal address: its code stands at 65,534, the address at 65,535 and 0.
#[test]
fn across_the_last_address(rt: HostRuntime) -> Result<(), Fail> {
    let bytes = vec![in rt.alloc(); 0x12u8; 65_536]?;
    let mut ram = Ram { base: 0, bytes };
    same(&rt, "its code", ram.store(65_534, 0xB0), Ok(()));
    same(&rt, "its low byte", ram.store(65_535, 0x34), Ok(()));
    let mut after = cpu(65_534);
    let (instruction, bytes) = fetch(&mut BusReader::new(&ram, &[]), &mut after)?;
    let load = Instruction::Compute(Operation::Load, literal(false), Form::Byte);
    same(&rt, "instruction", instruction, load);
    let address = Row::new([0x34, 0x12, 0, 0, 0, 0, 0, 0], 2);
    same(&rt, "literal", bytes, address);
    same(&rt, "processor", after, cpu(1));
    Ok(())
}

// An illegal code is refused before a byte after it is asked for; a legal one for the first byte that is not there.
#[test]
fn refused(rt: HostRuntime) -> Result<(), Fail> {
    let bytes = vec![in rt.alloc(); 0xD6u8; 2]?;
    let mut ram = Ram { base: 0, bytes };
    let illegal = fetch(&mut BusReader::new(&ram, &[]), &mut cpu(1));
    same(
        &rt,
        "illegal",
        illegal.is_err_and(|fault| fault == Fault::Illegal { code: 0xD6 }),
        true,
    );
    same(&rt, "a legal code", ram.store(0, 0xB2), Ok(()));
    let cut_off = fetch(&mut BusReader::new(&ram, &[]), &mut cpu(0));
    let refusal = BusRefusal::here(Cause::NoByte);
    same(
        &rt,
        "cut off",
        cut_off.is_err_and(|fault| fault
            == Fault::Bus {
                address: 2,
                refusal,
            }),
        true,
    );
    Ok(())
}

// A sheet of the first 64 addresses.
fn sheet(stained: &[u16]) -> [u8; 8] {
    let mut sheet = [0; 8];
    for address in stained {
        sheet[usize::from(address / 8 % 8)] |= 1 << (address % 8);
    }
    sheet
}

// LDM by a literal address, indirect: its code at 16, the pointer at 32, and six bytes from 48 on. The first stained address
// of these is told, in the order in which they are read, and no other.
const TOLD: [(&[u16], Option<u16>); 8] = [
    (&[], None),
    (&[48, 32, 16], Some(16)),
    (&[48, 32, 18], Some(18)),
    (&[48, 33], Some(33)),
    (&[53, 50], Some(50)),
    (&[53], Some(53)),
    (&[54, 47, 34, 31], None),
    (&[19, 15, 4], None),
];

fn try_told(
    rt: &impl Abort,
    ram: &Ram,
    stained: &'static [u16],
    told: Option<u16>,
) -> Result<(), Fail> {
    let sheet = sheet(stained);
    let mut reader = BusReader::new(ram, &sheet);
    let mut cpu = cpu(16);
    let (_, pointer) = fetch(&mut reader, &mut cpu)?;
    let read = read_operand(&mut reader, &cpu, literal(true), Form::Multi, &pointer)?;
    same(rt, stained, read.count(), 6);
    same(rt, stained, reader.told, told);
    Ok(())
}

#[test]
fn told(rt: HostRuntime) -> Result<(), Fail> {
    let bytes = vec![in rt.alloc(); 0u8; 64]?;
    let mut ram = Ram { base: 0, bytes };
    for (address, byte) in [(16, 0xB9), (17, 32), (32, 48)] {
        same(&rt, address, ram.store(address, byte), Ok(()));
    }
    for (stained, told) in TOLD {
        try_told(&rt, &ram, stained, told)?;
    }
    Ok(())
}
