// Refused instructions leave the processor as it was, with its program counter.
use crate::same;
use crate::setup::processor;
use alu::NotDecimal;
use bus::{Bus, BusRefusal, Cause, Rom};
use execute::carry_out;
use layers::{Guard, Shadow};
use reading::{BusReader, Fault};
use registers::Cpu;
use std::process::Abort;

fn refused<B: Bus>(rt: &impl Abort, bus: &B, before: Cpu) -> Option<Fault> {
    let mut cpu = before;
    let fault = carry_out(&mut BusReader::new(bus, &[]), &mut cpu).err()?;
    same(rt, "as it was", cpu, before);
    Some(fault)
}

fn by_bus(address: u16, cause: Cause, depth: u8) -> Option<Fault> {
    let refusal = BusRefusal { cause, depth };
    Some(Fault::Bus { address, refusal })
}

fn rom(bytes: &[u8]) -> Rom<'_> {
    Rom {
        base: 0x0100,
        bytes,
    }
}

// No byte at the code, after it, for the operand, the pointer, or the stores of ST, JSB and SAD, and those that RTN and PAD take
// back; and a store to ROM. The bytes, the address that is refused, and the cause.
const BELOW: [(&[u8], u16, Cause); 10] = [
    (&[], 0x100, Cause::NoByte),
    (&[0xB0, 0], 0x102, Cause::NoByte),
    (&[0xA5, 0], 0x40, Cause::NoByte),
    (&[0xE9, 0], 0x40, Cause::NoByte),
    (&[0xE7, 0], 0x3E, Cause::NoByte),
    (&[0xCE, 0x40, 0], 0x180, Cause::NoByte),
    (&[0x9A, 0], 0x180, Cause::NoByte),
    (&[0x9E, 0], 0x17E, Cause::NoByte),
    (&[0x9F, 0], 0x17D, Cause::NoByte),
    (&[0xAB, 0, 0], 0x101, Cause::RomStore),
];

#[test]
fn by_what_is_below(rt: HostRuntime) {
    for (bytes, address, cause) in BELOW {
        let fault = refused(&rt, &rom(bytes), processor(0o20, 0o30));
        same(&rt, bytes, fault, by_bus(address, cause, 0));
    }
}

// A store over the bytes after the code, of which the second is guarded, and both are outside the shadow's page.
#[test]
fn by_a_layer(rt: HostRuntime) {
    let bytes = [0xAB, 0, 0];
    let cpu = processor(0o20, 0o30);
    let guard = Guard {
        first: 0x102,
        last: 0x102,
        below: Shadow::new(1, rom(&bytes)),
    };
    same(
        &rt,
        "guard",
        refused(&rt, &guard, cpu),
        by_bus(0x102, Cause::Guarded, 0),
    );
    let shadow = Shadow::new(0, rom(&bytes));
    same(
        &rt,
        "shadow",
        refused(&rt, &shadow, cpu),
        by_bus(0x101, Cause::OutsideShadow, 0),
    );
    let open = Guard {
        first: 1,
        last: 0,
        below: shadow,
    };
    same(
        &rt,
        "shadow below a guard",
        refused(&rt, &open, cpu),
        by_bus(0x101, Cause::OutsideShadow, 1),
    );
    same(
        &rt,
        "within the shadow's page",
        refused(&rt, &Shadow::new(1, rom(&bytes)), cpu),
        None,
    );
}

#[test]
fn illegal(rt: HostRuntime) {
    for code in [0xD6, 0xDE] {
        let fault = refused(&rt, &rom(&[code]), processor(0o20, 0o30));
        same(&rt, code, fault, Some(Fault::Illegal { code }));
    }
}

// In decimal mode, ADM, ICM and LLM of what is not decimal: the data are checked before the operand, and shifts check none.
#[test]
fn not_decimal(rt: HostRuntime) {
    let good = [0x12, 0x34];
    let bad = [0x12, 0x3A];
    let table = [
        (0xC3, bad, bad, Some(1)),
        (0xC3, good, bad, Some(9)),
        (0xC3, good, good, None),
        (0x89, bad, good, Some(1)),
        (0x85, bad, good, None),
    ];
    for (code, row, operand, index) in table {
        let mut cpu = processor(0o32, 0o30);
        cpu.status.dcm = true;
        cpu.write_row(0o30, &row);
        cpu.write_row(0o32, &operand);
        let fault = index.map(|index| Fault::NotDecimal(NotDecimal { index }));
        same(&rt, code, refused(&rt, &rom(&[code]), cpu), fault);
    }
}
