// Where an operand in memory is, what its bytes are, and which pair is moved.
use crate::same;
use addressing::{base_address, move_pair, read_operand};
use bus::{Bus, Ram};
use byte_rows::Row;
use decode::{Base, Form, Mode};
use reading::BusReader;
use registers::Cpu;
use std::process::Abort;
use std::test::Fail;

// The byte at an address is the sum of the address's two bytes.
fn put(rt: &impl Abort, ram: &mut Ram, address: u16) {
    let [low, high] = address.to_le_bytes();
    same(
        rt,
        address,
        ram.store(address, low.wrapping_add(high)),
        Ok(()),
    );
}

fn fill(rt: &impl Abort, ram: &mut Ram) {
    for address in 0..=65_535u16 {
        put(rt, ram, address);
    }
}

fn ram(rt: &(impl Abort + AllocGlobal)) -> Result<Ram, Fail> {
    let bytes = vec![in rt.alloc(); 0u8; 65_536]?;
    let mut ram = Ram { base: 0, bytes };
    fill(rt, &mut ram);
    Ok(ram)
}

// ARP is R20, which holds the pair; from DRP, R42, a multi form spans six registers.
fn cpu(pair: u16) -> Cpu {
    let mut cpu = Cpu::new(0x0100, 0x0400);
    cpu.arp = 0o20;
    cpu.drp = 0o42;
    cpu.set_pair(0o20, pair);
    cpu
}

// The literal address 2010.
fn literal() -> Row {
    Row::new([0x10, 0x20, 0, 0, 0, 0, 0, 0], 2)
}

#[derive(Clone, Copy)]
struct Case {
    base: Base,
    indirect: bool,
    form: Form,
    // The pair at ARP.
    pair: u16,
    // The base address.
    at: u16,
    // The register of the pair that is moved, and what it holds then.
    moved: Option<(u8, u16)>,
    operand: &'static [u8],
}

const REGISTER: Case = Case {
    base: Base::Register,
    indirect: false,
    form: Form::Multi,
    pair: 0x1000,
    at: 0x1000,
    moved: None,
    operand: &[0x10, 0x11, 0x12, 0x13, 0x14, 0x15],
};

const LITERAL: Case = Case {
    base: Base::Literal,
    at: 0x2010,
    operand: &[0x30, 0x31, 0x32, 0x33, 0x34, 0x35],
    ..REGISTER
};

const INDEXED: Case = Case {
    base: Base::Indexed,
    at: 0x3010,
    moved: Some((2, 0x3010)),
    operand: &[0x40, 0x41, 0x42, 0x43, 0x44, 0x45],
    ..REGISTER
};

const STACK_UP: Case = Case {
    base: Base::StackUp,
    moved: Some((0o20, 0x1006)),
    ..REGISTER
};

const STACK_DOWN: Case = Case {
    base: Base::StackDown,
    at: 0x0FFA,
    moved: Some((0o20, 0x0FFA)),
    operand: &[0x09, 0x0A, 0x0B, 0x0C, 0x0D, 0x0E],
    ..REGISTER
};

// Each base, direct and indirect; then one byte from a stack, and addresses past 65,535 or below 0.
const CASES: [Case; 18] = [
    REGISTER,
    Case {
        indirect: true,
        operand: &[0x21, 0x22, 0x23, 0x24, 0x25, 0x26],
        ..REGISTER
    },
    LITERAL,
    Case {
        indirect: true,
        operand: &[0x61, 0x62, 0x63, 0x64, 0x65, 0x66],
        ..LITERAL
    },
    INDEXED,
    Case {
        indirect: true,
        operand: &[0x81, 0x82, 0x83, 0x84, 0x85, 0x86],
        ..INDEXED
    },
    STACK_UP,
    Case {
        indirect: true,
        moved: Some((0o20, 0x1002)),
        operand: &[0x21, 0x22, 0x23, 0x24, 0x25, 0x26],
        ..STACK_UP
    },
    STACK_DOWN,
    Case {
        indirect: true,
        at: 0x0FFE,
        moved: Some((0o20, 0x0FFE)),
        operand: &[0x1B, 0x1C, 0x1D, 0x1E, 0x1F, 0x20],
        ..STACK_DOWN
    },
    Case {
        form: Form::Byte,
        moved: Some((0o20, 0x1001)),
        operand: &[0x10],
        ..STACK_UP
    },
    Case {
        form: Form::Byte,
        at: 0x0FFF,
        moved: Some((0o20, 0x0FFF)),
        operand: &[0x0E],
        ..STACK_DOWN
    },
    Case {
        form: Form::Byte,
        indirect: true,
        at: 0x0FFE,
        moved: Some((0o20, 0x0FFE)),
        operand: &[0x1B],
        ..STACK_DOWN
    },
    Case {
        pair: 0xFFFD,
        at: 0xFFFD,
        operand: &[0xFC, 0xFD, 0xFE, 0x00, 0x01, 0x02],
        ..REGISTER
    },
    Case {
        indirect: true,
        pair: 0xFFFF,
        at: 0xFFFF,
        operand: &[0xFE, 0xFF, 0x01, 0x02, 0x03, 0x04],
        ..REGISTER
    },
    Case {
        pair: 0xFFF0,
        at: 0x2000,
        moved: Some((2, 0x2000)),
        operand: &[0x20, 0x21, 0x22, 0x23, 0x24, 0x25],
        ..INDEXED
    },
    Case {
        pair: 0xFFFD,
        at: 0xFFFD,
        moved: Some((0o20, 0x0003)),
        operand: &[0xFC, 0xFD, 0xFE, 0x00, 0x01, 0x02],
        ..STACK_UP
    },
    Case {
        pair: 0x0003,
        at: 0xFFFD,
        moved: Some((0o20, 0xFFFD)),
        operand: &[0xFC, 0xFD, 0xFE, 0x00, 0x01, 0x02],
        ..STACK_DOWN
    },
];

fn try_case(rt: &impl Abort, ram: &Ram, case: Case) -> Result<(), Fail> {
    let (base, indirect, form) = (case.base, case.indirect, case.form);
    let mut cpu = cpu(case.pair);
    let mut after = cpu;
    if let Some((register, pair)) = case.moved {
        after.set_pair(register, pair);
    }
    let at = base_address(&cpu, base, indirect, form, &literal());
    same(rt, "base address", at, case.at);
    let mode = Some(Mode::Memory { base, indirect });
    let mut reader = BusReader::new(ram, &[]);
    let operand = read_operand(&mut reader, &cpu, mode, form, &literal())?;
    let bytes = operand.bytes();
    same(rt, "operand", &bytes[..operand.len()] == case.operand, true);
    move_pair(&mut cpu, base, indirect, form, &literal());
    same(rt, "processor", cpu, after);
    Ok(())
}

#[test]
fn in_memory(rt: HostRuntime) -> Result<(), Fail> {
    let ram = ram(&rt)?;
    for case in CASES {
        try_case(&rt, &ram, case)?;
    }
    Ok(())
}

// The operand's mode and form, and its bytes.
const IN_REGISTERS: [(Option<Mode>, Form, &[u8]); 4] = [
    (Some(Mode::Register), Form::Multi, &[1, 2, 3, 4, 5, 6]),
    (Some(Mode::Register), Form::Byte, &[1]),
    (Some(Mode::Immediate), Form::Multi, &[0x10, 0x20]),
    (None, Form::Multi, &[]),
];

fn try_in_registers(
    rt: &impl Abort,
    ram: &Ram,
    cpu: &Cpu,
    mode: Option<Mode>,
    form: Form,
    operand: &[u8],
) -> Result<(), Fail> {
    let mut reader = BusReader::new(ram, &[]);
    let read = read_operand(&mut reader, cpu, mode, form, &literal())?;
    let bytes = read.bytes();
    same(rt, (mode, form), &bytes[..read.len()] == operand, true);
    Ok(())
}

// From R76 on six registers are R76, R77 and R0 to R3; the data are those from R42 on, and the bytes after the code as they stand.
#[test]
fn in_registers(rt: HostRuntime) -> Result<(), Fail> {
    let ram = ram(&rt)?;
    let mut cpu = cpu(0x1000);
    cpu.arp = 0o76;
    cpu.write_row(0o76, &[1, 2, 3, 4, 5, 6]);
    cpu.write_row(0o42, &[11, 12, 13, 14, 15, 16]);
    for (mode, form, operand) in IN_REGISTERS {
        try_in_registers(&rt, &ram, &cpu, mode, form, operand)?;
    }
    let data = Row::new([11, 12, 13, 14, 15, 16, 0, 0], 6);
    same(&rt, "data", cpu.row(cpu.drp, Form::Multi), data);
    same(
        &rt,
        "one byte of the data",
        cpu.row(cpu.drp, Form::Byte),
        Row::new([11, 0, 0, 0, 0, 0, 0, 0], 1),
    );
    Ok(())
}
