// Works through the worked examples of the HP-87 instruction set: each is loaded and carried out, and what it leaves is compared
// with what the manual says.
#![tactic(auto)]

mod case;
mod control;
mod moves;
mod operations;
mod structure;

use bus::{Bus, Ram};
use case::{Case, Fact, RETURNS, START};
use control::{JUMPS, OTHERS, SUBROUTINES};
use engine::{Cold, ReadOut, SHEET_SIZE};
use moves::{LOADS, STACKS, STORES};
use noninterference::Letter;
use operations::OPERATIONS;
use std::alloc::AllocError;
use structure::{BANK, NUMBERS, STATUS};

const TABLES: [&[Case]; 10] = [
    &BANK,
    &NUMBERS,
    &STATUS,
    &LOADS,
    &STORES,
    &STACKS,
    &OPERATIONS,
    &SUBROUTINES,
    &JUMPS,
    &OTHERS,
];

// Code that puts the bytes into the registers, each by a DRP and an LDB.
fn setting(rt: &HostRuntime, registers: &[(u8, &[u8])]) -> Result<Vec<u8>, AllocError> {
    let mut code = Vec::new(rt.alloc());
    for (first, bytes) in registers {
        for (i, byte) in bytes.iter().enumerate() {
            let register = ((usize::from(*first) + i) % 64) as u8;
            code.extend_from_slice(&[0o100 + register, 0o250, *byte])?;
        }
    }
    Ok(code)
}

// A length or a place as a part of an address; none here is longer.
fn short(n: usize) -> u16 {
    (n % 65_536) as u16
}

fn register(left: &ReadOut, first: u8, i: usize) -> u8 {
    left.registers[usize::from(first).wrapping_add(i) % 64]
}

fn holds(fact: Fact, left: &ReadOut, memory: &Ram) -> bool {
    match fact {
        Fact::Registers(first, bytes) => {
            let mut bytes = bytes.iter().enumerate();
            bytes.all(|(i, byte)| register(left, first, i) == *byte)
        }
        Fact::Memory(first, bytes) => {
            let mut bytes = bytes.iter().enumerate();
            bytes.all(|(i, byte)| memory.read(first.wrapping_add(short(i))) == Ok(*byte))
        }
        Fact::Pc(pc) => u16::from_le_bytes([left.registers[4], left.registers[5]]) == pc,
        Fact::Arp(arp) => left.arp == arp,
        Fact::Drp(drp) => left.drp == drp,
        Fact::Set(bit) => bit.of(left.status),
        Fact::Clear(bit) => !bit.of(left.status),
        Fact::E(e) => left.e == e,
    }
}

// Whether the example is carried out, and leaves what the manual says.
fn passes(rt: &HostRuntime, case: &Case) -> anyhow::Result<bool> {
    let mut memory = Ram {
        base: 0,
        bytes: vec![in rt.alloc(); 0u8; 65_536]?,
    };
    let mut sheet = vec![in rt.alloc(); 0u8; SHEET_SIZE]?;
    let setting = setting(rt, case.registers)?;
    let begin = START.wrapping_sub(short(setting.len()));
    let steps = case.steps.wrapping_add(short(setting.len() / 3 * 2));
    let mut loaded = memory.load(begin, &setting).is_ok();
    loaded &= memory.load(START, case.code).is_ok();
    for (address, bytes) in case.memory {
        loaded &= memory.load(*address, bytes).is_ok();
    }
    let mut live = Cold.go(&memory, begin, RETURNS);
    let done = live.run(&mut memory, &mut sheet, steps);
    let left = live.end();
    Ok(
        loaded
            && done.is_ok_and(|report| report.letter == Letter::Done)
            && case.facts.iter().all(|fact| holds(*fact, &left, &memory)),
    )
}

fn main(rt: HostRuntime) -> anyhow::Result<()> {
    let mut passed = 0usize;
    let mut failed = 0usize;
    for case in TABLES.iter().flat_map(|table| table.iter()) {
        if passes(&rt, case)? {
            passed = passed.saturating_add(1);
            println!(rt; "pass {}", case.name)?;
        } else {
            failed = failed.saturating_add(1);
            println!(rt; "fail {}", case.name)?;
        }
    }
    println!(rt; "{passed} passed, {failed} failed")?;
    Ok(())
}
