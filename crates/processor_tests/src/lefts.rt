// Parts of the processor that instructions leave as they were.
use crate::same;
use decode::{Instruction, decode};
use laws::{Part, leaves};
use registers::Cpu;

// ARP at R42 and DRP at R30, as for LDM R30,R42.
fn cpu() -> Cpu {
    let mut cpu = Cpu::new(0, 0);
    cpu.arp = 0o42;
    cpu.drp = 0o30;
    cpu
}

fn all_leave(code: u8, part: Part) -> bool {
    match decode(code) {
        Some(instruction) => leaves(instruction, &cpu(), part),
        None => true,
    }
}

// For each code, the registers that the instruction may change besides the program counter, R4-R5.
#[test]
fn registers(rt: HostRuntime) {
    let table: [(u8, [u8; 4]); 8] = [
        // LDM and LDB: the data, from R30 on.
        (0xA1, [0o30, 0o31, 0o30, 0o31]),
        (0xA0, [0o30, 0o30, 0o30, 0o30]),
        // CMM names none; STM two from R42 on.
        (0xC1, [4, 5, 4, 5]),
        (0xA3, [0o42, 0o43, 0o42, 0o43]),
        // LDM indexed: the sum in R2-R3, and the data.
        (0xB5, [2, 3, 0o30, 0o31]),
        // POM: the pair at ARP, and the data.
        (0xE1, [0o42, 0o43, 0o30, 0o31]),
        // JSB indexed and RTN: the return pointer.
        (0xC6, [2, 3, 6, 7]),
        (0x9E, [6, 7, 6, 7]),
    ];
    for (code, named) in table {
        for k in 0..64 {
            let changes = k == 4 || k == 5 || named.contains(&k);
            same(&rt, (code, k), all_leave(code, Part::Register(k)), !changes);
        }
    }
}

// Of all codes, those that may change a pointer, decimal mode or the other status bits.
#[test]
fn status(rt: HostRuntime) {
    for code in 0..=255u8 {
        let pad = code == 0x9F;
        same(
            &rt,
            (code, "ARP"),
            all_leave(code, Part::Arp),
            !(code < 0x40 || pad),
        );
        same(
            &rt,
            (code, "DRP"),
            all_leave(code, Part::Drp),
            !(matches!(code, 0x40..=0x7F) || pad),
        );
        same(
            &rt,
            (code, "mode"),
            all_leave(code, Part::Mode),
            !matches!(code, 0x98 | 0x99 | 0x9F),
        );
        let jsb = matches!(code, 0xC6 | 0xCE | 0xD6 | 0xDE);
        let seen = matches!(code, 0x80..=0x97 | 0xA0..=0xEF) && !jsb;
        same(
            &rt,
            (code, "conditions"),
            all_leave(code, Part::Conditions),
            !(seen || pad),
        );
    }
}

// ELB changes E in decimal mode alone.
#[test]
fn a_decimal_shift(rt: HostRuntime) {
    let mut cpu = cpu();
    if let Some(shift) = decode(0x80) {
        same(&rt, "in binary mode", leaves(shift, &cpu, Part::E), true);
        cpu.status.dcm = true;
        same(&rt, "in decimal mode", leaves(shift, &cpu, Part::E), false);
    }
    same(&rt, "ADB", all_leave(0xC2, Part::E), true);
    same(&rt, "ICE", all_leave(0x9B, Part::E), false);
}
