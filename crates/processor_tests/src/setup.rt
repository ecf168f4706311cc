// What the instructions work on.
use crate::same;
use bus::Ram;
use execute::{Executed, carry_out};
use reading::BusReader;
use registers::Cpu;
use std::process::Abort;
use std::test::Fail;

// The code at 0100, bytes at 0040, and a pointer to them at 0050.
pub fn ram(rt: &(impl Abort + AllocGlobal), code: [u8; 3]) -> Result<Ram, Fail> {
    let bytes = vec![in rt.alloc(); 0u8; 512]?;
    let mut ram = Ram { base: 0, bytes };
    let data = [0x11, 0x22, 0x33, 0x44, 0x55, 0x66, 0x77, 0x88];
    same(rt, "bytes", ram.load(0x40, &data), Ok(()));
    same(rt, "pointer", ram.load(0x50, &[0x40]), Ok(()));
    same(rt, "code", ram.load(0x100, &code), Ok(()));
    Ok(ram)
}

// R20-R21 point to the bytes, R22-R23 to the pointer, and R30 to R37 hold 1 to 8.
pub fn processor(arp: u8, drp: u8) -> Cpu {
    let mut cpu = Cpu::new(0x0100, 0x0180);
    cpu.write_row(0, &[0xC5, 0, 7, 8]);
    cpu.write_row(0o20, &[0x40, 0, 0x50, 0]);
    cpu.write_row(0o30, &[1, 2, 3, 4, 5, 6, 7, 8]);
    cpu.arp = arp % 64;
    cpu.drp = drp % 64;
    cpu
}

// Carries out an instruction that is not refused.
pub fn carry(rt: &impl Abort, ram: &Ram, cpu: &mut Cpu) -> Executed {
    carry_out(&mut BusReader::new(ram, &[]), cpu).expect(rt, "refused")
}
