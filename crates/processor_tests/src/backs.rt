// PAD after SAD, RTN after JSB, and the settings worked out by hand.
use crate::same;
use decode::{Base, Control, Instruction};
use laws::{given_back, worked_settings};
use registers::{Cpu, Status};

// A handler has moved the program counter, the pointers and the status, and has changed R40; the return pointer is where SAD or JSB
// left it.
fn later(return_pointer: u16) -> Cpu {
    let mut later = Cpu::new(0x0300, return_pointer);
    later.arp = 1;
    later.e = 5;
    later.write_row(0o40, &[9]);
    later
}

#[test]
fn status_and_pointers(rt: HostRuntime) {
    let mut cpu = Cpu::new(0x0104, 0x0400);
    cpu.drp = 0o40;
    cpu.status = Status {
        dcm: true,
        ovf: true,
        ..Status::clear()
    };
    let back = given_back(
        Instruction::Control(Control::SaveStatus),
        &cpu,
        &later(0x0403),
    );
    let mut wanted = later(0x0400);
    wanted.arp = 0;
    wanted.drp = 0o40;
    wanted.status = cpu.status;
    same(&rt, "PAD after SAD", back, Some(wanted));
}

#[test]
fn program_counter(rt: HostRuntime) {
    let cpu = Cpu::new(0x0107, 0x0400);
    let back = given_back(Instruction::Call(Base::Literal), &cpu, &later(0x0402));
    let mut wanted = later(0x0400);
    wanted.set_pair(4, 0x0107);
    same(&rt, "RTN after JSB", back, Some(wanted));
    same(
        &rt,
        "RTN gives nothing back",
        given_back(Instruction::Control(Control::Return), &cpu, &cpu),
        None,
    );
}

#[test]
fn by_hand(rt: HostRuntime) {
    let mut cpu = Cpu::new(0x0107, 0x0400);
    cpu.write_row(0o42, &[0x12, 0x34]);
    let worked = worked_settings(&cpu);
    same(&rt, "spans", worked.spans, [6, 2, 1, 1]);
    same(&rt, "jumps", worked.jumps, [256, 385]);
    same(&rt, "what is loaded", worked.loaded.pair(0o30), 0x3412);
    same(
        &rt,
        "the program counter after it",
        worked.loaded.pc(),
        0x0108,
    );
    same(&rt, "the data", worked.loaded.pair(0o42), 0x3412);
}
