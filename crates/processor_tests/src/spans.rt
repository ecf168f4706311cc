// How many registers an instruction works on, and rows of them across R77.
use crate::same;
use registers::{Cpu, Form, span};

// From R42 on an instruction works on six registers, not on eight.
#[test]
fn six_from_r42(rt: HostRuntime) {
    for (form, drp, registers) in [
        (Form::Multi, 0o42, 6),
        (Form::Multi, 0o40, 8),
        (Form::Multi, 0o77, 1),
        (Form::Multi, 0o30, 2),
        (Form::Multi, 0o31, 1),
        (Form::Byte, 0o40, 1),
    ] {
        same(&rt, drp, span(form, drp), registers);
    }
}

#[test]
fn a_row_across_r77(rt: HostRuntime) {
    let mut cpu = Cpu::new(0, 0);
    cpu.write_row(0o76, &[1, 2, 3, 4]);
    same(&rt, "R77", cpu.register(0o77), 2);
    same(&rt, "R0", cpu.register(0), 3);
    same(&rt, "pair", cpu.pair(0o77), 0x0302);
    cpu.set_pair(0o77, 0x0506);
    let mut row = [0; 4];
    cpu.read_row(0o76, &mut row);
    same(&rt, "row", row, [1, 6, 5, 4]);
}
