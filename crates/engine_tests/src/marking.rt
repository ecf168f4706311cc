// One address's stain, set and cleared.
use crate::same;
use reading::is_stained;
use stains::mark;
use std::process::Abort;

#[derive(Clone, Copy)]
struct Case {
    address: u16,
    byte: usize,
    bit: u8,
}

fn stained_in(sheet: &[u8; 8192]) -> usize {
    (0..=65_535u16)
        .filter(|address| is_stained(sheet, *address))
        .count()
}

// A set stain is the one bit of a blank sheet, and a cleared one the one gap of a full one.
fn try_case(rt: &impl Abort, case: &Case) {
    let mut sheet = [0u8; 8192];
    mark(&mut sheet, true, case.address);
    same(rt, case.address, sheet.get(case.byte), Some(&case.bit));
    same(rt, case.address, is_stained(&sheet, case.address), true);
    same(rt, case.address, stained_in(&sheet), 1);
    mark(&mut sheet, false, case.address);
    same(rt, case.address, stained_in(&sheet), 0);

    let mut full = [255u8; 8192];
    mark(&mut full, false, case.address);
    same(rt, case.address, is_stained(&full, case.address), false);
    same(rt, case.address, stained_in(&full), 65_535);
    mark(&mut full, true, case.address);
    same(rt, case.address, stained_in(&full), 65_536);
}

#[test]
fn set_and_cleared(rt: HostRuntime) {
    let cases = [
        Case {
            address: 0,
            byte: 0,
            bit: 1,
        },
        Case {
            address: 7,
            byte: 0,
            bit: 128,
        },
        Case {
            address: 8,
            byte: 1,
            bit: 1,
        },
        Case {
            address: 65_535,
            byte: 8191,
            bit: 128,
        },
    ];
    for case in cases.iter() {
        try_case(&rt, case);
    }
}

// A sheet that is too short keeps no stain past its end.
#[test]
fn short_sheet(rt: HostRuntime) {
    let mut sheet = [0u8; 1];
    mark(&mut sheet, true, 8);
    same(&rt, "past its end", sheet, [0]);
    mark(&mut sheet, true, 7);
    same(&rt, "its last bit", sheet, [128]);
    let mut none = [0u8; 0];
    mark(&mut none, true, 0);
    same(&rt, "an empty sheet", is_stained(&none, 0), false);
}
