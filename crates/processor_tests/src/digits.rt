// Bytes that are not decimal: the data is checked before the operand, and the row stays as it was.
use crate::same;
use alu::{Flags, Operation, operate};
use registers::Status;
use std::process::Abort;

fn refused(
    rt: &impl Abort,
    op: Operation,
    dcm: bool,
    data: [u8; 3],
    operand: [u8; 3],
) -> Option<u8> {
    let status = Status {
        dcm,
        ..Status::default()
    };
    let mut row = data;
    let refusal = operate(op, Flags { status, e: 0 }, &mut row, &operand).err()?;
    same(rt, op, row, data);
    Some(refusal.index)
}

#[test]
fn indices(rt: HostRuntime) {
    let good = [0x12, 0x34, 0x56];
    let bad = [0x12, 0x34, 0x5A];
    let worse = [0x12, 0xA4, 0x5A];
    same(
        &rt,
        "decimal",
        refused(&rt, Operation::Add, true, good, good),
        None,
    );
    same(
        &rt,
        "bad data",
        refused(&rt, Operation::Add, true, bad, good),
        Some(2),
    );
    same(
        &rt,
        "a bad operand",
        refused(&rt, Operation::Compare, true, good, worse),
        Some(9),
    );
    same(
        &rt,
        "a bad byte in each",
        refused(&rt, Operation::Subtract, true, bad, worse),
        Some(2),
    );
    same(
        &rt,
        "an operand that is not used",
        refused(&rt, Operation::Increment, true, worse, bad),
        Some(1),
    );
    same(
        &rt,
        "an operand that is not used",
        refused(&rt, Operation::Negate, true, good, bad),
        None,
    );
    same(
        &rt,
        "OR",
        refused(&rt, Operation::Or, true, bad, worse),
        None,
    );
    same(
        &rt,
        "LL",
        refused(&rt, Operation::LogicalLeft, true, bad, good),
        None,
    );
    same(
        &rt,
        "binary",
        refused(&rt, Operation::Add, false, bad, worse),
        None,
    );
}
