// Codes and what they stand for.
use crate::same;
use alu::Operation;
use decode::{Base, Form, Instruction, Mode, Source, decode, is_legal};

#[test]
fn two_codes_are_illegal(rt: HostRuntime) {
    for code in 0..=255u8 {
        same(&rt, code, is_legal(code), code != 0xD6 && code != 0xDE);
    }
}

// 22 sets ARP to R42; B2 and B3 store by a literal address, one register or many; 01 takes ARP from R0.
#[test]
fn a_store(rt: HostRuntime) {
    let literal = Mode::Memory {
        base: Base::Literal,
        indirect: false,
    };
    same(
        &rt,
        "ARP 42",
        decode(0x22),
        Some(Instruction::SetArp(Source::Number(0x22))),
    );
    same(
        &rt,
        "STBD =",
        decode(0xB2),
        Some(Instruction::Store(literal, Form::Byte)),
    );
    same(
        &rt,
        "STMD =",
        decode(0xB3),
        Some(Instruction::Store(literal, Form::Multi)),
    );
    same(
        &rt,
        "ARP *",
        decode(0x01),
        Some(Instruction::SetArp(Source::R0)),
    );
}

fn memory(base: Base, indirect: bool) -> Option<Mode> {
    Some(Mode::Memory { base, indirect })
}

// The operands of LD in their order, of CM, and of PO.
#[test]
fn operands(rt: HostRuntime) {
    let table = [
        (0xA0, Operation::Load, Some(Mode::Register)),
        (0xA4, Operation::Load, memory(Base::Register, false)),
        (0xA8, Operation::Load, Some(Mode::Immediate)),
        (0xAC, Operation::Load, memory(Base::Register, true)),
        (0xB0, Operation::Load, memory(Base::Literal, false)),
        (0xB4, Operation::Load, memory(Base::Indexed, false)),
        (0xB8, Operation::Load, memory(Base::Literal, true)),
        (0xBC, Operation::Load, memory(Base::Indexed, true)),
        (0xC0, Operation::Compare, Some(Mode::Register)),
        (0xC8, Operation::Compare, Some(Mode::Immediate)),
        (0xD0, Operation::Compare, memory(Base::Literal, false)),
        (0xD8, Operation::Compare, memory(Base::Register, false)),
        (0xE0, Operation::Load, memory(Base::StackUp, false)),
        (0xE2, Operation::Load, memory(Base::StackDown, false)),
        (0xE8, Operation::Load, memory(Base::StackUp, true)),
        (0xEA, Operation::Load, memory(Base::StackDown, true)),
    ];
    for (code, operation, operand) in table {
        let instruction = Instruction::Compute(operation, operand, Form::Byte);
        same(&rt, code, decode(code), Some(instruction));
    }
}

#[test]
fn subroutine_jumps(rt: HostRuntime) {
    same(
        &rt,
        "JSB X",
        decode(0xC6),
        Some(Instruction::Call(Base::Indexed)),
    );
    same(
        &rt,
        "JSB =",
        decode(0xCE),
        Some(Instruction::Call(Base::Literal)),
    );
}
