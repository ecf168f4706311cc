// The instruction of each code.
use crate::instruction::Instruction::{Call, Compute, Jump, SetArp, SetDrp, Store};
use crate::instruction::Source::{Number, R0};
use crate::instruction::{Base, Condition, Control, Instruction, Mode};
use alu::Operation::{
    Add, And, Clear, Compare, Complement, Decrement, ExclusiveOr, ExtendedLeft, ExtendedRight,
    Increment, Load, LogicalLeft, LogicalRight, Negate, Or, Subtract, Test,
};
use registers::Form::{Byte, Multi};

// The modes, as operands and stores have them.
const REGISTERS: Mode = Mode::Register;

const IMMEDIATE: Mode = Mode::Immediate;

const AT_REGISTER: Mode = Mode::Memory {
    base: Base::Register,
    indirect: false,
};

const AT_REGISTER_PAIR: Mode = Mode::Memory {
    base: Base::Register,
    indirect: true,
};

const AT_LITERAL: Mode = Mode::Memory {
    base: Base::Literal,
    indirect: false,
};

const AT_LITERAL_PAIR: Mode = Mode::Memory {
    base: Base::Literal,
    indirect: true,
};

const AT_INDEXED: Mode = Mode::Memory {
    base: Base::Indexed,
    indirect: false,
};

const AT_INDEXED_PAIR: Mode = Mode::Memory {
    base: Base::Indexed,
    indirect: true,
};

const STACK_UP: Mode = Mode::Memory {
    base: Base::StackUp,
    indirect: false,
};

const STACK_UP_PAIR: Mode = Mode::Memory {
    base: Base::StackUp,
    indirect: true,
};

const STACK_DOWN: Mode = Mode::Memory {
    base: Base::StackDown,
    indirect: false,
};

const STACK_DOWN_PAIR: Mode = Mode::Memory {
    base: Base::StackDown,
    indirect: true,
};

// By code, from 00 to FF; D6 and DE are illegal.
pub(crate) static CODES: [Option<Instruction>; 256] = [
    // 00
    Some(SetArp(Number(0))),
    Some(SetArp(R0)),
    Some(SetArp(Number(2))),
    Some(SetArp(Number(3))),
    Some(SetArp(Number(4))),
    Some(SetArp(Number(5))),
    Some(SetArp(Number(6))),
    Some(SetArp(Number(7))),
    // 08
    Some(SetArp(Number(8))),
    Some(SetArp(Number(9))),
    Some(SetArp(Number(10))),
    Some(SetArp(Number(11))),
    Some(SetArp(Number(12))),
    Some(SetArp(Number(13))),
    Some(SetArp(Number(14))),
    Some(SetArp(Number(15))),
    // 10
    Some(SetArp(Number(16))),
    Some(SetArp(Number(17))),
    Some(SetArp(Number(18))),
    Some(SetArp(Number(19))),
    Some(SetArp(Number(20))),
    Some(SetArp(Number(21))),
    Some(SetArp(Number(22))),
    Some(SetArp(Number(23))),
    // 18
    Some(SetArp(Number(24))),
    Some(SetArp(Number(25))),
    Some(SetArp(Number(26))),
    Some(SetArp(Number(27))),
    Some(SetArp(Number(28))),
    Some(SetArp(Number(29))),
    Some(SetArp(Number(30))),
    Some(SetArp(Number(31))),
    // 20
    Some(SetArp(Number(32))),
    Some(SetArp(Number(33))),
    Some(SetArp(Number(34))),
    Some(SetArp(Number(35))),
    Some(SetArp(Number(36))),
    Some(SetArp(Number(37))),
    Some(SetArp(Number(38))),
    Some(SetArp(Number(39))),
    // 28
    Some(SetArp(Number(40))),
    Some(SetArp(Number(41))),
    Some(SetArp(Number(42))),
    Some(SetArp(Number(43))),
    Some(SetArp(Number(44))),
    Some(SetArp(Number(45))),
    Some(SetArp(Number(46))),
    Some(SetArp(Number(47))),
    // 30
    Some(SetArp(Number(48))),
    Some(SetArp(Number(49))),
    Some(SetArp(Number(50))),
    Some(SetArp(Number(51))),
    Some(SetArp(Number(52))),
    Some(SetArp(Number(53))),
    Some(SetArp(Number(54))),
    Some(SetArp(Number(55))),
    // 38
    Some(SetArp(Number(56))),
    Some(SetArp(Number(57))),
    Some(SetArp(Number(58))),
    Some(SetArp(Number(59))),
    Some(SetArp(Number(60))),
    Some(SetArp(Number(61))),
    Some(SetArp(Number(62))),
    Some(SetArp(Number(63))),
    // 40
    Some(SetDrp(Number(0))),
    Some(SetDrp(R0)),
    Some(SetDrp(Number(2))),
    Some(SetDrp(Number(3))),
    Some(SetDrp(Number(4))),
    Some(SetDrp(Number(5))),
    Some(SetDrp(Number(6))),
    Some(SetDrp(Number(7))),
    // 48
    Some(SetDrp(Number(8))),
    Some(SetDrp(Number(9))),
    Some(SetDrp(Number(10))),
    Some(SetDrp(Number(11))),
    Some(SetDrp(Number(12))),
    Some(SetDrp(Number(13))),
    Some(SetDrp(Number(14))),
    Some(SetDrp(Number(15))),
    // 50
    Some(SetDrp(Number(16))),
    Some(SetDrp(Number(17))),
    Some(SetDrp(Number(18))),
    Some(SetDrp(Number(19))),
    Some(SetDrp(Number(20))),
    Some(SetDrp(Number(21))),
    Some(SetDrp(Number(22))),
    Some(SetDrp(Number(23))),
    // 58
    Some(SetDrp(Number(24))),
    Some(SetDrp(Number(25))),
    Some(SetDrp(Number(26))),
    Some(SetDrp(Number(27))),
    Some(SetDrp(Number(28))),
    Some(SetDrp(Number(29))),
    Some(SetDrp(Number(30))),
    Some(SetDrp(Number(31))),
    // 60
    Some(SetDrp(Number(32))),
    Some(SetDrp(Number(33))),
    Some(SetDrp(Number(34))),
    Some(SetDrp(Number(35))),
    Some(SetDrp(Number(36))),
    Some(SetDrp(Number(37))),
    Some(SetDrp(Number(38))),
    Some(SetDrp(Number(39))),
    // 68
    Some(SetDrp(Number(40))),
    Some(SetDrp(Number(41))),
    Some(SetDrp(Number(42))),
    Some(SetDrp(Number(43))),
    Some(SetDrp(Number(44))),
    Some(SetDrp(Number(45))),
    Some(SetDrp(Number(46))),
    Some(SetDrp(Number(47))),
    // 70
    Some(SetDrp(Number(48))),
    Some(SetDrp(Number(49))),
    Some(SetDrp(Number(50))),
    Some(SetDrp(Number(51))),
    Some(SetDrp(Number(52))),
    Some(SetDrp(Number(53))),
    Some(SetDrp(Number(54))),
    Some(SetDrp(Number(55))),
    // 78
    Some(SetDrp(Number(56))),
    Some(SetDrp(Number(57))),
    Some(SetDrp(Number(58))),
    Some(SetDrp(Number(59))),
    Some(SetDrp(Number(60))),
    Some(SetDrp(Number(61))),
    Some(SetDrp(Number(62))),
    Some(SetDrp(Number(63))),
    // 80
    Some(Compute(ExtendedLeft, None, Byte)),
    Some(Compute(ExtendedLeft, None, Multi)),
    Some(Compute(ExtendedRight, None, Byte)),
    Some(Compute(ExtendedRight, None, Multi)),
    Some(Compute(LogicalLeft, None, Byte)),
    Some(Compute(LogicalLeft, None, Multi)),
    Some(Compute(LogicalRight, None, Byte)),
    Some(Compute(LogicalRight, None, Multi)),
    // 88
    Some(Compute(Increment, None, Byte)),
    Some(Compute(Increment, None, Multi)),
    Some(Compute(Decrement, None, Byte)),
    Some(Compute(Decrement, None, Multi)),
    Some(Compute(Negate, None, Byte)),
    Some(Compute(Negate, None, Multi)),
    Some(Compute(Complement, None, Byte)),
    Some(Compute(Complement, None, Multi)),
    // 90
    Some(Compute(Test, None, Byte)),
    Some(Compute(Test, None, Multi)),
    Some(Compute(Clear, None, Byte)),
    Some(Compute(Clear, None, Multi)),
    Some(Compute(Or, Some(REGISTERS), Byte)),
    Some(Compute(Or, Some(REGISTERS), Multi)),
    Some(Compute(ExclusiveOr, Some(REGISTERS), Byte)),
    Some(Compute(ExclusiveOr, Some(REGISTERS), Multi)),
    // 98
    Some(Instruction::Control(Control::Binary)),
    Some(Instruction::Control(Control::Decimal)),
    Some(Instruction::Control(Control::SaveStatus)),
    Some(Instruction::Control(Control::DecrementE)),
    Some(Instruction::Control(Control::IncrementE)),
    Some(Instruction::Control(Control::ClearE)),
    Some(Instruction::Control(Control::Return)),
    Some(Instruction::Control(Control::RestoreStatus)),
    // A0
    Some(Compute(Load, Some(REGISTERS), Byte)),
    Some(Compute(Load, Some(REGISTERS), Multi)),
    Some(Store(REGISTERS, Byte)),
    Some(Store(REGISTERS, Multi)),
    Some(Compute(Load, Some(AT_REGISTER), Byte)),
    Some(Compute(Load, Some(AT_REGISTER), Multi)),
    Some(Store(AT_REGISTER, Byte)),
    Some(Store(AT_REGISTER, Multi)),
    // A8
    Some(Compute(Load, Some(IMMEDIATE), Byte)),
    Some(Compute(Load, Some(IMMEDIATE), Multi)),
    Some(Store(IMMEDIATE, Byte)),
    Some(Store(IMMEDIATE, Multi)),
    Some(Compute(Load, Some(AT_REGISTER_PAIR), Byte)),
    Some(Compute(Load, Some(AT_REGISTER_PAIR), Multi)),
    Some(Store(AT_REGISTER_PAIR, Byte)),
    Some(Store(AT_REGISTER_PAIR, Multi)),
    // B0
    Some(Compute(Load, Some(AT_LITERAL), Byte)),
    Some(Compute(Load, Some(AT_LITERAL), Multi)),
    Some(Store(AT_LITERAL, Byte)),
    Some(Store(AT_LITERAL, Multi)),
    Some(Compute(Load, Some(AT_INDEXED), Byte)),
    Some(Compute(Load, Some(AT_INDEXED), Multi)),
    Some(Store(AT_INDEXED, Byte)),
    Some(Store(AT_INDEXED, Multi)),
    // B8
    Some(Compute(Load, Some(AT_LITERAL_PAIR), Byte)),
    Some(Compute(Load, Some(AT_LITERAL_PAIR), Multi)),
    Some(Store(AT_LITERAL_PAIR, Byte)),
    Some(Store(AT_LITERAL_PAIR, Multi)),
    Some(Compute(Load, Some(AT_INDEXED_PAIR), Byte)),
    Some(Compute(Load, Some(AT_INDEXED_PAIR), Multi)),
    Some(Store(AT_INDEXED_PAIR, Byte)),
    Some(Store(AT_INDEXED_PAIR, Multi)),
    // C0
    Some(Compute(Compare, Some(REGISTERS), Byte)),
    Some(Compute(Compare, Some(REGISTERS), Multi)),
    Some(Compute(Add, Some(REGISTERS), Byte)),
    Some(Compute(Add, Some(REGISTERS), Multi)),
    Some(Compute(Subtract, Some(REGISTERS), Byte)),
    Some(Compute(Subtract, Some(REGISTERS), Multi)),
    Some(Call(Base::Indexed)),
    Some(Compute(And, Some(REGISTERS), Multi)),
    // C8
    Some(Compute(Compare, Some(IMMEDIATE), Byte)),
    Some(Compute(Compare, Some(IMMEDIATE), Multi)),
    Some(Compute(Add, Some(IMMEDIATE), Byte)),
    Some(Compute(Add, Some(IMMEDIATE), Multi)),
    Some(Compute(Subtract, Some(IMMEDIATE), Byte)),
    Some(Compute(Subtract, Some(IMMEDIATE), Multi)),
    Some(Call(Base::Literal)),
    Some(Compute(And, Some(IMMEDIATE), Multi)),
    // D0
    Some(Compute(Compare, Some(AT_LITERAL), Byte)),
    Some(Compute(Compare, Some(AT_LITERAL), Multi)),
    Some(Compute(Add, Some(AT_LITERAL), Byte)),
    Some(Compute(Add, Some(AT_LITERAL), Multi)),
    Some(Compute(Subtract, Some(AT_LITERAL), Byte)),
    Some(Compute(Subtract, Some(AT_LITERAL), Multi)),
    None,
    Some(Compute(And, Some(AT_LITERAL), Multi)),
    // D8
    Some(Compute(Compare, Some(AT_REGISTER), Byte)),
    Some(Compute(Compare, Some(AT_REGISTER), Multi)),
    Some(Compute(Add, Some(AT_REGISTER), Byte)),
    Some(Compute(Add, Some(AT_REGISTER), Multi)),
    Some(Compute(Subtract, Some(AT_REGISTER), Byte)),
    Some(Compute(Subtract, Some(AT_REGISTER), Multi)),
    None,
    Some(Compute(And, Some(AT_REGISTER), Multi)),
    // E0
    Some(Compute(Load, Some(STACK_UP), Byte)),
    Some(Compute(Load, Some(STACK_UP), Multi)),
    Some(Compute(Load, Some(STACK_DOWN), Byte)),
    Some(Compute(Load, Some(STACK_DOWN), Multi)),
    Some(Store(STACK_UP, Byte)),
    Some(Store(STACK_UP, Multi)),
    Some(Store(STACK_DOWN, Byte)),
    Some(Store(STACK_DOWN, Multi)),
    // E8
    Some(Compute(Load, Some(STACK_UP_PAIR), Byte)),
    Some(Compute(Load, Some(STACK_UP_PAIR), Multi)),
    Some(Compute(Load, Some(STACK_DOWN_PAIR), Byte)),
    Some(Compute(Load, Some(STACK_DOWN_PAIR), Multi)),
    Some(Store(STACK_UP_PAIR, Byte)),
    Some(Store(STACK_UP_PAIR, Multi)),
    Some(Store(STACK_DOWN_PAIR, Byte)),
    Some(Store(STACK_DOWN_PAIR, Multi)),
    // F0
    Some(Jump(Condition::Always)),
    Some(Jump(Condition::NoOverflow)),
    Some(Jump(Condition::Odd)),
    Some(Jump(Condition::Even)),
    Some(Jump(Condition::Negative)),
    Some(Jump(Condition::Positive)),
    Some(Jump(Condition::NotZero)),
    Some(Jump(Condition::Zero)),
    // F8
    Some(Jump(Condition::ENotZero)),
    Some(Jump(Condition::EZero)),
    Some(Jump(Condition::NoCarry)),
    Some(Jump(Condition::Carry)),
    Some(Jump(Condition::LeftZero)),
    Some(Jump(Condition::LeftNotZero)),
    Some(Jump(Condition::RightZero)),
    Some(Jump(Condition::RightNotZero)),
];
