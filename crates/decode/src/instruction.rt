// Instructions.
use alu::Operation;
use registers::Form;

// Where an operand in memory, or a store, gets its address from.
#[derive(Clone, Copy, PartialEq, Eq, Debug)]
pub enum Base {
    // The pair at ARP.
    Register,
    // The two bytes after the code.
    Literal,
    // Both added; the sum is written to R2-R3.
    Indexed,
    // The pair at ARP, which is raised afterwards.
    StackUp,
    // The pair at ARP, which is lowered first.
    StackDown,
}

// Where the operand is, or where a store goes.
#[derive(Clone, Copy, PartialEq, Eq, Debug)]
pub enum Mode {
    // The registers from ARP on.
    Register,
    // The bytes after the code.
    Immediate,
    // At the base, or at the pair that is found there.
    Memory { base: Base, indirect: bool },
}

// What ARP or DRP is set to: a number, or what R0 holds.
#[derive(Clone, Copy, PartialEq, Eq, Debug)]
pub enum Source {
    Number(u8),
    R0,
}

// BIN, BCD, SAD, DCE, ICE, CLE, RTN, PAD.
#[derive(Clone, Copy, PartialEq, Eq, Debug)]
pub enum Control {
    Binary,
    Decimal,
    SaveStatus,
    DecrementE,
    IncrementE,
    ClearE,
    Return,
    RestoreStatus,
}

// When a jump is taken.
#[derive(Clone, Copy, PartialEq, Eq, Debug)]
pub enum Condition {
    Always,
    NoOverflow,
    Odd,
    Even,
    Negative,
    Positive,
    NotZero,
    Zero,
    ENotZero,
    EZero,
    NoCarry,
    Carry,
    LeftZero,
    LeftNotZero,
    RightZero,
    RightNotZero,
}

// LD and PO compute a load; ST and PU store. Some computations have no operand; a store and a call always have one.
#[derive(Clone, Copy, PartialEq, Eq, Debug)]
pub enum Instruction {
    SetArp(Source),
    SetDrp(Source),
    Compute(Operation, Option<Mode>, Form),
    Store(Mode, Form),
    Control(Control),
    Call(Base),
    Jump(Condition),
}
