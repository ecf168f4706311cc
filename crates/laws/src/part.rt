// The parts of the processor that an instruction may change.
ghost use Rattle.std.specs.Prelude.{◌≡◌, true, not};
ghost use Rattle.registers.specs.Model.{state_of};
ghost use Rattle.laws.specs.Parts.{in_row, base_moves, mode_moves, names, changes_e, may_change as may_change_in, Leaves};

use alu::Operation;
use decode::{Base, Control, Instruction, Mode};
use execute::keeps;
use registers::{Cpu, span};

// A part of the processor: each register for itself.
#[derive(Clone, Copy, PartialEq, Eq, Debug)]
pub enum Part {
    Register(u8),
    Arp,
    Drp,
    // The status bit DCM.
    Mode,
    // The other seven status bits.
    Conditions,
    E,
}

// Whether register x is one of the n registers from k on.
fn in_row(k: u8, n: usize, x: u8) -> bool
    ensures { result ≡ in_row k n x }
{
    usize::from((x % 64 + (64 - k % 64)) % 64) < n
}

fn base_moves(base: Base, arp: u8, x: u8) -> bool
    ensures { result ≡ base_moves base arp x }
{
    match base {
        Base::Register | Base::Literal => false,
        Base::Indexed => in_row(2, 2, x),
        Base::StackUp | Base::StackDown => in_row(arp, 2, x),
    }
}

fn mode_moves(mode: Option<Mode>, arp: u8, x: u8) -> bool
    ensures { result ≡ mode_moves mode arp x }
{
    match mode {
        Some(Mode::Memory { base, .. }) => base_moves(base, arp, x),
        Some(Mode::Register | Mode::Immediate) | None => false,
    }
}

// Whether the instruction names register x as data, as the place of a store, as a pair it moves or as the return pointer.
fn names(instruction: Instruction, arp: u8, drp: u8, x: u8) -> bool
    ensures { result ≡ names instruction arp drp x }
{
    match instruction {
        Instruction::Compute(op, mode, form) => {
            (keeps(op) && in_row(drp, span(form, drp), x)) || mode_moves(mode, arp, x)
        }
        Instruction::Store(Mode::Register, form) => in_row(arp, span(form, drp), x),
        Instruction::Store(mode, _) => mode_moves(Some(mode), arp, x),
        Instruction::Control(Control::SaveStatus | Control::Return | Control::RestoreStatus) => {
            in_row(6, 2, x)
        }
        Instruction::Call(base) => in_row(6, 2, x) || base_moves(base, arp, x),
        Instruction::SetArp(_)
        | Instruction::SetDrp(_)
        | Instruction::Control(_)
        | Instruction::Jump(_) => false,
    }
}

fn changes_e(instruction: Instruction, dcm: bool) -> bool
    ensures { result ≡ changes_e instruction dcm }
{
    match instruction {
        Instruction::Compute(op, ..) => {
            let shifts = matches!(
                op,
                Operation::ExtendedLeft
                    | Operation::ExtendedRight
                    | Operation::LogicalLeft
                    | Operation::LogicalRight
            );
            shifts && dcm
        }
        Instruction::Control(Control::DecrementE | Control::IncrementE | Control::ClearE) => true,
        _ => false,
    }
}

fn may_change(instruction: Instruction, cpu: &Cpu, part: Part) -> bool
    ensures { result ≡ may_change_in instruction (state_of cpu.now) part }
{
    match part {
        Part::Register(k) => in_row(4, 2, k) || names(instruction, cpu.arp, cpu.drp, k),
        Part::Arp => matches!(
            instruction,
            Instruction::SetArp(_) | Instruction::Control(Control::RestoreStatus)
        ),
        Part::Drp => matches!(
            instruction,
            Instruction::SetDrp(_) | Instruction::Control(Control::RestoreStatus)
        ),
        Part::Mode => matches!(
            instruction,
            Instruction::Control(Control::Binary | Control::Decimal | Control::RestoreStatus)
        ),
        Part::Conditions => matches!(
            instruction,
            Instruction::Compute(..)
                | Instruction::Store(..)
                | Instruction::Control(Control::RestoreStatus)
        ),
        Part::E => changes_e(instruction, cpu.status.dcm),
    }
}

// Whether an instruction that a processor is about to carry out leaves a part of it as it was, on every bus.
#[tactic(auto, using(crate::proofs::Left::leaves))]
pub fn leaves(instruction: Instruction, cpu: &Cpu, part: Part) -> bool
    ensures value { result ≡ not (may_change_in instruction (state_of cpu.now) part) }
    ensures stays { result ≡ true → Leaves instruction (state_of cpu.now) part }
{
    !may_change(instruction, cpu, part)
}
