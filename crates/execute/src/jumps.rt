// Jumps.
ghost use Rattle.std.specs.Prelude.{◌≡◌};
ghost use Rattle.byte_rows.specs.Short.{bytes_of};
ghost use Rattle.registers.specs.Model.{state_of};
ghost use Rattle.execute.specs.Conditions.{met, jumped};
ghost use Rattle.execute.specs.Instructions.{jumped_to};

use byte_rows::Row;
use decode::Condition;
use registers::Cpu;

// Whether a jump is taken. It looks at single bits where they stand, as they were written.
#[inline(always)]
fn is_met(condition: Condition, cpu: &Cpu) -> bool
    ensures { result ≡ met condition (state_of cpu.now).status (state_of cpu.now).e }
{
    match condition {
        Condition::Always => true,
        Condition::NoOverflow => !cpu.status.ovf,
        Condition::Odd => cpu.status.lsb,
        Condition::Even => !cpu.status.lsb,
        Condition::Negative => cpu.status.msb != cpu.status.ovf,
        Condition::Positive => cpu.status.msb == cpu.status.ovf,
        Condition::NotZero => !cpu.status.z,
        Condition::Zero => cpu.status.z,
        Condition::ENotZero => cpu.e != 0,
        Condition::EZero => cpu.e == 0,
        Condition::NoCarry => !cpu.status.cy,
        Condition::Carry => cpu.status.cy,
        Condition::LeftZero => cpu.status.ldz,
        Condition::LeftNotZero => !cpu.status.ldz,
        Condition::RightZero => cpu.status.rdz,
        Condition::RightNotZero => !cpu.status.rdz,
    }
}

// Where a jump goes from the address after its offset, which is a signed byte.
#[inline(always)]
fn target(pc: u16, offset: u8) -> u16
    ensures { result ≡ jumped pc offset }
{
    pc.wrapping_add_signed(i16::from(offset.cast_signed()))
}

// Jumps by the byte after the code, if the condition is met; nothing but the program counter changes.
#[inline(always)]
pub fn jump(cpu: &mut Cpu, condition: Condition, literal: &Row)
    ensures { state_of cpu.new ≡ jumped_to condition (state_of cpu.old) (bytes_of literal.now) }
{
    if is_met(condition, cpu) {
        let to = target(cpu.pc(), literal.first());
        cpu.set_pair(4, to);
    }
}
