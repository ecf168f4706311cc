// Subroutine jumps and returns.
ghost use Rattle.std.specs.Prelude.{◌≡◌};
ghost use Rattle.byte_rows.specs.Short.{bytes_of};
ghost use Rattle.decode.specs.declared.instruction.Control.TheVariants.{Return as ReturnCode};
ghost use Rattle.registers.specs.Model.{state_of};
ghost use Rattle.reading.specs.Readings.{ReadsBy};
ghost use Rattle.reading.specs.Trees.{map_ok};
ghost use Rattle.execute.specs.Instructions.{called, control_tree};
ghost use Rattle.execute.specs.Models.{plan_of, if_ok};
ghost use Rattle.execute.specs.Plans.{settled};

use crate::executed::Executed;
use addressing::{base_address, move_pair};
use bus::Bus;
use byte_rows::Row;
use decode::{Base, Form};
use reading::{BusReader, Fault};
use registers::Cpu;

// Jumps to a subroutine: the program counter is stored at the return pointer, which is raised by 2. The form says how far a
// stack pointer moves, and no subroutine is called through one.
#[inline(always)]
pub fn call<B: Bus>(
    reader: &BusReader<B>,
    cpu: &mut Cpu,
    base: Base,
    literal: &Row,
) -> Result<Executed, Fault>
    ensures outcome { ReadsBy B.Bus.meaning reader.now (settled (called base (state_of cpu.old) (bytes_of literal.now))) (map_ok (plan_of (state_of cpu.new)) result) reader.now }
    ensures refused { state_of cpu.new ≡ if_ok result (state_of cpu.new) (state_of cpu.old) }
{
    let at = cpu.pair(6);
    let [low, high] = cpu.pc().to_le_bytes();
    let address = base_address(cpu, base, false, Form::Byte, literal);
    reader.inquire(at, 2)?;
    move_pair(cpu, base, false, Form::Byte, literal);
    cpu.set_pair(6, at.wrapping_add(2));
    cpu.set_pair(4, address);
    Ok(Executed {
        at,
        bytes: Row::new([low, high, 0, 0, 0, 0, 0, 0], 2),
        ..Executed::still(1 + literal.count())
    })
}

// Returns from a subroutine.
#[inline(always)]
pub fn return_back<B: Bus>(reader: &mut BusReader<B>, cpu: &mut Cpu) -> Result<Executed, Fault>
    ensures outcome { ReadsBy B.Bus.meaning reader.old (control_tree ReturnCode (state_of cpu.old)) (map_ok (plan_of (state_of cpu.new)) result) reader.new }
    ensures refused { state_of cpu.new ≡ if_ok result (state_of cpu.new) (state_of cpu.old) }
{
    let at = cpu.pair(6).wrapping_sub(2);
    let address = reader.pair(at)?;
    cpu.set_pair(6, at);
    cpu.set_pair(4, address);
    Ok(Executed {
        returns: true,
        ..Executed::still(1)
    })
}
