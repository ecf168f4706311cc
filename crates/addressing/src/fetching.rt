// Fetches what follows an instruction's code.
ghost use Rattle.std.specs.Prelude.{◌≡◌};
ghost use Rattle.registers.specs.Model.{state_of};
ghost use Rattle.reading.specs.Readings.{ReadsBy};
ghost use Rattle.reading.specs.Trees.{map_ok};
ghost use Rattle.addressing.specs.Fetching.{literal_tree};
ghost use Rattle.addressing.specs.Models.{with_literal, passed_if_ok};

use crate::lengths::count_literals;
use crate::operands::read_bytes;
use bus::Bus;
use byte_rows::Row;
use decode::Instruction;
use reading::{BusReader, Fault};
use registers::Cpu;

// Fetches the bytes after the code of an instruction at the program counter, which then moves past the instruction. A refusal
// leaves the processor as it was.
#[inline(always)]
pub fn fetch_literal<B: Bus>(
    reader: &mut BusReader<B>,
    cpu: &mut Cpu,
    instruction: Instruction,
) -> Result<Row, Fault>
    ensures outcome { ReadsBy B.Bus.meaning reader.old (literal_tree instruction (state_of cpu.old)) (map_ok (with_literal instruction) result) reader.new }
    ensures passed { state_of cpu.new ≡ passed_if_ok instruction result (state_of cpu.old) }
{
    let after = cpu.pc().wrapping_add(1);
    let count = count_literals(instruction, cpu.drp);
    let literal = read_bytes(reader, after, count)?;
    cpu.set_pair(4, after.wrapping_add(u16::from(literal.count())));
    Ok(literal)
}
