// Reads the data and the operand of an instruction.
ghost use Rattle.std.specs.Prelude.{◌≤◌};
ghost use Rattle.byte_rows.specs.Short.{bytes_of};
ghost use Rattle.registers.specs.Model.{state_of};
ghost use Rattle.reading.specs.Readings.{ReadsBy, row_tree};
ghost use Rattle.reading.specs.Trees.{map_ok};
ghost use Rattle.addressing.specs.Operands.{memory_tree, operand_tree};

use crate::addresses::{address_of, base_address};
use bus::Bus;
use byte_rows::Row;
use decode::{Form, Mode};
use reading::{BusReader, Fault};
use registers::{Cpu, span};

// Reads n bytes one after another.
#[inline(always)]
fn read_each<B: Bus>(reader: &mut BusReader<B>, address: u16, n: usize) -> Result<Row, Fault>
    requires { n ≤ 8 }
    ensures { ReadsBy B.Bus.meaning reader.old (row_tree n address) (map_ok bytes_of result) reader.new }
{
    let mut bytes = [0; 8];
    reader.row(address, &mut bytes[..n])?;
    Ok(Row::new(bytes, n))
}

// Reads n bytes from the address on, upward.
#[inline(always)]
pub fn read_bytes<B: Bus>(reader: &mut BusReader<B>, address: u16, n: usize) -> Result<Row, Fault>
    requires { n ≤ 8 }
    ensures { ReadsBy B.Bus.meaning reader.old (row_tree n address) (map_ok bytes_of result) reader.new }
{
    match n {
        0 => Ok(Row::empty()),
        1 => {
            let byte = reader.byte(address)?;
            Ok(Row::of_word(u64::from(byte), 1))
        }
        _ => match reader.eight(address) {
            Some(bytes) => Ok(Row::new(bytes, n)),
            None => read_each(reader, address, n),
        },
    }
}

// Reads n bytes of memory, from the address on that the base gives.
#[inline(always)]
fn read_memory<B: Bus>(
    reader: &mut BusReader<B>,
    indirect: bool,
    base: u16,
    n: usize,
) -> Result<Row, Fault>
    requires { n ≤ 8 }
    ensures { ReadsBy B.Bus.meaning reader.old (memory_tree indirect base n) (map_ok bytes_of result) reader.new }
{
    let address = address_of(reader, indirect, base)?;
    read_bytes(reader, address, n)
}

// Reads the operand of an instruction that has these bytes after its code.
#[inline(always)]
pub fn read_operand<B: Bus>(
    reader: &mut BusReader<B>,
    cpu: &Cpu,
    mode: Option<Mode>,
    form: Form,
    literal: &Row,
) -> Result<Row, Fault>
    ensures { ReadsBy B.Bus.meaning reader.old (operand_tree mode form (state_of cpu.now) (bytes_of literal.now)) (map_ok bytes_of result) reader.new }
{
    let n = span(form, cpu.drp);
    match mode {
        None => Ok(Row::empty()),
        Some(Mode::Register) => Ok(cpu.row(cpu.arp, form)),
        Some(Mode::Immediate) => Ok(*literal),
        Some(Mode::Memory { base, indirect }) => {
            let at = base_address(cpu, base, indirect, form, literal);
            read_memory(reader, indirect, at, n)
        }
    }
}
