// Stores of the data.
ghost use Rattle.std.specs.Prelude.{◌≡◌};
ghost use Rattle.byte_rows.specs.Short.{bytes_of};
ghost use Rattle.registers.specs.Model.{state_of};
ghost use Rattle.reading.specs.Readings.{ReadsBy};
ghost use Rattle.reading.specs.Trees.{map_ok};
ghost use Rattle.execute.specs.Instructions.{with_seen, stored_memory, stored_registers, store_tree};
ghost use Rattle.execute.specs.Models.{plan_of, if_ok};
ghost use Rattle.execute.specs.Plans.{settled};

use crate::computing::{move_by, see};
use crate::executed::Executed;
use addressing::{address_of, base_address};
use bus::Bus;
use byte_rows::Row;
use decode::{Form, Mode};
use reading::{BusReader, Fault};
use registers::Cpu;

// Sees the data, and clears CY and OVF.
#[inline(always)]
fn see_data(cpu: &mut Cpu, row: &Row)
    ensures { state_of cpu.new ≡ with_seen (state_of cpu.old) (bytes_of row.now) }
{
    see(cpu, false, false, row);
}

// Stores the data to an address that the mode gave.
#[inline(always)]
fn store_data<B: Bus>(
    reader: &BusReader<B>,
    cpu: &mut Cpu,
    mode: Mode,
    form: Form,
    literal: &Row,
    at: u16,
) -> Result<Executed, Fault>
    ensures outcome { ReadsBy B.Bus.meaning reader.now (settled (stored_memory mode form (state_of cpu.old) (bytes_of literal.now) at)) (map_ok (plan_of (state_of cpu.new)) result) reader.now }
    ensures refused { state_of cpu.new ≡ if_ok result (state_of cpu.new) (state_of cpu.old) }
{
    let bytes = cpu.row(cpu.drp, form);
    reader.inquire(at, bytes.len())?;
    move_by(cpu, Some(mode), form, literal);
    see_data(cpu, &bytes);
    Ok(Executed {
        at,
        bytes,
        ..Executed::still(1 + literal.count())
    })
}

// Stores the data to the registers from ARP on.
#[inline(always)]
fn store_registers(cpu: &mut Cpu, form: Form, literal: &Row) -> Executed
    ensures { plan_of (state_of cpu.new) result ≡ stored_registers form (state_of cpu.old) (bytes_of literal.now) }
{
    let bytes = cpu.row(cpu.drp, form);
    cpu.set_row(cpu.arp, bytes);
    see_data(cpu, &bytes);
    Executed::still(1 + literal.count())
}

// Stores the data where the mode says.
#[inline(always)]
pub fn store<B: Bus>(
    reader: &mut BusReader<B>,
    cpu: &mut Cpu,
    mode: Mode,
    form: Form,
    literal: &Row,
    after: u16,
) -> Result<Executed, Fault>
    ensures outcome { ReadsBy B.Bus.meaning reader.old (store_tree mode form (state_of cpu.old) after (bytes_of literal.now)) (map_ok (plan_of (state_of cpu.new)) result) reader.new }
    ensures refused { state_of cpu.new ≡ if_ok result (state_of cpu.new) (state_of cpu.old) }
{
    match mode {
        Mode::Register => Ok(store_registers(cpu, form, literal)),
        Mode::Immediate => store_data(reader, cpu, mode, form, literal, after),
        Mode::Memory { base, indirect } => {
            let at = base_address(cpu, base, indirect, form, literal);
            let at = address_of(reader, indirect, at)?;
            store_data(reader, cpu, mode, form, literal, at)
        }
    }
}
