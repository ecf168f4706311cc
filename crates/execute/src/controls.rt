// Instructions of one byte without an operand.
ghost use Rattle.std.specs.Prelude.{◌≡◌};
ghost use Rattle.decode.specs.declared.instruction.Control.TheVariants.{SaveStatus as SaveCode, RestoreStatus as RestoreCode};
ghost use Rattle.registers.specs.Model.{state_of};
ghost use Rattle.reading.specs.Readings.{ReadsBy};
ghost use Rattle.reading.specs.Trees.{map_ok};
ghost use Rattle.execute.specs.Instructions.{control_tree};
ghost use Rattle.execute.specs.Models.{plan_of, if_ok};

use crate::calls::return_back;
use crate::executed::Executed;
use crate::saving::{restore, saved_bytes};
use bus::Bus;
use decode::Control;
use reading::{BusReader, Fault};
use registers::Cpu;

// Stores the pointers and the status at the return pointer, which is raised by 3.
#[inline(always)]
fn save_status<B: Bus>(reader: &BusReader<B>, cpu: &mut Cpu) -> Result<Executed, Fault>
    ensures outcome { ReadsBy B.Bus.meaning reader.now (control_tree SaveCode (state_of cpu.old)) (map_ok (plan_of (state_of cpu.new)) result) reader.now }
    ensures refused { state_of cpu.new ≡ if_ok result (state_of cpu.new) (state_of cpu.old) }
{
    let at = cpu.pair(6);
    let bytes = saved_bytes(cpu);
    reader.inquire(at, 3)?;
    cpu.set_pair(6, at.wrapping_add(3));
    Ok(Executed {
        at,
        bytes,
        ..Executed::still(1)
    })
}

// Takes back the pointers and the status from below the return pointer, which is lowered by 3.
#[inline(always)]
fn restore_status<B: Bus>(reader: &mut BusReader<B>, cpu: &mut Cpu) -> Result<Executed, Fault>
    ensures outcome { ReadsBy B.Bus.meaning reader.old (control_tree RestoreCode (state_of cpu.old)) (map_ok (plan_of (state_of cpu.new)) result) reader.new }
    ensures refused { state_of cpu.new ≡ if_ok result (state_of cpu.new) (state_of cpu.old) }
{
    let at = cpu.pair(6).wrapping_sub(3);
    let mut bytes = [0; 3];
    reader.row(at, &mut bytes)?;
    cpu.set_pair(6, at);
    restore(cpu, bytes);
    Ok(Executed::still(1))
}

// BIN, BCD, SAD, DCE, ICE, CLE, RTN, PAD.
#[inline(always)]
pub fn control<B: Bus>(
    reader: &mut BusReader<B>,
    cpu: &mut Cpu,
    control: Control,
) -> Result<Executed, Fault>
    ensures outcome { ReadsBy B.Bus.meaning reader.old (control_tree control (state_of cpu.old)) (map_ok (plan_of (state_of cpu.new)) result) reader.new }
    ensures refused { state_of cpu.new ≡ if_ok result (state_of cpu.new) (state_of cpu.old) }
{
    match control {
        Control::Binary => {
            cpu.status.dcm = false;
            Ok(Executed::still(1))
        }
        Control::Decimal => {
            cpu.status.dcm = true;
            Ok(Executed::still(1))
        }
        Control::SaveStatus => save_status(reader, cpu),
        Control::DecrementE => {
            cpu.e = (cpu.e + 15) % 16;
            Ok(Executed::still(1))
        }
        Control::IncrementE => {
            cpu.e = (cpu.e + 1) % 16;
            Ok(Executed::still(1))
        }
        Control::ClearE => {
            cpu.e = 0;
            Ok(Executed::still(1))
        }
        Control::Return => return_back(reader, cpu),
        Control::RestoreStatus => restore_status(reader, cpu),
    }
}
