// Operations on the data.
ghost use Rattle.std.specs.Prelude.{◌≡◌};
ghost use Rattle.byte_rows.specs.Short.{bytes_of};
ghost use Rattle.registers.specs.Model.{state_of};
ghost use Rattle.alu.specs.Seen.{seen};
ghost use Rattle.alu.specs.Words.{done_of};
ghost use Rattle.reading.specs.Readings.{ReadsBy};
ghost use Rattle.reading.specs.Trees.{map_ok};
ghost use Rattle.execute.specs.Instructions.{flags_of, keeps as keeps_row, moved_by, with_done, computed, compute_tree};
ghost use Rattle.execute.specs.States.{with_status};
ghost use Rattle.execute.specs.Models.{plan_of, if_ok};

use crate::executed::Executed;
use addressing::{move_pair, read_operand};
use alu::{Flags, Operation, Worked, operate_row};
use bus::Bus;
use byte_rows::Row;
use decode::{Form, Mode};
use reading::{BusReader, Fault};
use registers::{Cpu, Status};

// A test and a comparison leave only status and E.
#[inline(always)]
pub fn keeps(op: Operation) -> bool
    ensures { result ≡ keeps_row op }
{
    !matches!(op, Operation::Test | Operation::Compare)
}

// Moves the pair that the mode moves.
#[inline(always)]
pub fn move_by(cpu: &mut Cpu, mode: Option<Mode>, form: Form, literal: &Row)
    ensures { state_of cpu.new ≡ moved_by mode form (state_of cpu.old) (bytes_of literal.now) }
{
    if let Some(Mode::Memory { base, indirect }) = mode {
        move_pair(cpu, base, indirect, form, literal);
    }
}

// What an operation finds of the status and E. The status is taken bit by bit, as it was written: its bytes taken together would
// have to wait for all of them.
#[inline(always)]
fn flags(cpu: &Cpu) -> Flags
    ensures { result ≡ flags_of (state_of cpu.now) }
{
    let Status {
        dcm,
        cy,
        ovf,
        lsb,
        msb,
        z,
        ldz,
        rdz,
    } = cpu.status;
    Flags {
        status: Status {
            dcm,
            cy,
            ovf,
            lsb,
            msb,
            z,
            ldz,
            rdz,
        },
        e: cpu.e,
    }
}

// Sets the status by a row. Decimal mode alone stays, so that each other bit is written out, at its place.
#[inline(always)]
pub fn see(cpu: &mut Cpu, cy: bool, ovf: bool, row: &Row)
    ensures { state_of cpu.new ≡ with_status (state_of cpu.old) (seen (state_of cpu.old).status cy ovf (bytes_of row.now)) }
{
    let first = row.first();
    let last = row.last();
    cpu.status.cy = cy;
    cpu.status.ovf = ovf;
    cpu.status.lsb = first % 2 == 1;
    cpu.status.msb = last >= 128;
    cpu.status.z = row.is_zero();
    cpu.status.ldz = last < 16;
    cpu.status.rdz = first % 16 == 0;
}

// Writes what an operation left.
#[inline(always)]
fn write_done(cpu: &mut Cpu, op: Operation, worked: Worked)
    ensures { state_of cpu.new ≡ with_done op (state_of cpu.old) (done_of (flags_of (state_of cpu.old)) worked) }
{
    if keeps(op) {
        cpu.set_row(cpu.drp, worked.row);
    }
    see(cpu, worked.cy, worked.ovf, &worked.row);
    cpu.e = worked.e % 16;
}

// Works on the data with the operand that was read, and writes what comes of them over the pair that the mode moves.
#[inline(always)]
fn compute_with(
    cpu: &mut Cpu,
    op: Operation,
    mode: Option<Mode>,
    form: Form,
    literal: &Row,
    operand: &Row,
) -> Result<Executed, Fault>
    ensures outcome { map_ok (plan_of (state_of cpu.new)) result ≡ computed op mode form (state_of cpu.old) (bytes_of literal.now) (bytes_of operand.now) }
    ensures refused { state_of cpu.new ≡ if_ok result (state_of cpu.new) (state_of cpu.old) }
{
    let data = cpu.row(cpu.drp, form);
    let worked = operate_row(op, flags(cpu), &data, operand).map_err(Fault::NotDecimal)?;
    move_by(cpu, mode, form, literal);
    write_done(cpu, op, worked);
    Ok(Executed::still(1 + literal.count()))
}

// Reads the operand, works on the data with it, and writes what comes of them.
#[inline(always)]
pub fn compute<B: Bus>(
    reader: &mut BusReader<B>,
    cpu: &mut Cpu,
    op: Operation,
    mode: Option<Mode>,
    form: Form,
    literal: &Row,
) -> Result<Executed, Fault>
    ensures outcome { ReadsBy B.Bus.meaning reader.old (compute_tree op mode form (state_of cpu.old) (bytes_of literal.now)) (map_ok (plan_of (state_of cpu.new)) result) reader.new }
    ensures refused { state_of cpu.new ≡ if_ok result (state_of cpu.new) (state_of cpu.old) }
{
    let operand = read_operand(reader, cpu, mode, form, literal)?;
    compute_with(cpu, op, mode, form, literal, &operand)
}
