// Carries out an instruction.
ghost use Rattle.std.specs.Prelude.{◌≡◌, ◌+◌, ◌%◌};
ghost use Rattle.registers.specs.Model.{state_of};
ghost use Rattle.registers.specs.Rows.{with_pair};
ghost use Rattle.registers.specs.State.{pc_of};
ghost use Rattle.reading.specs.Readings.{ReadsBy};
ghost use Rattle.reading.specs.Trees.{bind, map_ok};
ghost use Rattle.addressing.specs.Fetching.{coded_tree};
ghost use Rattle.execute.specs.Instructions.{coded_by, fetched_tree, plan_tree};
ghost use Rattle.execute.specs.Models.{plan_of, if_ok, but_for_the_place};
ghost use Rattle.execute.specs.States.{pointed as pointed_by};

use crate::calls::call;
use crate::computing::compute;
use crate::controls::control;
use crate::executed::Executed;
use crate::jumps::jump;
use crate::storing::store;
use addressing::fetch_literal;
use bus::Bus;
use decode::{Instruction, Source, decode};
use reading::{BusReader, Fault};
use registers::Cpu;

// What ARP or DRP is set to.
#[inline(always)]
fn pointed(cpu: &Cpu, source: Source) -> u8
    ensures { result ≡ pointed_by source (state_of cpu.now) }
{
    match source {
        Source::Number(n) => n % 64,
        Source::R0 => cpu.register(0) % 64,
    }
}

// Moves the program counter past an instruction that is its code alone.
#[inline(always)]
fn pass_code(cpu: &mut Cpu)
    ensures { state_of cpu.new ≡ with_pair (state_of cpu.old) 4 ((pc_of (state_of cpu.old) + 1) % 65536) }
{
    cpu.set_pair(4, cpu.pc().wrapping_add(1));
}

// Carries out an instruction whose code is at the program counter. A refusal leaves all as it was but the program counter.
#[inline(always)]
#[tactic(auto, using(crate::proofs::Putting::put_back, crate::proofs::Putting::put_again))]
fn perform<B: Bus>(
    reader: &mut BusReader<B>,
    cpu: &mut Cpu,
    instruction: Instruction,
) -> Result<Executed, Fault>
    ensures outcome { ReadsBy B.Bus.meaning reader.old (coded_by instruction (state_of cpu.old)) (map_ok (plan_of (state_of cpu.new)) result) reader.new }
    ensures refused { but_for_the_place result (state_of cpu.new) (state_of cpu.old) ≡ state_of cpu.old }
{
    match instruction {
        Instruction::SetArp(source) => {
            pass_code(cpu);
            cpu.arp = pointed(cpu, source);
            Ok(Executed::still(1))
        }
        Instruction::SetDrp(source) => {
            pass_code(cpu);
            cpu.drp = pointed(cpu, source);
            Ok(Executed::still(1))
        }
        Instruction::Compute(op, mode, form) => {
            let literal = fetch_literal(reader, cpu, instruction)?;
            compute(reader, cpu, op, mode, form, &literal)
        }
        Instruction::Store(mode, form) => {
            let after = cpu.pc().wrapping_add(1);
            let literal = fetch_literal(reader, cpu, instruction)?;
            store(reader, cpu, mode, form, &literal, after)
        }
        Instruction::Control(code) => {
            pass_code(cpu);
            control(reader, cpu, code)
        }
        Instruction::Call(base) => {
            let literal = fetch_literal(reader, cpu, instruction)?;
            call(reader, cpu, base, &literal)
        }
        Instruction::Jump(condition) => {
            let literal = fetch_literal(reader, cpu, instruction)?;
            jump(cpu, condition, &literal);
            Ok(Executed::still(2))
        }
    }
}

// Carries out the instruction of a code at the program counter.
#[inline(always)]
fn perform_code<B: Bus>(
    reader: &mut BusReader<B>,
    cpu: &mut Cpu,
    code: u8,
) -> Result<Executed, Fault>
    ensures outcome { ReadsBy B.Bus.meaning reader.old (bind (coded_tree code (state_of cpu.old)) (fetched_tree (state_of cpu.old))) (map_ok (plan_of (state_of cpu.new)) result) reader.new }
    ensures refused { but_for_the_place result (state_of cpu.new) (state_of cpu.old) ≡ state_of cpu.old }
{
    match decode(code) {
        Some(instruction) => perform(reader, cpu, instruction),
        None => Err(Fault::Illegal { code }),
    }
}

// Fetches the instruction at the program counter and carries it out, up to its stores, which are all inquired about. A refusal
// changes nothing, since it puts the program counter back.
#[inline(always)]
pub fn carry_out<B: Bus>(reader: &mut BusReader<B>, cpu: &mut Cpu) -> Result<Executed, Fault>
    ensures outcome { ReadsBy B.Bus.meaning reader.old (plan_tree (state_of cpu.old)) (map_ok (plan_of (state_of cpu.new)) result) reader.new }
    ensures refused { state_of cpu.new ≡ if_ok result (state_of cpu.new) (state_of cpu.old) }
{
    let code = reader.byte(cpu.pc())?;
    let place = [cpu.register(4), cpu.register(5)];
    match perform_code(reader, cpu, code) {
        Ok(executed) => Ok(executed),
        Err(fault) => {
            cpu.write_row(4, &place);
            Err(fault)
        }
    }
}
