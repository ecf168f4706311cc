// Where an operand in memory, or a store, is.
ghost use Rattle.std.specs.Prelude.{◌≡◌};
ghost use Rattle.byte_rows.specs.Short.{bytes_of};
ghost use Rattle.registers.specs.Model.{state_of};
ghost use Rattle.reading.specs.Readings.{ReadsBy};
ghost use Rattle.addressing.specs.Addresses.{literal_pair, distance_of, base_of, with_moved, address_tree};

use bus::Bus;
use byte_rows::Row;
use decode::{Base, Form};
use reading::{BusReader, Fault};
use registers::{Cpu, span};

// The address in the bytes after the code.
#[inline(always)]
fn literal_pair(literal: &Row) -> u16
    ensures { result ≡ literal_pair (bytes_of literal.now) }
{
    literal.pair()
}

// How far a stack pointer moves.
#[inline(always)]
fn distance(indirect: bool, form: Form, drp: u8) -> u16
    ensures { result ≡ distance_of indirect form drp }
{
    if indirect { 2 } else { span(form, drp) as u16 }
}

// The base address, for an instruction that has these bytes after its code.
#[inline(always)]
pub fn base_address(cpu: &Cpu, base: Base, indirect: bool, form: Form, literal: &Row) -> u16
    ensures { result ≡ base_of base indirect form (state_of cpu.now) (bytes_of literal.now) }
{
    let pair = cpu.pair(cpu.arp);
    match base {
        Base::Register | Base::StackUp => pair,
        Base::Literal => literal_pair(literal),
        Base::Indexed => pair.wrapping_add(literal_pair(literal)),
        Base::StackDown => pair.wrapping_sub(distance(indirect, form, cpu.drp)),
    }
}

// Writes the pair that an instruction with this base moves; nothing else changes.
#[inline(always)]
pub fn move_pair(cpu: &mut Cpu, base: Base, indirect: bool, form: Form, literal: &Row)
    ensures { state_of cpu.new ≡ with_moved base indirect form (state_of cpu.old) (bytes_of literal.now) }
{
    let at = base_address(cpu, base, indirect, form, literal);
    match base {
        Base::Register | Base::Literal => {}
        Base::Indexed => cpu.set_pair(2, at),
        Base::StackUp => {
            let raised = at.wrapping_add(distance(indirect, form, cpu.drp));
            cpu.set_pair(cpu.arp, raised);
        }
        Base::StackDown => cpu.set_pair(cpu.arp, at),
    }
}

// The base itself, or the pair that is found there.
#[inline(always)]
pub fn address_of<B: Bus>(reader: &mut BusReader<B>, indirect: bool, at: u16) -> Result<u16, Fault>
    ensures { ReadsBy B.Bus.meaning reader.old (address_tree indirect at) result reader.new }
{
    if indirect { reader.pair(at) } else { Ok(at) }
}
