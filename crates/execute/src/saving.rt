// The pointers and the status as three bytes.
ghost use Rattle.std.specs.Prelude.{◌≡◌, ◌+◌, ◌*◌, ◌≤◌};
ghost use Rattle.byte_rows.specs.Short.{bytes_of};
ghost use Rattle.registers.specs.Bits.{bit_of};
ghost use Rattle.registers.specs.Model.{state_of};
ghost use Rattle.execute.specs.States.{saved, restored_status, restored};

use byte_rows::Row;
use registers::{Cpu, Status};

// Six bits of a pointer, and two of the status above them.
#[inline(always)]
fn pointer_byte(pointer: u8, low: bool, high: bool) -> u8
    requires { pointer ≤ 63 }
    ensures { result ≡ pointer + 64 * bit_of low + 128 * bit_of high }
{
    pointer + 64 * u8::from(low) + 128 * u8::from(high)
}

// Four bits of the status.
#[inline(always)]
fn status_nibble(a: bool, b: bool, c: bool, d: bool) -> u8
    ensures { result ≡ bit_of a + 2 * bit_of b + 4 * bit_of c + 8 * bit_of d }
{
    u8::from(a) + 2 * u8::from(b) + 4 * u8::from(c) + 8 * u8::from(d)
}

// What SAD stores.
#[inline(always)]
pub fn saved_bytes(cpu: &Cpu) -> Row
    ensures { bytes_of result ≡ saved (state_of cpu.now) }
{
    let s = cpu.status;
    let first = pointer_byte(cpu.arp, s.cy, s.ovf);
    let second = pointer_byte(cpu.drp, s.dcm, s.z);
    let third = status_nibble(s.lsb, s.msb, s.ldz, s.rdz);
    Row::new([first, second, third, 0, 0, 0, 0, 0], 3)
}

#[inline(always)]
fn status_of(first: u8, second: u8, third: u8) -> Status
    ensures { result ≡ restored_status first second third }
{
    Status {
        dcm: second / 64 % 2 == 1,
        cy: first / 64 % 2 == 1,
        ovf: first / 128 % 2 == 1,
        lsb: third % 2 == 1,
        msb: third / 2 % 2 == 1,
        z: second / 128 % 2 == 1,
        ldz: third / 4 % 2 == 1,
        rdz: third / 8 % 2 == 1,
    }
}

// Takes back what SAD stored; registers and E stay.
#[inline(always)]
pub fn restore(cpu: &mut Cpu, bytes: [u8; 3])
    ensures { state_of cpu.new ≡ restored (state_of cpu.old) bytes }
{
    let [first, second, third] = bytes;
    cpu.arp = first % 64;
    cpu.drp = second % 64;
    cpu.status = status_of(first, second, third);
}
