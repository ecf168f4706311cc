// Refused rings: with what, and that they change nothing.
use crate::exchange::{Exchange, RAM_END, VECTOR, begun};
use crate::same;
use bus::{BusRefusal, Cause};
use noninterference::{Refusal, StepFault};
use reading::Fault;
use std::process::Abort;
use std::test::Fail;

fn ready(rt: &(impl Abort + AllocGlobal), return_pointer: u16) -> Result<Exchange, Fail> {
    begun(rt, &[0x88], &[0x9E], return_pointer)
}

fn refused(address: u16, cause: Cause, depth: u8) -> StepFault {
    StepFault::Instruction(Fault::Bus {
        address,
        refusal: BusRefusal { cause, depth },
    })
}

// A ring of the vector is refused with the fault, of that number, at the place.
fn try_ring(
    rt: &impl Abort,
    exchange: &mut Exchange,
    place: u16,
    vector: u16,
    fault: StepFault,
    number: u8,
) {
    let refusal = Refusal {
        place,
        fault,
        told: None,
    };
    same(rt, vector, exchange.ring(vector), Err(refusal));
    same(rt, number, fault.number(), number);
}

// A return pointer, a vector, the refusal of that ring, and its number.
fn try_case(
    rt: &(impl Abort + AllocGlobal),
    return_pointer: u16,
    vector: u16,
    fault: StepFault,
    number: u8,
) -> Result<(), Fail> {
    let mut exchange = ready(rt, return_pointer)?;
    try_ring(rt, &mut exchange, 256, vector, fault, number);
    same(rt, vector, &exchange, &ready(rt, return_pointer)?);
    Ok(())
}

#[test]
fn refused_rings(rt: HostRuntime) -> Result<(), Fail> {
    let no_byte = refused(RAM_END, Cause::NoByte, 1);
    try_case(&rt, 1024, VECTOR + 1, StepFault::OddVector, 2)?;
    // The handler's address: no byte there.
    try_case(&rt, 1024, RAM_END, no_byte, 4)?;
    // The first store, then the second.
    try_case(&rt, 254, VECTOR, refused(254, Cause::Guarded, 0), 6)?;
    try_case(&rt, 255, VECTOR, refused(255, Cause::Guarded, 0), 6)?;
    try_case(&rt, 59_999, VECTOR, no_byte, 4)?;
    // Of several reasons the first counts.
    try_case(&rt, 254, VECTOR + 1, StepFault::OddVector, 2)?;
    try_case(&rt, 254, RAM_END, no_byte, 4)
}

// Within a visit a ring is refused, first for an odd vector.
#[test]
fn visit_open(rt: HostRuntime) -> Result<(), Fail> {
    let mut exchange = ready(&rt, 1024)?;
    exchange.rung(&rt);
    try_ring(&rt, &mut exchange, 768, VECTOR, StepFault::VisitOpen, 3);
    try_ring(&rt, &mut exchange, 768, VECTOR + 1, StepFault::OddVector, 2);
    Ok(())
}
