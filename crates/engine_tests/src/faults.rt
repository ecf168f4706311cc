// Each fault of a step or a ring, with its number and detail.
use crate::same;
use alu::NotDecimal;
use bus::{BusRefusal, Cause};
use noninterference::{Description, Detail, StepFault};
use reading::Fault;

fn bus(cause: Cause) -> StepFault {
    StepFault::from(Fault::Bus {
        address: 300,
        refusal: BusRefusal { cause, depth: 2 },
    })
}

#[test]
fn numbers_and_details(rt: HostRuntime) {
    let at = Detail::Bus {
        address: 300,
        depth: 2,
    };
    let cases = [
        (StepFault::Sheet, 1, Detail::None),
        (StepFault::OddVector, 2, Detail::None),
        (StepFault::VisitOpen, 3, Detail::None),
        (bus(Cause::NoByte), 4, at),
        (bus(Cause::RomStore), 5, at),
        (bus(Cause::Guarded), 6, at),
        (bus(Cause::OutsideShadow), 7, at),
        (Fault::Illegal { code: 0xD6 }.into(), 8, Detail::Code(0xD6)),
        (
            Fault::NotDecimal(NotDecimal { index: 9 }).into(),
            9,
            Detail::Index(9),
        ),
    ];
    for (fault, number, detail) in cases {
        same(
            &rt,
            number,
            fault.describe(),
            Description { number, detail },
        );
        same(&rt, number, fault.number(), number);
    }
}
