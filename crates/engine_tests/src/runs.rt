// How runs end.
use crate::exchange::{Exchange, begun};
use crate::same;
use noninterference::Letter;
use std::process::Abort;
use std::test::Fail;

// What a run shows; the exchange's program, and its handler where it is rung first; the return pointer and the length of the run;
// then how it ends: the letter, the steps done and the program counter.
#[derive(Clone, Copy)]
struct Case {
    name: &'static str,
    program: &'static [u8],
    handler: Option<&'static [u8]>,
    return_pointer: u16,
    n: u16,
    letter: Letter,
    done: u16,
    pc: u16,
}

const TWO_OF_THREE: Case = Case {
    name: "two steps of three",
    program: &[0x88, 0x88, 0x88],
    handler: None,
    return_pointer: 1024,
    n: 2,
    letter: Letter::Done,
    done: 2,
    pc: 258,
};

const TOLD: Case = Case {
    name: "after the visit the second step reads where the ring stored",
    program: &[0x88, 0xB0, 0x00, 0x04, 0x88],
    handler: Some(&[0x9E]),
    return_pointer: 1024,
    n: 5,
    letter: Letter::Told,
    done: 3,
    pc: 260,
};

const MARRED: Case = Case {
    name: "a visit ends marred",
    program: &[0x88],
    handler: Some(&[0x05, 0x9E]),
    return_pointer: 1024,
    n: 5,
    letter: Letter::Marred,
    done: 2,
    pc: 256,
};

// 88 is ICB, D6 illegal, 9E RTN; B0 reads R0 from a literal address, B1 R0 and R1; 05 sets ARP.
const CASES: [Case; 10] = [
    TWO_OF_THREE,
    Case {
        name: "no steps",
        n: 0,
        done: 0,
        pc: 256,
        ..TWO_OF_THREE
    },
    Case {
        name: "the second step is refused",
        program: &[0x88, 0xD6],
        n: 5,
        letter: Letter::Refused,
        done: 1,
        pc: 257,
        ..TWO_OF_THREE
    },
    Case {
        name: "the first step is refused",
        program: &[0xD6],
        n: 1,
        letter: Letter::Refused,
        done: 0,
        pc: 256,
        ..TWO_OF_THREE
    },
    Case {
        name: "a visit ends clean, which ends no run",
        handler: Some(&[0x9E]),
        n: 3,
        done: 3,
        ..TWO_OF_THREE
    },
    TOLD,
    Case {
        name: "the same, as the last step of the run",
        n: 3,
        ..TOLD
    },
    Case {
        name: "a step that tells a stain is refused, since RAM ends after it",
        program: &[0xB1, 0x5F, 0xEA],
        return_pointer: 59_998,
        letter: Letter::Refused,
        done: 1,
        pc: 256,
        ..TOLD
    },
    MARRED,
    Case {
        name: "the same, as the last step of the run",
        n: 2,
        ..MARRED
    },
];

fn try_run(rt: &impl Abort, exchange: &mut Exchange, case: &Case) -> Result<(), Fail> {
    let report = exchange.run(case.n)?;
    same(rt, case.name, report.letter, case.letter);
    same(rt, case.name, report.done, case.done);
    same(rt, case.name, report.last.is_none(), case.n == 0);
    same(rt, case.name, exchange.live.pc(), case.pc);
    Ok(())
}

fn try_case(rt: &(impl Abort + AllocGlobal), case: &Case) -> Result<(), Fail> {
    let handler = case.handler.unwrap_or(&[]);
    let mut exchange = begun(rt, case.program, handler, case.return_pointer)?;
    if case.handler.is_some() {
        exchange.rung(rt);
    }
    try_run(rt, &mut exchange, case)
}

#[test]
fn letters(rt: HostRuntime) -> Result<(), Fail> {
    for case in &CASES {
        try_case(&rt, case)?;
    }
    Ok(())
}
