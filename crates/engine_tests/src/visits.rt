// How visits end, and that a clean one leaves no trace.
use crate::exchange::{Exchange, RAM_END, begun, ended};
use crate::same;
use bus::Bus;
use engine::Report;
use noninterference::{Letter, VisitEnd};
use reading::is_stained;
use registers::Mar;
use std::process::Abort;
use std::test::Fail;

// A handler, its number of steps, and how its visit ends: it is marred by the first part that the handler does not give back.
type Case = (&'static [u8], u16, VisitEnd);

// 88 is ICB, 99 BCD, 9C ICE and 9E RTN; 01 to 3F set ARP, 40 to 7F DRP.
const CASES: [Case; 9] = [
    (&[0x9E], 1, VisitEnd::Clean),
    (&[0x05, 0x48, 0x40, 0x00, 0x9E], 5, VisitEnd::Clean),
    (&[0x88, 0x9E], 2, VisitEnd::Marred(Mar::Register(0))),
    // A store over the upper half of the program counter that the ring stored.
    (
        &[0xB2, 0x01, 0x04, 0x9E],
        2,
        VisitEnd::Marred(Mar::Register(5)),
    ),
    (
        &[0x7F, 0x88, 0x40, 0x9E],
        4,
        VisitEnd::Marred(Mar::Register(63)),
    ),
    (&[0x05, 0x9E], 2, VisitEnd::Marred(Mar::Arp)),
    (&[0x45, 0x9E], 2, VisitEnd::Marred(Mar::Drp)),
    (&[0x99, 0x9E], 2, VisitEnd::Marred(Mar::Status)),
    (&[0x9C, 0x9E], 2, VisitEnd::Marred(Mar::E)),
];

fn try_case(rt: &(impl Abort + AllocGlobal), case: &Case) -> Result<(), Fail> {
    let (handler, steps, end) = *case;
    let mut exchange = begun(rt, &[0x88], handler, 1024)?;
    exchange.rung(rt);
    let report = exchange.run(steps)?;
    same(
        rt,
        handler,
        (report.done, ended(report)),
        (steps, Some(end)),
    );
    // No visit is open any more.
    exchange.rung(rt);
    Ok(())
}

#[test]
fn ends(rt: HostRuntime) -> Result<(), Fail> {
    for case in &CASES {
        try_case(&rt, case)?;
    }
    Ok(())
}

// DRP R10; LDB immediate 12; ICB; STB to 2000; JSB to 10B; DCB; and from 10B on NCB; RTN.
const PROGRAM: [u8; 13] = [
    0x48, 0xA8, 0x12, 0x88, 0xB2, 0x00, 0x20, 0xCE, 0x0B, 0x01, 0x8A, 0x8E, 0x9E,
];

const STEPS: u16 = 8;

// SAD; ARP R6; DRP R10; PUB+ R10; LDB immediate 77; STB to 2001; POB- R10; PAD; RTN.
const HANDLER: [u8; 12] = [
    0x9A, 0x06, 0x48, 0xE4, 0xA8, 0x77, 0xB2, 0x01, 0x20, 0xE2, 0x9F, 0x9E,
];

const HANDLER_STEPS: u16 = 9;

fn ready(rt: &(impl Abort + AllocGlobal)) -> Result<Exchange, Fail> {
    begun(rt, &PROGRAM, &HANDLER, 1024)
}

// A run of all its steps.
fn run(rt: &impl Abort, exchange: &mut Exchange, n: u16) -> Result<Report, Fail> {
    let report = exchange.run(n)?;
    same(rt, n, report.letter, Letter::Done);
    Ok(report)
}

// A run that is rung after `k` steps.
fn rung_after(rt: &impl Abort, exchange: &mut Exchange, k: u16) -> Result<(), Fail> {
    run(rt, exchange, k)?;
    exchange.rung(rt);
    let visit = run(rt, exchange, HANDLER_STEPS)?;
    same(rt, k, ended(visit), Some(VisitEnd::Clean));
    run(rt, exchange, STEPS.saturating_sub(k))?;
    Ok(())
}

// The same read-out, and the same bytes but where the handler was the last to store.
fn alike(rt: &impl Abort, rung: &Exchange, undisturbed: &Exchange) {
    same(
        rt,
        "a stain of the handler",
        is_stained(&rung.sheet, 0x2001),
        true,
    );
    same(rt, "a byte of the handler", rung.bus.read(0x2001), Ok(0x77));
    for address in 0..RAM_END {
        if !is_stained(&rung.sheet, address) {
            same(
                rt,
                address,
                rung.bus.read(address),
                undisturbed.bus.read(address),
            );
        }
    }
}

// A ring between every two instructions ends as the run that is not rung.
#[test]
fn rung_anywhere(rt: HostRuntime) -> Result<(), Fail> {
    for k in 0..=STEPS {
        let mut undisturbed = ready(&rt)?;
        run(&rt, &mut undisturbed, STEPS)?;
        let mut rung = ready(&rt)?;
        rung_after(&rt, &mut rung, k)?;
        alike(&rt, &rung, &undisturbed);
        same(&rt, k, rung.live.end(), undisturbed.live.end());
    }
    Ok(())
}
