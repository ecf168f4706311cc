// Runs: many steps by one call.
ghost use Rattle.std.specs.Prelude.{◌≡◌};
ghost use Rattle.noninterference.specs.Steps.{step_letter, run as run_of};
ghost use Rattle.engine.specs.Machine.{machine};
ghost use Rattle.engine.specs.Runs.{reported, run_outcome, run_after};
ghost use Rattle.engine.specs.States.{in_service};

use crate::live::Live;
use bus::Bus;
use noninterference::{Answer, Letter, Refusal, VisitEnd};

// The steps done, why the run stopped, and the last answer, which a run of no steps has not.
#[derive(Clone, Copy, PartialEq, Eq, Debug)]
pub struct Report {
    pub done: u16,
    pub letter: Letter,
    pub last: Option<Result<Answer, Refusal>>,
}

// Why a run stops after a step, if it does.
#[inline(always)]
fn letter_of(answer: &Result<Answer, Refusal>) -> Letter
    ensures { result ≡ step_letter answer.now }
{
    let Ok(answer) = answer else {
        return Letter::Refused;
    };
    match (answer.told, answer.ended) {
        (Some(_), _) => Letter::Told,
        (None, Some(VisitEnd::Marred(_))) => Letter::Marred,
        (None, _) => Letter::Done,
    }
}

impl Live {
    // Steps until n are done, one is refused, a stain is told or a visit ends marred; the sheet has its size.
    #[inline(always)]
    #[tactic(auto, using(std::proofs::lemmas::Grind::common_steps, noninterference::proofs::Running::run_stops, noninterference::proofs::Running::run_on, crate::proofs::Letters::stops_unless_done, crate::proofs::Letters::counted_is))]
    fn run_steps<B: Bus>(&mut self, bus: &mut B, sheet: &mut [u8], n: u16) -> Report
        ensures report { result ≡ reported (run_of machine n (in_service self.old sheet.old (B.Bus.meaning bus.old))) }
        ensures after { in_service self.new sheet.new (B.Bus.meaning bus.new) ≡ (run_of machine n (in_service self.old sheet.old (B.Bus.meaning bus.old))).state_after_all }
        ensures held { B.Bus.held bus.new ≡ B.Bus.held bus.old }
    {
        let mut last = None;
        for i in 0..n {
            let answer = self.advance(bus, sheet);
            last = Some(answer);
            let letter = letter_of(&answer);
            if letter != Letter::Done {
                // A refused step is not counted.
                let done = i + u16::from(answer.is_ok());
                return Report { done, letter, last };
            }
        }
        Report {
            done: n,
            letter: Letter::Done,
            last,
        }
    }

    // A run of at most n steps.
    pub fn run<B: Bus>(&mut self, bus: &mut B, sheet: &mut [u8], n: u16) -> Result<Report, Refusal>
        ensures outcome { result ≡ run_outcome n (in_service self.old sheet.old (B.Bus.meaning bus.old)) }
        ensures after { in_service self.new sheet.new (B.Bus.meaning bus.new) ≡ run_after n (in_service self.old sheet.old (B.Bus.meaning bus.old)) }
        ensures held { B.Bus.held bus.new ≡ B.Bus.held bus.old }
    {
        self.check_sheet(sheet)?;
        Ok(self.run_steps(bus, sheet, n))
    }
}
