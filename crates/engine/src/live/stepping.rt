// One step of an exchange.
ghost use Rattle.std.specs.Prelude.{◌≡◌};
ghost use Rattle.noninterference.specs.Steps.{step as step_of, sized};
ghost use Rattle.engine.specs.Machine.{machine};
ghost use Rattle.engine.specs.States.{live_state, visit_state, in_service};
ghost use Rattle.engine.specs.Visits.{told_by, end_of, visit_after};

use crate::live::Live;
use bus::Bus;
use execute::carry_out;
use noninterference::{Answer, Refusal, StepFault, VisitEnd};
use reading::BusReader;
use stains::make_stores;

impl Live {
    // How the visit ended, if one is open and this was the RTN that brought the return pointer back; the copy goes then.
    #[inline(always)]
    fn close_visit(&mut self, returns: bool) -> Option<VisitEnd>
        ensures ended { result ≡ end_of (visit_state self.old) returns (live_state self.old) }
        ensures visit { visit_state self.new ≡ visit_after (visit_state self.old) returns (live_state self.old) }
        ensures cpu { live_state self.new ≡ live_state self.old }
    {
        let copy = self.visit.as_ref()?;
        if !returns || copy.pair(6) != self.cpu.pair(6) {
            return None;
        }
        let end = match copy.mar(&self.cpu) {
            Some(mar) => VisitEnd::Marred(mar),
            None => VisitEnd::Clean,
        };
        self.visit = None;
        Some(end)
    }

    // What a step tells of the first stained address that it read: within a visit nothing.
    #[inline(always)]
    fn tells(&self, stained: Option<u16>) -> Option<u16>
        ensures { result ≡ told_by (visit_state self.now) stained }
    {
        match self.visit {
            None => stained,
            Some(_) => None,
        }
    }

    // A step, whatever the size of the sheet.
    #[inline(always)]
    pub(crate) fn advance<B: Bus>(
        &mut self,
        bus: &mut B,
        sheet: &mut [u8],
    ) -> Result<Answer, Refusal>
        ensures outcome { result ≡ (step_of machine (in_service self.old sheet.old (B.Bus.meaning bus.old))).outcome }
        ensures after { in_service self.new sheet.new (B.Bus.meaning bus.new) ≡ (step_of machine (in_service self.old sheet.old (B.Bus.meaning bus.old))).after_it }
        ensures held { B.Bus.held bus.new ≡ B.Bus.held bus.old }
    {
        let place = self.cpu.pc();
        let mut reader = BusReader::new(bus, sheet);
        let carried = carry_out(&mut reader, &mut self.cpu);
        let told = self.tells(reader.told);
        match carried {
            Ok(executed) => {
                let stain = self.visit.is_some();
                make_stores(
                    bus,
                    sheet,
                    stain,
                    executed.at,
                    &executed.bytes.bytes()[..executed.bytes.len()],
                );
                Ok(Answer {
                    place,
                    length: executed.length,
                    told,
                    ended: self.close_visit(executed.returns),
                })
            }
            Err(fault) => Err(Refusal {
                place,
                fault: StepFault::Instruction(fault),
                told,
            }),
        }
    }

    // One step.
    pub fn step<B: Bus>(&mut self, bus: &mut B, sheet: &mut [u8]) -> Result<Answer, Refusal>
        ensures outcome { result ≡ (sized machine (in_service self.old sheet.old (B.Bus.meaning bus.old)) (step_of machine (in_service self.old sheet.old (B.Bus.meaning bus.old)))).outcome }
        ensures after { in_service self.new sheet.new (B.Bus.meaning bus.new) ≡ (sized machine (in_service self.old sheet.old (B.Bus.meaning bus.old)) (step_of machine (in_service self.old sheet.old (B.Bus.meaning bus.old)))).after_it }
        ensures held { B.Bus.held bus.new ≡ B.Bus.held bus.old }
    {
        self.check_sheet(sheet)?;
        self.advance(bus, sheet)
    }
}
