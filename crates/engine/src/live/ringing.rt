// Rings: an interrupt handler is called through its vector.
ghost use Rattle.std.specs.Prelude.{◌≡◌};
ghost use Rattle.noninterference.specs.Steps.{ring as ring_of, sized};
ghost use Rattle.engine.specs.Machine.{machine};
ghost use Rattle.engine.specs.States.{in_service};
ghost use Rattle.engine.specs.Visits.{refused_as};

use crate::live::Live;
use bus::Bus;
use byte_rows::Row;
use decode::Base;
use execute::call;
use noninterference::{Refusal, StepFault};
use reading::BusReader;
use stains::make_stores;

impl Live {
    // Jumps to the handler as to a subroutine; its two stores set stains. The copy is taken before.
    fn open_visit<B: Bus>(
        &mut self,
        bus: &mut B,
        sheet: &mut [u8],
        vector: u16,
    ) -> Result<(), StepFault>
        ensures outcome { refused_as self.old result ≡ (ring_of machine vector (in_service self.old sheet.old (B.Bus.meaning bus.old))).outcome }
        ensures after { in_service self.new sheet.new (B.Bus.meaning bus.new) ≡ (ring_of machine vector (in_service self.old sheet.old (B.Bus.meaning bus.old))).after_it }
        ensures held { B.Bus.held bus.new ≡ B.Bus.held bus.old }
    {
        if vector % 2 != 0 {
            return Err(StepFault::OddVector);
        }
        if self.visit.is_some() {
            return Err(StepFault::VisitOpen);
        }
        let before = self.cpu;
        let mut reader = BusReader::new(bus, sheet);
        let mut bytes = [0; 8];
        reader.row(vector, &mut bytes[..2])?;
        let jump = call(&reader, &mut self.cpu, Base::Literal, &Row::new(bytes, 2))?;
        make_stores(
            bus,
            sheet,
            true,
            jump.at,
            &jump.bytes.bytes()[..jump.bytes.len()],
        );
        self.visit = Some(before);
        Ok(())
    }

    // Rings: the handler whose address stands at the vector begins a visit.
    pub fn ring<B: Bus>(
        &mut self,
        bus: &mut B,
        sheet: &mut [u8],
        vector: u16,
    ) -> Result<(), Refusal>
        ensures outcome { result ≡ (sized machine (in_service self.old sheet.old (B.Bus.meaning bus.old)) (ring_of machine vector (in_service self.old sheet.old (B.Bus.meaning bus.old)))).outcome }
        ensures after { in_service self.new sheet.new (B.Bus.meaning bus.new) ≡ (sized machine (in_service self.old sheet.old (B.Bus.meaning bus.old)) (ring_of machine vector (in_service self.old sheet.old (B.Bus.meaning bus.old)))).after_it }
        ensures held { B.Bus.held bus.new ≡ B.Bus.held bus.old }
    {
        self.check_sheet(sheet)?;
        let place = self.cpu.pc();
        self.open_visit(bus, sheet, vector)
            .map_err(|fault| Refusal {
                place,
                fault,
                told: None,
            })
    }
}
