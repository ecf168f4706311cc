// An exchange that is not in service yet.
ghost use Rattle.std.specs.Prelude.{◌≡◌, length};
ghost use Rattle.registers.specs.State.{began};
ghost use Rattle.stains.specs.Marks.{blank};
ghost use Rattle.noninterference.specs.Histories.{begun};
ghost use Rattle.noninterference.specs.Buses.{ABusIsItsMeaning, CleanHandlersLeaveNoTraceOn};
ghost use Rattle.noninterference.specs.Theorem.{CleanHandlersLeaveNoTrace, EveryExchangeHasADouble, StainsTellTheLastStore, SheetsKeepTheirSize};
ghost use Rattle.piles.specs.Piles.{PilesAreBuses};
ghost use Rattle.engine.specs.declared.cold.LoadFault.TheVariants.{PastMemory};
ghost use Rattle.engine.specs.Loads.{load_answer, load_after, load_described, load_number};
ghost use Rattle.engine.specs.Machine.{machine};
ghost use Rattle.engine.specs.Promise.{BottomsAreBuses};
ghost use Rattle.engine.specs.States.{in_service};

use crate::live::Live;
use bus::{Bus, Loadable};
use byte_rows::PastEnd;
use noninterference::{Description, Detail};

// It holds nothing: its memory is lent at each call, and its processor begins at GO. Loading exists on it alone.
#[derive(Drop, PartialEq, Eq, Debug)]
pub struct Cold;

// Why bytes were not loaded.
#[derive(Clone, Copy, PartialEq, Eq, Debug)]
pub enum LoadFault {
    Empty,
    PastMemory,
}

impl From<PastEnd> for LoadFault {
    ghost from_gives = { λ _ fault. fault ≡ PastMemory };

    fn from(_: PastEnd) -> LoadFault {
        LoadFault::PastMemory
    }
}

impl LoadFault {
    // Refusal 13 in both cases, as discriminants could not say. Its place is that of whoever loads.
    pub fn describe(self) -> Description
        ensures { result ≡ load_described self }
    {
        match self {
            LoadFault::Empty | LoadFault::PastMemory => Description {
                number: 13,
                detail: Detail::None,
            },
        }
    }

    pub fn number(self) -> u8
        ensures { result ≡ load_number self }
    {
        self.describe().number
    }
}

impl Cold {
    // Loads all the bytes from the address on, or none.
    pub fn load<M: Loadable>(
        &self,
        memory: &mut M,
        address: u16,
        bytes: &[u8],
    ) -> Result<(), LoadFault>
        ensures answer { result ≡ load_answer M.Loadable.room address (length bytes.now) }
        ensures after { M.Bus.meaning memory.new ≡ load_after M.Loadable.room address bytes.now (M.Bus.meaning memory.old) }
        ensures held { M.Bus.held memory.new ≡ M.Bus.held memory.old }
    {
        if bytes.is_empty() {
            return Err(LoadFault::Empty);
        }
        memory.load(address, bytes)?;
        Ok(())
    }

    // Goes into service on the bus: all of the processor's state is zero but the program counter and the return pointer. From here
    // on, whatever steps, runs and rings come, with a sheet that is blank now:
    // - if no step tells a stain and no visit ends marred, every exchange that is never rung and gets the same steps outside
    //   visits, on whatever bus of equal meaning, gives the same answers and ends alike, and there is such an exchange;
    // - an address is stained exactly when a handler was the last to store there, and the sheet keeps its size;
    // - what is said of meanings holds of every kind of bus; RAM, ROM and the line board are buses, and so is every pile of guards,
    //   splits and shadows over buses, however high.
    pub fn go<B: Bus>(self, bus: &B, pc: u16, return_pointer: u16) -> Live
        ensures begun { in_service result blank (B.Bus.meaning bus.now) ≡ (begun machine (began pc return_pointer) (B.Bus.meaning bus.now)).state }
        ensures clean_handlers_leave_no_trace { CleanHandlersLeaveNoTrace machine }
        ensures every_exchange_has_a_double { EveryExchangeHasADouble machine }
        ensures stains_tell_the_last_store { StainsTellTheLastStore machine }
        ensures sheets_keep_their_size { SheetsKeepTheirSize machine }
        ensures a_bus_is_its_meaning { ABusIsItsMeaning machine B.Bus.meaning }
        ensures clean_handlers_leave_no_trace_on_buses { CleanHandlersLeaveNoTraceOn machine B.Bus.meaning B.Bus.meaning }
        ensures bottoms_are_buses { BottomsAreBuses }
        ensures piles_are_buses { PilesAreBuses }
    {
        Live::begin(pc, return_pointer)
    }
}
