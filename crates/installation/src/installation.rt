// The calls.
ghost use Rattle.std.specs.Prelude.{◌≡◌, IfOk};
ghost use Rattle.stains.specs.Marks.{blank as unstained};
ghost use Rattle.memory.specs.Blank.{blank};
ghost use Rattle.installation.specs.Worlds.{world_of, cold};
ghost use Rattle.installation.specs.Calls.{pc_call, load_call, go_call, step_call, run_call, ring_call, end_call};

use crate::fault::CallFault;
use engine::{Cold, Live, ReadOut, Report, SHEET_SIZE, clean_sheet};
use memory::Memory;
use noninterference::Answer;
use std::alloc::{AllocError, Global};

// How far the exchange has come.
#[derive(Drop, PartialEq, Eq, Debug)]
pub enum Phase {
    Loading(Cold),
    InService(Live),
    Over,
}

#[derive(Drop)]
pub struct Installation {
    phase: Phase,
    memory: Memory,
    sheet: [u8; SHEET_SIZE],
}

impl Installation {
    // A cold exchange with a zero sheet on zero memory. Fails for want of memory alone.
    pub fn new(heap: Global) -> Result<Installation, AllocError>
        ensures made { IfOk result (λ i. world_of i ≡ cold unstained blank) }
    {
        Ok(Installation {
            phase: Phase::Loading(Cold),
            memory: Memory::new(heap)?,
            sheet: clean_sheet(),
        })
    }

    // The program counter of an exchange in service.
    pub fn pc(&self) -> Result<u16, CallFault>
        ensures { result ≡ pc_call (world_of self.now) }
    {
        match &self.phase {
            Phase::InService(live) => Ok(live.pc()),
            Phase::Loading(_) | Phase::Over => Err(CallFault::OutOfTurn),
        }
    }

    pub fn load(&mut self, address: u16, bytes: &[u8]) -> Result<(), CallFault>
        ensures outcome { result ≡ (load_call address bytes.now (world_of self.old)).outcome }
        ensures after { world_of self.new ≡ (load_call address bytes.now (world_of self.old)).after }
    {
        match &self.phase {
            Phase::Loading(exchange) => Ok(exchange.load(&mut self.memory, address, bytes)?),
            Phase::InService(_) | Phase::Over => Err(CallFault::OutOfTurn),
        }
    }

    pub fn go(&mut self, pc: u16, return_pointer: u16) -> Result<(), CallFault>
        ensures outcome { result ≡ (go_call pc return_pointer (world_of self.old)).outcome }
        ensures after { world_of self.new ≡ (go_call pc return_pointer (world_of self.old)).after }
    {
        match std::mem::replace(&mut self.phase, Phase::Over) {
            Phase::Loading(exchange) => {
                self.phase = Phase::InService(exchange.go(&self.memory, pc, return_pointer));
                Ok(())
            }
            phase => {
                self.phase = phase;
                Err(CallFault::OutOfTurn)
            }
        }
    }

    pub fn step(&mut self) -> Result<Answer, CallFault>
        ensures outcome { result ≡ (step_call (world_of self.old)).outcome }
        ensures after { world_of self.new ≡ (step_call (world_of self.old)).after }
    {
        match &mut self.phase {
            Phase::InService(live) => Ok(live.step(&mut self.memory, &mut self.sheet)?),
            Phase::Loading(_) | Phase::Over => Err(CallFault::OutOfTurn),
        }
    }

    pub fn run(&mut self, n: u16) -> Result<Report, CallFault>
        ensures outcome { result ≡ (run_call n (world_of self.old)).outcome }
        ensures after { world_of self.new ≡ (run_call n (world_of self.old)).after }
    {
        match &mut self.phase {
            Phase::InService(live) => Ok(live.run(&mut self.memory, &mut self.sheet, n)?),
            Phase::Loading(_) | Phase::Over => Err(CallFault::OutOfTurn),
        }
    }

    pub fn ring(&mut self, vector: u16) -> Result<(), CallFault>
        ensures outcome { result ≡ (ring_call vector (world_of self.old)).outcome }
        ensures after { world_of self.new ≡ (ring_call vector (world_of self.old)).after }
    {
        match &mut self.phase {
            Phase::InService(live) => Ok(live.ring(&mut self.memory, &mut self.sheet, vector)?),
            Phase::Loading(_) | Phase::Over => Err(CallFault::OutOfTurn),
        }
    }

    // The exchange leaves service with its read-out; no call is in turn from then on.
    pub fn end(&mut self) -> Result<ReadOut, CallFault>
        ensures outcome { result ≡ (end_call (world_of self.old)).outcome }
        ensures after { world_of self.new ≡ (end_call (world_of self.old)).after }
    {
        match std::mem::replace(&mut self.phase, Phase::Over) {
            Phase::InService(live) => Ok(live.end()),
            other => {
                self.phase = other;
                Err(CallFault::OutOfTurn)
            }
        }
    }
}
