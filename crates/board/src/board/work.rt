// The calls of a board: each takes the installation out, calls it and puts it back.
ghost use Rattle.std.specs.Prelude.{◌≡◌};
ghost use Rattle.installation.specs.Calls.{load_call, go_call, step_call, run_call, ring_call, end_call};
ghost use Rattle.board.specs.Boards.{board_world, outcome_in, after_in, pc_in};

use crate::board::Board;
use engine::{ReadOut, Report};
use installation::CallFault;
use noninterference::Answer;
use std::alloc::Global;

impl Board {
    pub(crate) fn load(&mut self, heap: Global, address: u16, bytes: &[u8]) -> Result<(), CallFault>
        ensures outcome { result ≡ outcome_in (load_call address bytes.now) (board_world self.old) }
        ensures after { board_world self.new ≡ after_in (load_call address bytes.now) (board_world self.old) }
    {
        let mut installation = self.take(heap).ok_or(CallFault::OutOfTurn)?;
        let outcome = installation.load(address, bytes);
        *self = Board::of(installation);
        outcome
    }

    pub(crate) fn go(&mut self, heap: Global, pc: u16, return_pointer: u16) -> Result<(), CallFault>
        ensures outcome { result ≡ outcome_in (go_call pc return_pointer) (board_world self.old) }
        ensures after { board_world self.new ≡ after_in (go_call pc return_pointer) (board_world self.old) }
    {
        let mut installation = self.take(heap).ok_or(CallFault::OutOfTurn)?;
        let outcome = installation.go(pc, return_pointer);
        *self = Board::of(installation);
        outcome
    }

    pub(crate) fn pc(&mut self, heap: Global) -> Result<u16, CallFault>
        ensures outcome { result ≡ pc_in (board_world self.old) }
        ensures after { board_world self.new ≡ board_world self.old }
    {
        let installation = self.take(heap).ok_or(CallFault::OutOfTurn)?;
        let outcome = installation.pc();
        *self = Board::of(installation);
        outcome
    }

    pub(crate) fn step(&mut self, heap: Global) -> Result<Answer, CallFault>
        ensures outcome { result ≡ outcome_in step_call (board_world self.old) }
        ensures after { board_world self.new ≡ after_in step_call (board_world self.old) }
    {
        let mut installation = self.take(heap).ok_or(CallFault::OutOfTurn)?;
        let outcome = installation.step();
        *self = Board::of(installation);
        outcome
    }

    pub(crate) fn run(&mut self, heap: Global, n: u16) -> Result<Report, CallFault>
        ensures outcome { result ≡ outcome_in (run_call n) (board_world self.old) }
        ensures after { board_world self.new ≡ after_in (run_call n) (board_world self.old) }
    {
        let mut installation = self.take(heap).ok_or(CallFault::OutOfTurn)?;
        let outcome = installation.run(n);
        *self = Board::of(installation);
        outcome
    }

    pub(crate) fn ring(&mut self, heap: Global, vector: u16) -> Result<(), CallFault>
        ensures outcome { result ≡ outcome_in (ring_call vector) (board_world self.old) }
        ensures after { board_world self.new ≡ after_in (ring_call vector) (board_world self.old) }
    {
        let mut installation = self.take(heap).ok_or(CallFault::OutOfTurn)?;
        let outcome = installation.ring(vector);
        *self = Board::of(installation);
        outcome
    }

    pub(crate) fn end(&mut self, heap: Global) -> Result<ReadOut, CallFault>
        ensures outcome { result ≡ outcome_in end_call (board_world self.old) }
        ensures after { board_world self.new ≡ after_in end_call (board_world self.old) }
    {
        let mut installation = self.take(heap).ok_or(CallFault::OutOfTurn)?;
        let outcome = installation.end();
        *self = Board::of(installation);
        outcome
    }
}
