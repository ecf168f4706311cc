// The functions that C calls. Each answers a refusal's number, or 0. A `Global` takes no bytes, so C passes nothing for it.
ghost use Rattle.std.specs.Prelude.{◌≡◌, IfOk, None};
ghost use Rattle.stains.specs.Marks.{blank as unstained};
ghost use Rattle.memory.specs.Blank.{blank};
ghost use Rattle.installation.specs.Worlds.{world_of, cold};
ghost use Rattle.installation.specs.Calls.{load_call, go_call, step_call, run_call, ring_call, end_call};
ghost use Rattle.board.specs.Boards.{board_world, outcome_in, after_in, pc_in, MayMake, made_from, free_number};
ghost use Rattle.board.specs.Answers.{said_of, answered, silent, ran_of, number_of, read_out_after, pc_after};

use crate::answers::{Ran, ReadOut, Said};
use crate::board::Board;
use installation::{CallFault, Installation};
use std::alloc::{AllocError, Global};

// Out of turn.
const OUT_OF_TURN: u8 = 12;

// Want of memory, which is no refusal.
const NO_MEMORY: u8 = 255;

fn number<A>(outcome: &Result<A, CallFault>) -> u8
    ensures { result ≡ number_of outcome.now }
{
    match outcome {
        Ok(_) => 0,
        Err(fault) => fault.describe().number,
    }
}

// Makes a cold exchange with a zero sheet on zero memory. A board that has one already stays as it is.
#[unsafe(no_mangle)]
pub extern "C" fn board_new(heap: Global, board: &mut Board) -> u8
    ensures number { MayMake (board_world board.old) result }
    ensures after { board_world board.new ≡ made_from (board_world board.old) result }
{
    if let Some(installation) = board.take(heap) {
        *board = Board::of(installation);
        return OUT_OF_TURN;
    }
    match install(heap) {
        Ok(installation) => {
            *board = Board::of(installation);
            0
        }
        Err(_) => NO_MEMORY,
    }
}

fn install(heap: Global) -> Result<Box<Installation>, AllocError>
    ensures { IfOk result (λ i. world_of i.value ≡ cold unstained blank) }
{
    Ok(Box::new(heap, Installation::new(heap)?)?)
}

// Gives the memory back. The board is then one that was not made.
#[unsafe(no_mangle)]
pub extern "C" fn board_free(heap: Global, board: &mut Board) -> u8
    ensures number { result ≡ free_number (board_world board.old) }
    ensures after { board_world board.new ≡ None }
{
    match board.take(heap) {
        Some(_) => 0,
        None => OUT_OF_TURN,
    }
}

#[unsafe(no_mangle)]
pub extern "C" fn board_load(heap: Global, board: &mut Board, address: u16, bytes: &[u8]) -> u8
    ensures number { result ≡ number_of (outcome_in (load_call address bytes.now) (board_world board.old)) }
    ensures after { board_world board.new ≡ after_in (load_call address bytes.now) (board_world board.old) }
{
    number(&board.load(heap, address, bytes))
}

#[unsafe(no_mangle)]
pub extern "C" fn board_go(heap: Global, board: &mut Board, pc: u16, return_pointer: u16) -> u8
    ensures number { result ≡ number_of (outcome_in (go_call pc return_pointer) (board_world board.old)) }
    ensures after { board_world board.new ≡ after_in (go_call pc return_pointer) (board_world board.old) }
{
    number(&board.go(heap, pc, return_pointer))
}

#[unsafe(no_mangle)]
pub extern "C" fn board_step(heap: Global, board: &mut Board, said: &mut Said) -> u8
    ensures said { said.new ≡ said_of answered (outcome_in step_call (board_world board.old)) }
    ensures number { result ≡ said.new.number }
    ensures after { board_world board.new ≡ after_in step_call (board_world board.old) }
{
    *said = board.step(heap).into();
    said.number
}

#[unsafe(no_mangle)]
pub extern "C" fn board_run(heap: Global, board: &mut Board, n: u16, ran: &mut Ran) -> u8
    ensures ran { ran.new ≡ ran_of (outcome_in (run_call n) (board_world board.old)) }
    ensures number { result ≡ number_of (outcome_in (run_call n) (board_world board.old)) }
    ensures after { board_world board.new ≡ after_in (run_call n) (board_world board.old) }
{
    let outcome = board.run(heap, n);
    *ran = outcome.into();
    number(&outcome)
}

#[unsafe(no_mangle)]
pub extern "C" fn board_ring(heap: Global, board: &mut Board, vector: u16, said: &mut Said) -> u8
    ensures said { said.new ≡ said_of silent (outcome_in (ring_call vector) (board_world board.old)) }
    ensures number { result ≡ said.new.number }
    ensures after { board_world board.new ≡ after_in (ring_call vector) (board_world board.old) }
{
    *said = board.ring(heap, vector).into();
    said.number
}

// The program counter of an exchange in service.
#[unsafe(no_mangle)]
pub extern "C" fn board_pc(heap: Global, board: &mut Board, pc: &mut u16) -> u8
    ensures pc { pc.new ≡ pc_after (pc_in (board_world board.old)) pc.old }
    ensures number { result ≡ number_of (pc_in (board_world board.old)) }
    ensures after { board_world board.new ≡ board_world board.old }
{
    let outcome = board.pc(heap);
    if let Ok(now) = outcome {
        *pc = now;
    }
    number(&outcome)
}

// The exchange leaves service with its read-out; no call is in turn from then on but `board_free`.
#[unsafe(no_mangle)]
pub extern "C" fn board_end(heap: Global, board: &mut Board, read_out: &mut ReadOut) -> u8
    ensures read_out { read_out.new ≡ read_out_after (outcome_in end_call (board_world board.old)) read_out.old }
    ensures number { result ≡ number_of (outcome_in end_call (board_world board.old)) }
    ensures after { board_world board.new ≡ after_in end_call (board_world board.old) }
{
    let outcome = board.end(heap);
    if let Ok(ended) = outcome {
        *read_out = ended.into();
    }
    number(&outcome)
}
