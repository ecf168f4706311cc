// The engine as a library for C: a board is an exchange with its memory and its sheet, behind a handle. docs/board.md says what
// each function does.
#![tactic(auto)]

mod answers;
mod board;
mod calls;
mod handle;

pub use answers::{Ran, ReadOut, Said};
pub use board::Board;
pub use calls::{
    board_end, board_free, board_go, board_load, board_new, board_pc, board_ring, board_run,
    board_step,
};
