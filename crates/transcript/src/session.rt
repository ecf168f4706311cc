// A tape that is being played, with all that the player works on.
ghost use Rattle.std.specs.Prelude.{◌≡◌, ◌++◌, [], IfOk, OnOk};
ghost use Rattle.play.specs.Lines.{lines_of};
ghost use Rattle.transcript.specs.Printed.{start};
ghost use Rattle.transcript.specs.Sessions.{tape_in, world_in, next_in};

use engine::{SHEET_SIZE, clean_sheet};
use memory::Memory;
use play::{BUFFER_SIZE, Player};
use std::alloc::{AllocError, Global};

#[derive(Drop)]
pub(crate) struct Session<'a> {
    pub player: Player<'a>,
    memory: Memory,
    sheet: [u8; SHEET_SIZE],
    lines: [u8; BUFFER_SIZE],
    // The lines of the records that were played.
    pub text: Vec<u8>,
}

impl<'a> Session<'a> {
    // A cold exchange with a zero sheet on zero memory, at the tape's first byte.
    pub fn new(heap: Global, tape: &'a [u8]) -> Result<Session<'a>, AllocError>
        ensures tape { IfOk result (λ s. tape_in s ≡ tape.now) }
        ensures world { IfOk result (λ s. world_in s ≡ start) }
        ensures text { IfOk result (λ s. s.text.items ≡ []) }
    {
        Ok(Session {
            player: Player::new(tape),
            memory: Memory::new(heap)?,
            sheet: clean_sheet(),
            lines: [0; BUFFER_SIZE],
            text: Vec::new(heap),
        })
    }

    // Plays one record, and adds its lines to the text.
    pub fn play_record(&mut self) -> Result<(), AllocError>
        ensures tape { tape_in self.new ≡ tape_in self.old }
        ensures world { world_in self.new ≡ (next_in self.old).after }
        ensures text { OnOk result (self.new.text.items ≡ self.old.text.items ++ lines_of (next_in self.old).outcome) }
    {
        let played = self
            .player
            .play(&mut self.memory, &mut self.sheet, &mut self.lines);
        self.text.extend_from_slice(&self.lines[..played.wrote])
    }
}
