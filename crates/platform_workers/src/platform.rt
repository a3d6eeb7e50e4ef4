//! What answers the lines of one platform.

ghost use Rattle.std.specs.Prelude.{◌≡◌, true, false};
ghost use Rattle.cdr_checks.specs.Admission.{IsAdmitted};
ghost use Rattle.plain_house.specs.Replies.{is_no_memory};
ghost use Rattle.platform_workers.specs.Platforms.{GivesUp, LineReplied};

use cdr_checks::Command;
use plain_house::{Refused, Replied, is_out_of_memory};
use request_lines::{Answerer, LineRoom, answer_line, command_of};
use shared_house::{Configured, Gate, House, Names, Part, Pass};
use std::alloc::{AllocError, Global};
use std::sync::Wait;

/// A pass that answers lines by its house, and the room in which each line is read.
#[derive(Drop)]
pub struct Platform<'r, 'h, 'g, 'p, 'm, N: Names, R: Wait, G: Gate> {
    pub rt: &'r R,
    pub house: &'h House<N>,
    pub gate: &'g G,
    pub pass: &'p mut Pass<N>,
    pub room: &'m mut LineRoom,
}

impl<N: Names, R: Wait, G: Gate> Platform<'_, '_, '_, '_, '_, N, R, G> {
    /// The reply to one line: of the house to its command, or why it has none.
    #[tactic(auto, unfolding(crate::specs::Platforms::LineReplied))]
    fn reply(&mut self, alloc: Global, line: &[u8]) -> Result<Replied, Refused>
        ensures pass { self.new.pass.ghost_name ≡ self.old.pass.ghost_name }
        ensures replied { is_no_memory result ≡ false → LineReplied N.BookEntries.config line.now self.old.pass.now result self.new.pass.now }
        ensures refused { is_no_memory result ≡ true → GivesUp N.BookEntries.config line.now self.old.pass.now self.new.pass.now }
    {
        match command_of(alloc, self.room, self.house.config(), line) {
            Ok(command) => self.house.call(self.rt, self.pass, self.gate, command),
            Err(refusal) => Err(Refused { at: None, refusal }),
        }
    }
}

impl<N: Names, R: Wait, G: Gate> Answerer for Platform<'_, '_, '_, '_, '_, N, R, G> {
    ghost use Rattle.std.specs.Prelude.{◌≡◌, refl};
    ghost use Rattle.std.proofs.Common.{◌∙◌};
    ghost use Rattle.platform_workers.specs.Platforms.{GivesUp, LinesAnswered};
    ghost use Rattle.platform_workers.specs.Inner.InTurn.{lines_answered_more};

    ghost rule = { record {
      answers = λ a lines text b. (b.pass.ghost_name ≡ a.pass.ghost_name)
          × LinesAnswered N.BookEntries.config a.pass.now lines text b.pass.now;
      gives_up = λ a line b. (b.pass.ghost_name ≡ a.pass.ghost_name) × GivesUp N.BookEntries.config line a.pass.now b.pass.now;
    } };

    ghost answers_none = { λ a. (refl, (refl, refl)) };

    ghost answers_more = { λ a b c ls ms t u h k. (k.0 ∙ h.0, lines_answered_more N.BookEntries.config a.pass.now b.pass.now c.pass.now ls ms t u h.1 k.1) };

    fn answer(&mut self, alloc: Global, line: &[u8]) -> Result<Vec<u8>, AllocError> {
        let reply = self.reply(alloc, line);
        if is_out_of_memory(&reply) {
            return Err(AllocError);
        }
        answer_line(alloc, self.house.config(), &reply)
    }

    fn look_ahead(&mut self, _alloc: Global, _bytes: &[u8]) {}
}
