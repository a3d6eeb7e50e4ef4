//! Lines answered by the calls of one pass.

use plain_house::{Refused, Replied, is_out_of_memory};
use request_lines::{Answerer, LineRoom, answer_line, command_of};
use shared_house::{House, Names, NoGate, Pass};
use std::alloc::{AllocError, Global};
use std::sync::Wait;

/// What answers lines by the calls of a pass.
#[derive(Drop)]
pub struct Caller<'l, 'h, 'p, 'r, N: Names, R: Wait> {
    pub locks: &'l R,
    pub house: &'h House<N>,
    pub pass: &'p mut Pass<N>,
    pub room: &'r mut LineRoom,

    /// Whether a line at which memory was refused is done once more.
    pub is_again: bool,
}

impl<N: Names, R: Wait> Caller<'_, '_, '_, '_, N, R> {
    fn called(&mut self, alloc: Global, line: &[u8]) -> Result<Replied, Refused> {
        match command_of(alloc, self.room, self.house.config(), line) {
            Ok(command) => self.house.call(self.locks, self.pass, &NoGate, command),
            Err(refusal) => Err(Refused { at: None, refusal }),
        }
    }

    fn reply(&mut self, alloc: Global, line: &[u8]) -> Result<Replied, Refused> {
        let reply = self.called(alloc, line);
        if self.is_again && is_out_of_memory(&reply) {
            return self.called(alloc, line);
        }
        reply
    }

    fn text(&self, alloc: Global, reply: &Result<Replied, Refused>) -> Result<Vec<u8>, AllocError> {
        match answer_line(alloc, self.house.config(), reply) {
            Err(AllocError) if self.is_again => answer_line(alloc, self.house.config(), reply),
            text => text,
        }
    }
}

impl<N: Names, R: Wait> Answerer for Caller<'_, '_, '_, '_, N, R> {
    ghost use Rattle.std.specs.Prelude.{ℕ, List};

    ghost rule = { record { answers = λ a lines text b. Unit {0}; gives_up = λ a line b. Unit {0} } };

    ghost answers_none = { λ a. tt };

    ghost answers_more = { λ a b c ls ms t u h k. tt };

    fn answer(&mut self, alloc: Global, line: &[u8]) -> Result<Vec<u8>, AllocError> {
        let reply = self.reply(alloc, line);
        if is_out_of_memory(&reply) {
            return Err(AllocError);
        }
        self.text(alloc, &reply)
    }

    fn look_ahead(&mut self, _alloc: Global, _bytes: &[u8]) {}
}
