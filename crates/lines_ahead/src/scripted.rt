//! A house that answers lines, of which some are read before.

ghost use Rattle.std.specs.Prelude.{◌≡◌};

use crate::ahead::ReadAhead;
use crate::answering::respond;
use crate::batches::LEAST_BATCH_BYTES;
use ocpi_types::Config;
use plain_house::Sequential;
use request_lines::Answerer;
use std::alloc::{AllocError, Global};
use std::thread::Threads;

/// Fewer bytes are read by the calling thread, line by line.
const LEAST_BYTES: usize = 2 * LEAST_BATCH_BYTES;

/// A house that answers lines. Several threads read the lines of a read call meanwhile.
#[derive(Drop)]
pub struct ScriptedAhead<'r, 'c, 'h, 'a, R: Threads + Sync, S: Sequential> {
    pub rt: &'r R,
    pub config: &'c Config,
    pub house: &'h mut S,
    pub ahead: &'a mut ReadAhead,
    ghost same: { S.config house.now ≡ config.now },
    ghost ahead_same: { ahead.now.config ≡ config.now },
}

impl<R: Threads + Sync, S: Sequential> Answerer for ScriptedAhead<'_, '_, '_, '_, R, S> {
    ghost use Rattle.std.specs.Prelude.{◌≡◌, ◌⊎◌, refl};
    ghost use Rattle.std.specs.Thread.{IsSync};
    ghost use Rattle.std.proofs.Common.{◌∙◌};
    ghost use Rattle.request_lines.specs.Script.{after};
    ghost use Rattle.request_lines.specs.Inner.InTurn.{AnswersInTurn, in_turn_more};

    ghost rule = { record {
      answers = λ a lines text b. (b.house.ghost_name ≡ a.house.ghost_name)
          × AnswersInTurn a.config.now b.config.now (S.events a.house.now) lines text (S.events b.house.now);
      gives_up = λ a line b. (b.house.ghost_name ≡ a.house.ghost_name) × (b.config.now ≡ a.config.now)
          × ((S.events b.house.now ≡ S.events a.house.now) ⊎ (S.events b.house.now ≡ after a.config.now (S.events a.house.now) line));
    } };

    ghost answers_none = { λ a. (refl, (refl, refl, refl)) };

    ghost answers_more = { λ a b c ls ms t u h k. (k.0 ∙ h.0, in_turn_more a.config.now b.config.now c.config.now (S.events a.house.now) (S.events b.house.now) (S.events c.house.now) ls ms t u h.1 k.1) };

    ghost can_look_ahead = { IsSync R.row };

    fn answer(&mut self, alloc: Global, line: &[u8]) -> Result<Vec<u8>, AllocError> {
        respond(self.rt, alloc, self.ahead, self.config, self.house, line)
    }

    fn look_ahead(&mut self, alloc: Global, bytes: &[u8]) {
        let _ = alloc;
        if bytes.len() >= LEAST_BYTES {
            self.ahead.begin(self.rt, bytes);
        }
    }
}
