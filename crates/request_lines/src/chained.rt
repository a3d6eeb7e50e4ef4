use super::answering::Answerer;
use std::alloc::{AllocError, Global};

/// An answerer whose rule states the answer to each line.
#[derive(Drop)]
pub struct Chained<'a, A: Answerer> {
    pub answerer: &'a mut A,
}

impl<A: Answerer> Answerer for Chained<'_, A> {
    ghost use Rattle.std.specs.Prelude.{◌≡◌, refl};
    ghost use Rattle.std.proofs.Common.{◌∙◌};
    ghost use Rattle.request_lines.specs.Inner.Chain.{Chain, chain_more};

    ghost rule = { record {
      answers = λ a lines text b. (b.answerer.ghost_name ≡ a.answerer.ghost_name) × Chain A.rule a.answerer.now lines text b.answerer.now;
      gives_up = λ a line b. (b.answerer.ghost_name ≡ a.answerer.ghost_name) × A.rule.gives_up a.answerer.now line b.answerer.now;
    } };

    ghost answers_none = { λ a. (refl, (refl, refl)) };

    ghost answers_more = { λ a b c ls ms t u h k. (k.0 ∙ h.0, chain_more A.rule a.answerer.now b.answerer.now c.answerer.now ls ms t u h.1 k.1) };

    fn answer(&mut self, alloc: Global, line: &[u8]) -> Result<Vec<u8>, AllocError> {
        self.answerer.answer(alloc, line)
    }
}
