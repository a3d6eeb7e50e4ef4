//! The ends of calls.

use super::Parts;
use crate::finished::{Done, Finished};
use crate::locks::{free_account, free_book};
use crate::stage::Stage;
use plain_house::stamped;

impl Parts {
    ghost use Rattle.std.specs.Prelude.{◌≡◌, ◌<◌, length};
    ghost use Rattle.house_core.specs.Inner.Ready.{ArePartsReady, AreSound, shown};
    ghost use Rattle.house_core.specs.Steps.{finishes, step};
    ghost use Rattle.house_core.specs.declared.step.Action.TheVariants as action;

    pub fn abandon(&mut self, call: usize) -> Option<Finished>
        requires there { call < length self.old.calls.items }
        requires sound { AreSound self.old }
        ensures world { shown self.new ≡ step (shown self.old) (record { call = call; action = action.Abandon }) }
        ensures finished { result ≡ finishes (shown self.old) (record { call = call; action = action.Abandon }) }
        ensures ready { ArePartsReady self.new }
    {
        if !self.calls[call].has_begun() {
            return None;
        }
        let begin = self.calls[call].begin;
        let end = self.order.point();
        free_book(&mut self.books, self.calls[call].held_book());
        free_account(&mut self.accounts, self.calls[call].held_account());
        self.calls[call].give_up();
        Some(Finished {
            call,
            begin,
            end,
            done: Done::Abandoned,
        })
    }

    pub fn end(&mut self, call: usize) -> Option<Finished>
        requires there { call < length self.old.calls.items }
        requires sound { AreSound self.old }
        ensures world { shown self.new ≡ step (shown self.old) (record { call = call; action = action.End }) }
        ensures finished { result ≡ finishes (shown self.old) (record { call = call; action = action.End }) }
        ensures ready { ArePartsReady self.new }
    {
        let begin = self.calls[call].begin;
        let end = self.order.point();
        let due = self.calls[call].reply()?;
        Some(Finished {
            call,
            begin,
            end,
            done: Done::Answered {
                point: due.point,
                reply: stamped(due.point, due.reply),
            },
        })
    }
}
