//! The parts of a world.

ghost use Rattle.std.specs.Prelude.{◌≡◌};

use crate::finished::Finished;
use crate::locks::{AccountLock, BookLock};
use crate::running_call::RunningCall;
use crate::step::{Action, Step};
use ocpi_types::Config;
use period_order::Order;
use std::alloc::AllocError;

mod collecting;
mod ending;
mod ordering;
mod putting;
mod taking;

/// Books and accounts under their locks, the order of events, and the calls.
#[derive(Drop)]
pub struct Parts {
    pub config: Config,
    pub books: Vec<BookLock>,
    pub accounts: Vec<AccountLock>,
    pub order: Order,
    pub calls: Vec<RunningCall>,
}

impl Parts {
    ghost use Rattle.std.specs.Prelude.{◌≡◌, true, IfOk, OnErr, OnOk};
    ghost use Rattle.house_core.specs.Inner.Ready.{ArePartsReady, AreSound, shown};
    ghost use Rattle.house_core.specs.Steps.{finishes, gives_place, step as step_of};

    /// A call takes a step, if it can; with the call that ends by it.
    pub fn take(&mut self, step: Step) -> Result<Option<Finished>, AllocError>
        requires sound { AreSound self.old }
        ensures ok { OnOk result (shown self.new ≡ step_of (shown self.old) step) }
        ensures finished { IfOk result (λ finished. finished ≡ finishes (shown self.old) step) }
        ensures err { OnErr result (shown self.new ≡ shown self.old) }
        ensures memory { OnErr result (gives_place (shown self.old) step ≡ true) }
        ensures ready { ArePartsReady self.new }
    {
        let call = step.call;
        if call >= self.calls.len() {
            return Ok(None);
        }
        match step.action {
            Action::Begin => self.begin(call),
            Action::TakeBook => self.take_book(call),
            Action::TakeAccount => self.take_account(call),
            Action::Order => self.order(call)?,
            Action::PutAccount => self.put_account(call),
            Action::PutBook => self.put_book(call),
            Action::Collect { operator } => self.collect(call, operator),
            Action::Abandon => return Ok(self.abandon(call)),
            Action::End => return Ok(self.end(call)),
        }
        Ok(None)
    }
}
