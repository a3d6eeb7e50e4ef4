//! Calls, and how each goes on.

ghost use Rattle.std.specs.Prelude.{◌≡◌, Some, true, false, is_some, map, option_map, IfOk};
ghost use Rattle.house_core.specs.Collections.{is_complete};
ghost use Rattle.house_core.specs.declared.stage.Stage.TheVariants as stage;
ghost use Rattle.house_core.specs.Calls.{reply_due_at};
ghost use Rattle.house_core.specs.Start.{call_of};

use crate::numbers::{account_number, book_number};
use crate::stage::{Carried, Netting, Stage, Stating};
use cdr_checks::Command;
use ocpi_types::{Config, Refusal, TryCopy};
use plain_house::{Answer, Event};
use std::alloc::{AllocError, Global};
use std::mem;

/// A call on its way from its command to its reply.
#[derive(Drop)]
pub struct RunningCall {
    /// The number of the operator whose book it looks into, and of the provider whose account.
    pub book: Option<usize>,
    pub account: Option<usize>,
    /// It holds the lock of that book, and of that account.
    pub has_book: bool,
    pub has_account: bool,
    /// The number of events when it began.
    pub begin: u64,
    pub stage: Stage,
}

fn waiting(config: &Config, command: Command) -> RunningCall
    ensures { result ≡ call_of config.now command }
{
    RunningCall {
        book: book_number(config, &command),
        account: account_number(config, &command),
        has_book: false,
        has_account: false,
        begin: 0,
        stage: Stage::Waiting(command),
    }
}

/// A call for each command, none of which has begun.
pub fn waiting_calls(
    alloc: Global,
    config: &Config,
    commands: Vec<Command>,
) -> Result<Vec<RunningCall>, AllocError>
    ensures { IfOk result (λ calls. calls.items ≡ map (call_of config.now) commands.items) }
{
    let mut calls = Vec::with_capacity(alloc, commands.len())?;
    for command in commands {
        calls.push(waiting(config, command))?;
    }
    Ok(calls)
}

/// A reply, and the number of events before it.
#[derive(Drop)]
pub struct ReplyDue {
    pub point: u64,
    pub reply: Result<Answer, Refusal>,
}

impl RunningCall {
    ghost use Rattle.std.specs.Prelude.{◌≡◌, None, is_some, option_map, if◌then◌else◌, IfOk};
    ghost use Rattle.std.specs.Option.{option_copied};
    ghost use Rattle.house_core.specs.Calls.{begun, for_account, for_book, has_its_account, has_its_book, held_account, held_book, ready, reply_due, wanted_account, wanted_book};
    ghost use Rattle.house_core.specs.Inner.Steps.{event_of_stage};
    ghost use Rattle.house_core.specs.Inner.Moves.{begun_call, carried_event, without_command, without_event};
    ghost use Rattle.house_core.specs.declared.stage.Stage.TheVariants as stage;

    /// Begins, if it has not.
    pub fn begin(&mut self, point: u64)
        ensures { self.new ≡ begun_call point self.old }
    {
        let Stage::Waiting(_) = self.stage else {
            return;
        };
        let next = match mem::replace(&mut self.stage, Stage::Ended) {
            Stage::Waiting(command) => Stage::Begun(command),
            other => other,
        };
        mem::drop(mem::replace(&mut self.stage, next));
        self.begin = point;
    }

    /// It has begun, and has no place in the order yet.
    pub fn has_begun(&self) -> bool
        ensures { result ≡ is_some (begun self.now.stage) }
    {
        match self.stage {
            Stage::Begun(_) => true,
            _ => false,
        }
    }

    /// It needs no book, or holds it.
    fn has_its_book(&self) -> bool
        ensures { result ≡ has_its_book self.now }
    {
        self.book.is_none() || self.has_book
    }

    /// It needs no account, or holds it.
    fn has_its_account(&self) -> bool
        ensures { result ≡ has_its_account self.now }
    {
        self.account.is_none() || self.has_account
    }

    /// The book that it takes next.
    pub fn wanted_book(&self) -> Option<usize>
        ensures { result ≡ wanted_book self.now }
    {
        if self.has_begun() && !self.has_book {
            self.book
        } else {
            None
        }
    }

    /// The account that it takes next.
    pub fn wanted_account(&self) -> Option<usize>
        ensures { result ≡ wanted_account self.now }
    {
        if self.has_begun() && self.has_its_book() && !self.has_account {
            self.account
        } else {
            None
        }
    }

    pub fn held_book(&self) -> Option<usize>
        ensures { result ≡ held_book self.now }
    {
        if self.has_book { self.book } else { None }
    }

    pub fn held_account(&self) -> Option<usize>
        ensures { result ≡ held_account self.now }
    {
        if self.has_account { self.account } else { None }
    }

    /// Its command, once it holds all that it needs.
    pub fn ready(&self) -> Option<&Command>
        ensures { option_copied result ≡ ready self.now }
    {
        if !(self.has_its_book() && self.has_its_account()) {
            return None;
        }
        match &self.stage {
            Stage::Begun(command) => Some(command),
            _ => None,
        }
    }

    /// Takes the command out of a call that has begun.
    pub fn take_command(&mut self) -> Option<Command>
        ensures value { result ≡ begun self.old.stage }
        ensures rest { self.new ≡ without_command self.old }
    {
        let Stage::Begun(_) = self.stage else {
            return None;
        };
        match mem::replace(&mut self.stage, Stage::Ended) {
            Stage::Begun(command) => Some(command),
            _ => None,
        }
    }

    /// Goes on at that stage.
    pub fn go_on(&mut self, stage: Stage)
        ensures { self.new ≡ record self.old { stage = stage } }
    {
        mem::drop(mem::replace(&mut self.stage, stage));
    }

    /// What it puts into its account next.
    pub fn for_account(&self) -> Option<&Carried>
        ensures { option_copied result ≡ for_account self.now }
    {
        if !self.has_account {
            return None;
        }
        match &self.stage {
            Stage::Ordered(carried) => Some(carried),
            _ => None,
        }
    }

    /// The number of the account into which it puts next.
    pub fn putting_account(&self) -> Option<usize>
        ensures { result ≡ (if is_some (for_account self.now) then self.now.account else None) }
    {
        if !self.has_account {
            return None;
        }
        match &self.stage {
            Stage::Ordered(_) => self.account,
            _ => None,
        }
    }

    /// The number of the book into which it puts next.
    pub fn putting_book(&self) -> Option<usize>
        ensures { result ≡ (if is_some (for_book self.now) then self.now.book else None) }
    {
        if !self.has_book || self.has_account {
            return None;
        }
        match &self.stage {
            Stage::Ordered(_) => self.book,
            _ => None,
        }
    }

    /// The event that it has added, if it has, as long as it carries it.
    pub fn event_added(&self, alloc: Global) -> Result<Option<Event>, AllocError>
        ensures { IfOk result (λ event. event ≡ event_of_stage self.now.stage) }
    {
        match &self.stage {
            Stage::Ordered(carried) => match &carried.event {
                Some(event) => Ok(Some(event.copy(alloc)?)),
                None => Ok(None),
            },
            Stage::Netting(netting) => Ok(Some(Event::Closed {
                period: netting.period,
            })),
            Stage::Waiting(_) | Stage::Begun(_) | Stage::Stating(_) | Stage::Ended => Ok(None),
        }
    }

    /// Ends without a reply and without locks.
    pub fn give_up(&mut self)
        ensures { self.new ≡ record self.old { has_book = false; has_account = false; stage = stage.Ended } }
    {
        self.has_book = false;
        self.has_account = false;
        self.go_on(Stage::Ended);
    }

    /// Takes out the event that it carries, and the period of its entries.
    pub fn take_event(&mut self) -> Option<(Event, u64)>
        ensures value { result ≡ carried_event self.old.stage }
        ensures rest { self.new ≡ record self.old { stage = without_event self.old.stage } }
    {
        match &mut self.stage {
            Stage::Ordered(carried) => {
                let event = carried.event.take()?;
                Some((event, carried.period))
            }
            _ => None,
        }
    }

    fn is_due(&self) -> bool
        ensures { result ≡ is_some (reply_due self.now) }
    {
        match &self.stage {
            Stage::Ordered(_) => !(self.has_book || self.has_account),
            Stage::Netting(netting) => netting.collection.is_complete(),
            Stage::Stating(stating) => stating.collection.is_complete(),
            _ => false,
        }
    }

    /// Ends with its reply, once all is put or collected.
    pub fn reply(&mut self) -> Option<ReplyDue>
        ensures value { result ≡ reply_due self.old }
        ensures rest { self.new ≡ (if is_some (reply_due self.old) then record self.old { stage = stage.Ended } else self.old) }
    {
        if !self.is_due() {
            return None;
        }
        reply_of(mem::replace(&mut self.stage, Stage::Ended))
    }
}

// The reply of a call that holds no lock any more.
fn reply_of(stage: Stage) -> Option<ReplyDue>
    requires { is_some (reply_due_at false stage) ≡ true }
    ensures { result ≡ reply_due_at false stage }
{
    match stage {
        Stage::Ordered(carried) => {
            let Carried {
                point,
                period: _,
                reply,
                event: _,
            } = carried;
            Some(ReplyDue { point, reply })
        }
        Stage::Netting(netting) => Some(net_reply(netting)),
        Stage::Stating(stating) => Some(row_reply(stating)),
        _ => None,
    }
}

fn net_reply(netting: Netting) -> ReplyDue
    requires { is_complete netting.collection.collected ≡ true }
    ensures { Some result ≡ reply_due_at false (stage.Netting netting) }
{
    let Netting {
        point,
        period,
        collection,
    } = netting;
    let positions = collection.into_table().into_list();
    ReplyDue {
        point,
        reply: Ok(Answer::Closed { period, positions }),
    }
}

fn row_reply(stating: Stating) -> ReplyDue
    requires { is_complete stating.collection.collected ≡ true }
    ensures { Some result ≡ reply_due_at false (stage.Stating stating) }
{
    let Stating {
        point,
        period: _,
        collection,
    } = stating;
    let rows = collection.into_table().into_rows();
    ReplyDue {
        point,
        reply: Ok(Answer::Statement { rows }),
    }
}
