//! A house of books and accounts.

ghost use Rattle.std.specs.Prelude.{◌≡◌, ◌↔◌, ◌-◌, true, [], length, slice_get, IfOk, Some};
ghost use Rattle.cdr_checks.specs.Admission.{IsAdmitted};
ghost use Rattle.plain_house.specs.House.{Does};
ghost use Rattle.period_order.specs.Judging.{MayJudge};

use super::last::is_last;
use super::laws::{
    configurations_judge_for_themselves, orders_are_counted, orders_resolve, resolving_is_unique,
    resolving_is_whole,
};
use super::order::Order;
use super::resolved::{ResolveFault, named, resolve};
use cdr_checks::Command;
use ocpi_types::Config;
use operator_book::Book;
use plain_house::{Event, Refused, Replied, Sequential, empty_lists_are_legal};
use provider_account::Account;
use std::alloc::{AllocError, Global};
use std::marker::Model;

pub(crate) mod books;
mod collect;
mod collectable;
pub(crate) mod keep;
mod perform;
mod table;

/// A house that keeps a book for each operator, an account for each provider, and the order of events.
pub struct BookHouse {
    config: Config,
    books: Vec<Book>,
    accounts: Vec<Account>,
    order: Order,
}

// Not derived: what is derived is proved anew in each crate that drops one.
impl Drop for BookHouse {
    fn drop(self) {
        let BookHouse {
            config: _,
            books: _,
            accounts: _,
            order: _,
        } = self;
    }
}

impl Model for BookHouse {
    ghost use Rattle.plain_house.specs.State.{State};
    ghost use Rattle.period_order.specs.Inner.Kept.{IsKept, kept_events};

    ghost Value = { State };

    ghost view = { λ house. record {
      config = house.config;
      events = kept_events house.books.items house.accounts.items house.order;
    } };

    ghost invariant = { λ house. IsKept house.config house.books.items house.accounts.items house.order };
}

impl BookHouse {
    /// An empty house.
    pub fn new(alloc: Global, config: Config) -> Result<BookHouse, AllocError>
        ensures { IfOk result (λ house. house ≡ record { config = config; events = [] }) }
    {
        empty_lists_are_legal();
        let books = books::books(alloc, &config, &[])?;
        let accounts = books::accounts(alloc, &config, &[])?;
        Ok(BookHouse {
            config,
            books,
            accounts,
            order: Order::new(alloc),
        })
    }

    /// The house's own configuration.
    pub fn config(&self) -> &Config
        ensures { result.now ≡ self.now.config }
    {
        &self.config
    }

    /// The events so far, the first one first, as the order names them in books and accounts.
    pub fn events(&self, alloc: Global) -> Result<Vec<Event>, AllocError>
        ensures { IfOk result (λ events. events.items ≡ self.now.events) }
    {
        orders_resolve();
        resolving_is_unique();
        resolving_is_whole();
        let named = resolve(
            alloc,
            self.order.entries(),
            self.books.as_slice(),
            self.accounts.as_slice(),
        );
        match named {
            Ok(events) => Ok(events),
            Err(fault) => match fault {
                ResolveFault::NoMemory => Err(AllocError),
                ResolveFault::Torn { .. } => unreachable!(),
            },
        }
    }

    /// The last event, where there is one.
    pub fn last_event(&self, alloc: Global) -> Result<Option<Event>, AllocError>
        ensures { IfOk result (λ last. last ≡ slice_get self.now.events (length self.now.events - 1)) }
    {
        orders_are_counted();
        orders_resolve();
        let Some(entry) = self.order.entries().last() else {
            return Ok(None);
        };
        let period = self.order.period_before(*entry);
        let (books, accounts) = (self.books.as_slice(), self.accounts.as_slice());
        named(alloc, books, accounts, period, *entry)
    }

    /// The event is the last one.
    pub fn is_last(&self, event: &Event) -> bool
        ensures { (result ≡ true) ↔ (slice_get self.now.events (length self.now.events - 1) ≡ Some event.now) }
    {
        let (books, accounts) = (self.books.as_slice(), self.accounts.as_slice());
        is_last(books, accounts, &self.order, event)
    }

    /// Replies to a command as the plain list does under `config`, and adds its event. The house keeps its own configuration, and
    /// its list stays legal under that one. Where memory runs out, the house is as it was.
    pub fn do_command_under(
        &mut self,
        config: &Config,
        command: Command,
    ) -> Result<Replied, Refused>
        requires admitted { IsAdmitted config.now command }
        requires judges { MayJudge config.now self.old.config }
        ensures base { self.new.config ≡ self.old.config }
        ensures does { Does config.now self.old.events command result self.new.events }
    {
        perform::perform(
            *self.books.allocator(),
            config,
            &self.config,
            &mut self.books,
            &mut self.accounts,
            &mut self.order,
            command,
        )
    }
}

impl Sequential for BookHouse {
    ghost events = { λ house. house.events };

    ghost config = { λ house. house.config };

    fn do_command(&mut self, command: Command) -> Result<Replied, Refused> {
        configurations_judge_for_themselves();
        perform::perform(
            *self.books.allocator(),
            &self.config,
            &self.config,
            &mut self.books,
            &mut self.accounts,
            &mut self.order,
            command,
        )
    }
}
