//! The last event.

ghost use Rattle.std.specs.Prelude.{◌≡◌, ◌↔◌, ◌-◌, List, Some, length, slice_get, true};
ghost use Rattle.ocpi_types.specs.declared.config.Config.{Config};
ghost use Rattle.plain_house.specs.declared.event.Event.{Event};
ghost use Rattle.period_order.specs.Inner.Kept.{AreKept};

use super::laws::{orders_are_counted, orders_resolve};
use super::order::Order;
use super::resolved::names;
use operator_book::Book;
use plain_house::Event;
use provider_account::Account;

/// The event is the last one of each legal list that books, accounts and order keep.
pub fn is_last(books: &[Book], accounts: &[Account], order: &Order, event: &Event) -> bool
    ensures { (config : Config) (events : List Event) → AreKept config books.now accounts.now order.now events →
        (result ≡ true) ↔ (slice_get events (length events - 1) ≡ Some event.now) }
{
    orders_are_counted();
    orders_resolve();
    let Some(entry) = order.entries().last() else {
        return false;
    };
    let period = order.period_before(*entry);
    names(books, accounts, period, *entry, event)
}
