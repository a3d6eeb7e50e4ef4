//! What all operators are owed.

ghost use Rattle.period_order.specs.Dues.{AreCollectable};
ghost use Rattle.period_order.specs.Inner.Kept.{IsKept, kept_events};
ghost use Rattle.period_order.specs.Resolved.{entries_of_books};

use crate::laws::books_are_collectable;
use crate::order::Order;
use ocpi_types::Config;
use operator_book::Book;
use provider_account::Account;

/// States that what is owed of a period can be collected book by book.
pub fn kept_books_are_collectable(
    config: &Config,
    books: &[Book],
    accounts: &[Account],
    order: &Order,
)
    requires { IsKept config.now books.now accounts.now order.now }
    ensures { AreCollectable config.now (entries_of_books books.now) (kept_events books.now accounts.now order.now) }
{
    books_are_collectable();
    config.has_distinct_parts();
    config.is_bounded();
    let _ = books;
    let _ = accounts;
    let _ = order;
}
