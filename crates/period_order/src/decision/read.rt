//! Commands that add nothing.

ghost use Rattle.std.specs.Prelude.{◌≡◌, Some, None};
ghost use Rattle.cdr_checks.specs.declared.request.Command.TheVariants.{Exposure, Find as FindCommand};
ghost use Rattle.period_order.specs.Decided.{Decides, event_of};

use super::outcomes::replied;
use crate::decided::Outcome;
use crate::order::Order;
use cdr_checks::{ExposureOf, Find};
use ocpi_types::Config;
use operator_book::Book;
use provider_account::Account;

/// What a provider holds and owes.
pub fn exposure(config: &Config, ask: ExposureOf, account: &Account, _order: &Order) -> Outcome
    ensures outcome { Decides config.now None (Some account.now) _order.now (Exposure ask) result }
    ensures event { event_of result ≡ None }
{
    replied(Ok(account.exposure(config, &ask)))
}

/// Where a CDR stands.
pub fn find(_config: &Config, find: Find, book: &Book, _order: &Order) -> Outcome
    ensures outcome { Decides _config.now (Some book.now) None _order.now (FindCommand find) result }
    ensures event { event_of result ≡ None }
{
    replied(book.find(&find))
}
