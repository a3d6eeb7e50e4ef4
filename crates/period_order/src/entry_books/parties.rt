//! The numbers of the book and of the account that keep an event.

ghost use Rattle.std.specs.Prelude.{◌≡◌};
ghost use Rattle.period_order.specs.Inner.EventParties.{account_of_event, book_of_event, operator_of_event, provider_of_event};

use crate::numbers::{operator_number, provider_number};
use ocpi_types::{Config, Party};
use plain_house::Event;

fn operator(event: &Event) -> Option<Party>
    ensures { result ≡ operator_of_event event.now }
{
    match event {
        Event::Tariff(tariff) => Some(tariff.operator),
        Event::Cdr { cdr, .. } | Event::Credit { cdr, .. } => Some(cdr.operator),
        Event::Token(_)
        | Event::Authorised(_)
        | Event::Released(_)
        | Event::Settled(_)
        | Event::Closed { .. } => None,
    }
}

fn provider(event: &Event) -> Option<Party>
    ensures { result ≡ provider_of_event event.now }
{
    match event {
        Event::Token(token) => Some(token.provider),
        Event::Authorised(hold) => Some(hold.provider),
        Event::Released(release) => Some(release.provider),
        Event::Cdr { cdr, .. } | Event::Credit { cdr, .. } => Some(cdr.cdr_token.provider),
        Event::Settled(settlement) => Some(settlement.provider),
        Event::Tariff(_) | Event::Closed { .. } => None,
    }
}

/// The number of the event's book, if it has one.
pub fn book_of_event(config: &Config, event: &Event) -> Option<usize>
    ensures { result ≡ book_of_event config.now event.now }
{
    let operator = operator(event)?;
    Some(operator_number(config, &operator))
}

/// The number of its account, if it has one.
pub fn account_of_event(config: &Config, event: &Event) -> Option<usize>
    ensures { result ≡ account_of_event config.now event.now }
{
    let provider = provider(event)?;
    Some(provider_number(config, &provider))
}
