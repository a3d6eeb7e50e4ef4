//! The numbers of operators and providers in the configuration.

ghost use Rattle.std.specs.Prelude.{◌≡◌, position};
ghost use Rattle.ocpi_types.specs.Party.{same_party};
ghost use Rattle.period_order.specs.Places.{in_account, in_book, operator_number, provider_number};

use super::order_entry::Place;
use ocpi_types::config::{Operator, Provider};
use ocpi_types::{Config, Party};

fn operator_position(operators: &[Operator], party: &Party) -> Option<usize>
    ensures { result ≡ position (λ operator. same_party operator.party party.now) operators.now }
{
    operators
        .iter()
        .position(|operator| operator.party.is(party))
}

fn provider_position(providers: &[Provider], party: &Party) -> Option<usize>
    ensures { result ≡ position (λ provider. same_party provider.party party.now) providers.now }
{
    providers
        .iter()
        .position(|provider| provider.party.is(party))
}

/// The number of the operator in the configuration, from 0; where it is not configured, the number of operators.
pub fn operator_number(config: &Config, party: &Party) -> usize
    ensures { result ≡ operator_number config.now party.now }
{
    let operators = config.operators.as_slice();
    operator_position(operators, party).unwrap_or(operators.len())
}

/// The number of the provider in the configuration, from 0; where it is not configured, the number of providers.
pub fn provider_number(config: &Config, party: &Party) -> usize
    ensures { result ≡ provider_number config.now party.now }
{
    let providers = config.providers.as_slice();
    provider_position(providers, party).unwrap_or(providers.len())
}

/// The place behind so many entries of the operator's book.
pub fn in_book(config: &Config, operator: &Party, entries: usize) -> Place
    ensures { result ≡ in_book config.now operator.now entries }
{
    Place {
        party: operator_number(config, operator),
        entry: entries,
    }
}

/// The place behind so many entries of the provider's account.
pub fn in_account(config: &Config, provider: &Party, entries: usize) -> Place
    ensures { result ≡ in_account config.now provider.now entries }
{
    Place {
        party: provider_number(config, provider),
        entry: entries,
    }
}
