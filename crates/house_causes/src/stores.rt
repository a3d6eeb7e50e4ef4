//! Stores that have reached their limit.

ghost use Rattle.std.specs.Prelude.{◌≡◌};
ghost use Rattle.house_causes.specs.Stores.{full, limit_of, party_of};

use crate::house_cause::{HouseCause, HouseReason};
use cdr_checks::Command;
use ocpi_types::{Config, Party, Store};

// The configured limit of a store.
fn limit_of(config: &Config, what: Store) -> u64
    ensures { result ≡ limit_of config.now what }
{
    let limits = &config.limits;
    match what {
        Store::Cdrs => limits.cdrs.get(),
        Store::Tariffs => limits.tariffs.get(),
        Store::Account => limits.entries.get(),
        Store::Order => limits.order.get(),
        Store::Periods => limits.periods.get(),
    }
}

// The operator of a book, the provider of an account.
fn party_of(command: &Command, what: Store) -> Option<Party>
    ensures { result ≡ party_of command.now what }
{
    match what {
        Store::Cdrs | Store::Tariffs => command.operator(),
        Store::Account => command.provider(),
        Store::Order | Store::Periods => None,
    }
}

/// Whose store is full, and its limit.
pub fn full(config: &Config, command: &Command, what: Store) -> HouseCause
    ensures { result ≡ full config.now command.now what }
{
    HouseCause {
        place: None,
        reason: HouseReason::Full {
            what,
            party: party_of(command, what),
            limit: limit_of(config, what),
        },
        event: None,
    }
}
