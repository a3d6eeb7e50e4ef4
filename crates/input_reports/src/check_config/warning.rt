//! Of what a configuration is warned.

use super::in_force::amount;
use ocpi_types::config::ProviderLimit;
use ocpi_types::{Currency, Party};
use std::fmt;

/// What a configuration that is in force keeps from being done.
#[derive(Clone, Copy)]
pub enum Warning {
    /// No platform acts for the operator.
    IdleOperator { party: Party },
    /// No platform acts for the provider.
    IdleProvider { party: Party },
    /// The provider has no limit in a currency of the configuration.
    NoLimit { party: Party, currency: Currency },
    /// What an authorisation holds of the provider is above its limit in that currency.
    HoldAboveLimit { party: Party, row: ProviderLimit },
    /// No platform is a hub.
    NoHub,
}

fn write_no_limit<W: fmt::Write>(
    f: &mut fmt::Formatter<W>,
    party: Party,
    currency: &Currency,
) -> fmt::Result {
    let currency = currency.as_str();
    write!(
        f,
        "provider {party} {currency}: no limit is given, so no authorisation is allowed and charges above 0.0000 are refused"
    )
}

fn write_hold_above<W: fmt::Write>(
    f: &mut fmt::Formatter<W>,
    party: Party,
    row: &ProviderLimit,
) -> fmt::Result {
    let currency = row.currency.as_str();
    let hold = amount(&row.hold);
    let limit = amount(&row.limit);
    write!(
        f,
        "provider {party} {currency}: hold {hold} is above its limit {limit}, so no authorisation is allowed"
    )
}

impl fmt::Display for Warning {
    fn fmt<W: fmt::Write>(&self, f: &mut fmt::Formatter<W>) -> fmt::Result {
        match self {
            Warning::IdleOperator { party } => write!(f, "no platform acts for operator {party}"),
            Warning::IdleProvider { party } => write!(f, "no platform acts for provider {party}"),
            Warning::NoLimit { party, currency } => write_no_limit(f, *party, currency),
            Warning::HoldAboveLimit { party, row } => write_hold_above(f, *party, row),
            Warning::NoHub => write!(f, "no platform is a hub, so no period can be closed"),
        }
    }
}
