//! The loosest configuration beside a given one.

ghost use Rattle.std.specs.Prelude.{◌≡◌, ◌++◌, ◌∷◌, [], map, max, IfOk, OnOk};
ghost use Rattle.new_configuration.specs.Loosened.{hub_for_all, largest, loosened, missing_rows, with_highest_limit, with_highest_limits};

use ocpi_json::ci_text::CiText;
use ocpi_json::name::Name;
use ocpi_json::sequence::Sequence;
use ocpi_types::config::{Limits, Operator, Platform, Provider, ProviderLimit};
use ocpi_types::{AtMost, Config, Currency, Distinct, Party, TryCopy};
use std::alloc::{AllocError, Global};

// The bound of a number, which is the greater of both.
fn highest<const MOST: u64>(number: AtMost<MOST>) -> AtMost<MOST>
    ensures { result ≡ max number.entry MOST }
{
    let _ = number.get();
    AtMost::most()
}

fn with_highest_limit(row: &ProviderLimit) -> ProviderLimit
    ensures { result ≡ with_highest_limit row.now }
{
    ProviderLimit {
        currency: row.currency,
        limit: highest(row.limit),
        hold: row.hold,
    }
}

fn add_rows(limits: &mut Sequence<ProviderLimit>, rows: &[ProviderLimit]) -> Result<(), AllocError>
    ensures { OnOk result (limits.new ≡ limits.old ++ map with_highest_limit rows.now) }
{
    for row in rows {
        limits.push(with_highest_limit(row))?;
    }
    Ok(())
}

// Adds a row for each of the currencies in which the provider has none.
fn add_missing_rows(
    limits: &mut Sequence<ProviderLimit>,
    provider: &Provider,
    currencies: &[Currency],
) -> Result<(), AllocError>
    ensures { OnOk result (limits.new ≡ limits.old ++ missing_rows provider.now currencies.now) }
{
    for currency in currencies {
        if provider.row(currency).is_none() {
            limits.push(ProviderLimit {
                currency: *currency,
                limit: AtMost::most(),
                hold: AtMost::new(1).unwrap(),
            })?;
        }
    }
    Ok(())
}

fn with_highest_limits(
    alloc: Global,
    currencies: &[Currency],
    provider: &Provider,
) -> Result<Provider, AllocError>
    ensures { IfOk result (λ loose. loose ≡ with_highest_limits currencies.now provider.now) }
{
    let mut limits = Sequence::with_capacity(alloc, currencies.len())?;
    add_rows(&mut limits, provider.limits.as_slice())?;
    add_missing_rows(&mut limits, provider, currencies)?;
    Ok(Provider {
        party: provider.party,
        limits,
    })
}

fn providers(alloc: Global, config: &Config) -> Result<Distinct<Provider, 64>, AllocError>
    ensures { IfOk result (λ loose. loose ≡ map (with_highest_limits config.now.currencies) config.now.providers) }
{
    let given = config.providers.as_slice();
    let currencies = config.currencies.as_slice();
    let mut providers = Sequence::with_capacity(alloc, given.len())?;
    for provider in given {
        providers.push(with_highest_limits(alloc, currencies, provider)?)?;
    }
    let Ok(distinct) = Distinct::new(providers, Name::Providers) else {
        unreachable!()
    };
    Ok(distinct)
}

fn add_operators(parties: &mut Sequence<Party>, operators: &[Operator]) -> Result<(), AllocError>
    ensures { OnOk result (parties.new ≡ parties.old ++ map (λ operator. operator.party) operators.now) }
{
    for operator in operators {
        parties.push(operator.party)?;
    }
    Ok(())
}

fn add_providers(parties: &mut Sequence<Party>, providers: &[Provider]) -> Result<(), AllocError>
    ensures { OnOk result (parties.new ≡ parties.old ++ map (λ provider. provider.party) providers.now) }
{
    for provider in providers {
        parties.push(provider.party)?;
    }
    Ok(())
}

fn hub_for_all(alloc: Global, config: &Config) -> Result<Platform, AllocError>
    ensures { IfOk result (λ platform. platform ≡ hub_for_all config.now) }
{
    let mut parties = Sequence::new(alloc);
    add_operators(&mut parties, config.operators.as_slice())?;
    add_providers(&mut parties, config.providers.as_slice())?;
    let name = CiText::new("hub").unwrap();
    Ok(Platform {
        name,
        parties,
        hub: true,
    })
}

fn platforms(alloc: Global, config: &Config) -> Result<Distinct<Platform, 128>, AllocError>
    ensures { IfOk result (λ platforms. platforms ≡ hub_for_all config.now ∷ []) }
{
    let mut platforms = Sequence::new(alloc);
    platforms.push(hub_for_all(alloc, config)?)?;
    let Ok(distinct) = Distinct::new(platforms, Name::Platforms) else {
        unreachable!()
    };
    Ok(distinct)
}

fn largest(limits: &Limits) -> Limits
    ensures { result ≡ largest limits.now }
{
    Limits {
        cdrs: highest(limits.cdrs),
        tariffs: highest(limits.tariffs),
        entries: highest(limits.entries),
        order: highest(limits.order),
        periods: highest(limits.periods),
    }
}

/// Returns the loosest configuration beside the given one: the highest tolerance, the highest limit of each provider in each currency,
/// the largest sizes, no pair limits, no credit window, and one platform that may ask for all. Parties, currencies, zones and holds are
/// as given.
///
/// # Errors
///
/// `AllocError` if an allocation fails.
pub fn loosened(alloc: Global, config: &Config) -> Result<Config, AllocError>
    ensures { IfOk result (λ loose. loose ≡ loosened config.now) }
{
    let mut loose = config.copy(alloc)?;
    loose.tolerance = highest(config.tolerance);
    loose.providers = providers(alloc, config)?;
    loose.platforms = platforms(alloc, config)?;
    loose.limits = largest(&config.limits);
    loose.pair_limits = Distinct::empty(alloc);
    loose.credit_window = None;
    Ok(loose)
}
