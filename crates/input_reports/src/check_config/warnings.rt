//! The warnings of a configuration, in its order.

ghost use Rattle.std.specs.Prelude.{◌≡◌, ◌++◌, flat_map, IfOk, OnOk};
ghost use Rattle.std.specs.Option.{option_to_list};
ghost use Rattle.ocpi_types.specs.Config.{row_in};
ghost use Rattle.input_reports.specs.check_config.Warnings.{has_hub, has_platform, hub_warnings, is_hold_above, limit_warnings, operator_warnings, provider_warnings, row_warnings, rows_warnings, warnings};

use super::warning::Warning;
use ocpi_types::config::{Provider, ProviderLimit};
use ocpi_types::{Config, Currency, Party};
use std::alloc::{AllocError, Global};

fn has_platform(config: &Config, party: &Party) -> bool
    ensures { result ≡ has_platform config.now party.now }
{
    let mut platforms = config.platforms.as_slice().iter();
    platforms.any(|platform| platform.acts_for(party))
}

fn add_operators(found: &mut Vec<Warning>, config: &Config) -> Result<(), AllocError>
    ensures { OnOk result (found.new.items ≡ found.old.items ++ flat_map (operator_warnings config.now) config.now.operators) }
{
    for operator in config.operators.as_slice() {
        let party = operator.party;
        if !has_platform(config, &party) {
            found.push(Warning::IdleOperator { party })?;
        }
    }
    Ok(())
}

fn add_providers(found: &mut Vec<Warning>, config: &Config) -> Result<(), AllocError>
    ensures { OnOk result (found.new.items ≡ found.old.items ++ flat_map (provider_warnings config.now) config.now.providers) }
{
    for provider in config.providers.as_slice() {
        let party = provider.party;
        if !has_platform(config, &party) {
            found.push(Warning::IdleProvider { party })?;
        }
    }
    Ok(())
}

fn is_hold_above(row: &ProviderLimit) -> bool
    ensures { result ≡ is_hold_above row.now }
{
    row.limit.get() < row.hold.get()
}

fn row_warning(provider: &Provider, currency: &Currency) -> Option<Warning>
    ensures { option_to_list result ≡ row_warnings provider.now.party currency.now (row_in currency.now provider.now) }
{
    let party = provider.party;
    let Some(row) = provider.row(currency) else {
        let currency = *currency;
        return Some(Warning::NoLimit { party, currency });
    };
    if is_hold_above(row) {
        let row = *row;
        return Some(Warning::HoldAboveLimit { party, row });
    }
    None
}

fn add_rows(
    found: &mut Vec<Warning>,
    currencies: &[Currency],
    provider: &Provider,
) -> Result<(), AllocError>
    ensures { OnOk result (found.new.items ≡ found.old.items ++ rows_warnings currencies.now provider.now) }
{
    for currency in currencies {
        if let Some(warning) = row_warning(provider, currency) {
            found.push(warning)?;
        }
    }
    Ok(())
}

fn add_limits(found: &mut Vec<Warning>, config: &Config) -> Result<(), AllocError>
    ensures { OnOk result (found.new.items ≡ found.old.items ++ limit_warnings config.now) }
{
    let currencies = config.currencies.as_slice();
    for provider in config.providers.as_slice() {
        add_rows(found, currencies, provider)?;
    }
    Ok(())
}

fn has_hub(config: &Config) -> bool
    ensures { result ≡ has_hub config.now }
{
    let mut platforms = config.platforms.as_slice().iter();
    platforms.any(|platform| platform.hub)
}

fn add_hub(found: &mut Vec<Warning>, config: &Config) -> Result<(), AllocError>
    ensures { OnOk result (found.new.items ≡ found.old.items ++ hub_warnings config.now) }
{
    if !has_hub(config) {
        found.push(Warning::NoHub)?;
    }
    Ok(())
}

/// Of operators and of providers for which no platform acts, of providers' limits by provider and currency, and of a hub that is
/// not there.
///
/// # Errors
///
/// `AllocError` if an allocation fails.
pub fn warnings(alloc: Global, config: &Config) -> Result<Vec<Warning>, AllocError>
    ensures { IfOk result (λ found. found.items ≡ warnings config.now) }
{
    let mut found = Vec::new(alloc);
    add_operators(&mut found, config)?;
    add_providers(&mut found, config)?;
    add_limits(&mut found, config)?;
    add_hub(&mut found, config)?;
    Ok(found)
}

fn write_all(lines: &mut String, found: &[Warning]) -> Result<(), AllocError> {
    for warning in found {
        writeln!(lines, "warning: {warning}")?;
    }
    Ok(())
}

/// A line for each warning.
pub fn warning_lines(alloc: Global, config: &Config) -> Result<String, AllocError> {
    let found = warnings(alloc, config)?;
    let mut lines = String::new(alloc);
    match write_all(&mut lines, found.as_slice()) {
        Ok(()) => Ok(lines),
        Err(AllocError) => Err(AllocError),
    }
}
