//! What is in force in a configuration: a line for each fact, in the order in which its members are read.

ghost use Rattle.std.specs.Prelude.{◌≡◌, ◌≤◌, pos};

use super::objects::{is_of_version_1, items};
use super::offset::{in_january, in_july};
use super::spelled::Spelled;
use exact_money::Amount;
use ocpi_json::Node;
use ocpi_json::name::Name;
use ocpi_types::config::{Limits, Operator, PairLimit, Platform, Provider};
use ocpi_types::{AtMost, Config, Currency, Party};
use std::alloc::{AllocError, Global};

/// An amount of so many ten-thousandths.
pub fn amount<const MOST: u64>(ten_thousandths: &AtMost<MOST>) -> Amount
    requires { MOST ≤ 1_000_000_000_000_000 }
    ensures { result ≡ pos ten_thousandths.now }
{
    Amount::from_ten_thousandths(ten_thousandths.get() as i64)
}

fn version_of(whole: &Node) -> u8 {
    if is_of_version_1(whole) { 1 } else { 2 }
}

fn zone_text<'a>(node: &Node<'a>) -> &'a str {
    let Some(zone) = node.get(Name::Zone.key()) else {
        return "";
    };
    zone.as_str().unwrap_or("")
}

fn write_operator(lines: &mut String, operator: &Operator, zone: &str) -> Result<(), AllocError> {
    let party = operator.party;
    let zone = Spelled { text: zone };
    let january = in_january(&operator.zone);
    let july = in_july(&operator.zone);
    writeln!(
        lines,
        "operator {party} zone {zone} offset {january} in January {july} in July"
    )
}

// The zone is written as the configuration has it.
fn write_operators(lines: &mut String, whole: &Node, config: &Config) -> Result<(), AllocError> {
    let nodes = items(whole, Name::Operators);
    for (operator, node) in config.operators.as_slice().iter().zip(nodes) {
        write_operator(lines, operator, zone_text(&node))?;
    }
    Ok(())
}

fn write_provider(
    lines: &mut String,
    config: &Config,
    provider: &Provider,
    currency: &Currency,
) -> Result<(), AllocError> {
    let party = provider.party;
    let limit = amount(&config.limit(&party, currency));
    let hold = amount(&config.hold(&party, currency));
    let note = match provider.row(currency) {
        Some(_) => "",
        None => " (no limit given)",
    };
    let currency = currency.as_str();
    writeln!(
        lines,
        "provider {party} {currency} limit {limit} hold {hold}{note}"
    )
}

fn write_limits_of(
    lines: &mut String,
    config: &Config,
    provider: &Provider,
) -> Result<(), AllocError> {
    for currency in config.currencies.as_slice() {
        write_provider(lines, config, provider, currency)?;
    }
    Ok(())
}

fn write_providers(lines: &mut String, config: &Config) -> Result<(), AllocError> {
    for provider in config.providers.as_slice() {
        write_limits_of(lines, config, provider)?;
    }
    Ok(())
}

fn write_right(
    lines: &mut String,
    config: &Config,
    platform: &str,
    party: &Party,
) -> Result<(), AllocError> {
    let platform = Spelled { text: platform };
    if config.is_operator(party) {
        writeln!(lines, "platform {platform} operator {party}")?;
    }
    if config.is_provider(party) {
        writeln!(lines, "platform {platform} provider {party}")?;
    }
    Ok(())
}

fn write_platform(
    lines: &mut String,
    config: &Config,
    platform: &Platform,
) -> Result<(), AllocError> {
    let name = platform.name.as_str();
    for party in platform.parties.as_slice() {
        write_right(lines, config, name, party)?;
    }
    let name = Spelled { text: name };
    if platform.hub {
        writeln!(lines, "platform {name} hub")?;
    } else if platform.parties.as_slice().is_empty() {
        writeln!(lines, "platform {name} nothing")?;
    }
    Ok(())
}

fn write_platforms(lines: &mut String, config: &Config) -> Result<(), AllocError> {
    for platform in config.platforms.as_slice() {
        write_platform(lines, config, platform)?;
    }
    Ok(())
}

fn write_limits(lines: &mut String, limits: &Limits) -> Result<(), AllocError> {
    writeln!(lines, "limits.cdrs {}", limits.cdrs.get())?;
    writeln!(lines, "limits.tariffs {}", limits.tariffs.get())?;
    writeln!(lines, "limits.entries {}", limits.entries.get())?;
    writeln!(lines, "limits.order {}", limits.order.get())?;
    writeln!(lines, "limits.periods {}", limits.periods.get())
}

fn write_pair(lines: &mut String, pair: &PairLimit) -> Result<(), AllocError> {
    let (operator, provider) = (pair.operator, pair.provider);
    let currency = pair.currency.as_str();
    let limit = amount(&pair.limit);
    writeln!(lines, "pair {operator} {provider} {currency} limit {limit}")
}

fn write_pairs(lines: &mut String, pairs: &[PairLimit]) -> Result<(), AllocError> {
    if pairs.is_empty() {
        writeln!(lines, "pair none")?;
    }
    for pair in pairs {
        write_pair(lines, pair)?;
    }
    Ok(())
}

fn write_window(lines: &mut String, window: Option<AtMost<10_000>>) -> Result<(), AllocError> {
    let Some(window) = window else {
        return writeln!(lines, "credit window none");
    };
    match window.get() {
        1 => writeln!(lines, "credit window 1 period"),
        periods => writeln!(lines, "credit window {periods} periods"),
    }
}

fn write_currencies(lines: &mut String, currencies: &[Currency]) -> Result<(), AllocError> {
    for currency in currencies {
        writeln!(lines, "currency {}", currency.as_str())?;
    }
    Ok(())
}

fn write_all(lines: &mut String, whole: &Node, config: &Config) -> Result<(), AllocError> {
    let tolerance = amount(&config.tolerance);
    writeln!(lines, "version {}", version_of(whole))?;
    writeln!(lines, "tolerance {tolerance}")?;
    write_currencies(lines, config.currencies.as_slice())?;
    write_operators(lines, whole, config)?;
    write_providers(lines, config)?;
    write_platforms(lines, config)?;
    write_limits(lines, &config.limits)?;
    write_pairs(lines, config.pair_limits.as_slice())?;
    write_window(lines, config.credit_window)
}

/// What is in force in the configuration that the value `whole` says.
pub fn in_force(alloc: Global, whole: &Node, config: &Config) -> Result<String, AllocError> {
    let mut lines = String::new(alloc);
    match write_all(&mut lines, whole, config) {
        Ok(()) => Ok(lines),
        Err(AllocError) => Err(AllocError),
    }
}
