//! Reading a configuration.

ghost use Rattle.std.specs.Prelude.{◌≡◌};
ghost use Rattle.ocpi_json.specs.Faults.{Finds};
ghost use Rattle.ocpi_types.specs.Inner.ConfigStated.{config_from, config_in_parts, stated_at};
ghost use Rattle.ocpi_types.specs.ConfigText.{currencies_at, listed_at, operators_at, providers_at, platforms_at, house_limits_at, pair_limits_at, stated_pair_limits_at, credit_window_at};

use super::parts::{Listed, read_each_with, read_each_with_in};
use super::{Config, Limits, Operator, PairLimit, Platform, Provider, Tolerance};
use crate::bounded::AtMost;
use crate::currency::Currency;
use crate::different::Distinct;
use crate::members::at_most_or_none;
use ocpi_json::fields::{self, FieldFault};
use ocpi_json::name::Name;
use ocpi_json::objects::{FromNodeIn, parsed_each, read_each, read_if_any};
use ocpi_json::{MemberFault, Node, ReadFault, Room};
use std::alloc::Global;
use thiserror::Error;

/// Why a configuration was not read.
#[derive(Clone, Copy, Debug, PartialEq, Eq, Error)]
pub enum ConfigFault {
    /// It is no JSON, or longer than 1,048,576 bytes.
    #[error("config: syntax")]
    Syntax,
    /// The member is missing, of a wrong kind or out of bounds, names what is not configured, or says something twice.
    #[error("config: {0}")]
    Member(MemberFault),
    #[error("no memory")]
    NoMemory,
}

impl From<ReadFault> for ConfigFault {
    ghost use Rattle.std.specs.Prelude.{◌≡◌};
    ghost use Rattle.ocpi_types.specs.ConfigFaults.{from_read};

    ghost from_gives = { λ fault e. e ≡ from_read fault };

    fn from(fault: ReadFault) -> ConfigFault {
        match fault {
            ReadFault::Syntax => ConfigFault::Syntax,
            ReadFault::NoMemory => ConfigFault::NoMemory,
        }
    }
}

impl From<FieldFault> for ConfigFault {
    ghost use Rattle.std.specs.Prelude.{◌≡◌};
    ghost use Rattle.ocpi_types.specs.ConfigFaults.{from_field};

    ghost from_gives = { λ fault e. e ≡ from_field fault };

    fn from(fault: FieldFault) -> ConfigFault {
        match fault {
            FieldFault::Field(fault) => ConfigFault::Member(fault),
            FieldFault::NoMemory => ConfigFault::NoMemory,
        }
    }
}

#[tactic(auto, unfolding(crate::specs::ConfigText::currencies_at))]
fn read_currencies(alloc: Global, node: &Node) -> Result<Distinct<Currency, 16>, FieldFault>
    ensures { Finds result (currencies_at node.now) }
{
    let nodes = fields::list(node, Name::Currencies, 1, 16)?;
    let currencies = parsed_each(alloc, Name::Currencies, nodes)?;
    Ok(Distinct::new(currencies, Name::Currencies)?)
}

#[tactic(auto, unfolding(crate::specs::ConfigText::operators_at))]
fn read_operators(alloc: Global, node: &Node) -> Result<Distinct<Operator, 64>, FieldFault>
    ensures { Finds result (operators_at node.now) }
{
    let nodes = fields::list(node, Name::Operators, 1, 64)?;
    let operators = read_each(alloc, Name::Operators, nodes)?;
    Ok(Distinct::new(operators, Name::Operators)?)
}

#[tactic(auto, unfolding(crate::specs::ConfigText::providers_at))]
fn read_providers(
    alloc: Global,
    currencies: &Distinct<Currency, 16>,
    node: &Node,
) -> Result<Distinct<Provider, 64>, FieldFault>
    ensures { Finds result (providers_at currencies.now node.now) }
{
    let nodes = fields::list(node, Name::Providers, 1, 64)?;
    let providers = read_each_with_in(alloc, currencies, Name::Providers, nodes)?;
    Ok(Distinct::new(providers, Name::Providers)?)
}

#[tactic(auto, unfolding(crate::specs::ConfigText::platforms_at))]
fn read_platforms(
    alloc: Global,
    listed: &Listed,
    node: &Node,
) -> Result<Distinct<Platform, 128>, FieldFault>
    ensures { Finds result (platforms_at listed.now node.now) }
{
    let nodes = fields::list(node, Name::Platforms, 1, 128)?;
    let platforms = read_each_with_in(alloc, listed, Name::Platforms, nodes)?;
    Ok(Distinct::new(platforms, Name::Platforms)?)
}

#[tactic(auto, unfolding(crate::specs::ConfigText::house_limits_at))]
fn read_limits(node: &Node) -> Result<Limits, MemberFault>
    ensures { result ≡ house_limits_at node.now }
{
    let found = fields::object_or_none(node, Name::Limits)?;
    let limits = read_if_any(Name::Limits, found)?;
    Ok(limits.unwrap_or(Limits::largest()))
}

#[tactic(auto, unfolding(crate::specs::ConfigText::stated_pair_limits_at))]
fn read_stated_pair_limits(
    alloc: Global,
    listed: &Listed,
    node: &Node,
) -> Result<Distinct<PairLimit, 4096>, FieldFault>
    ensures { Finds result (stated_pair_limits_at listed.now node.now) }
{
    let nodes = fields::list_or_empty(node, Name::PairLimits, 4096)?;
    let pair_limits = read_each_with(alloc, listed, Name::PairLimits, nodes)?;
    Ok(Distinct::new(pair_limits, Name::PairLimits)?)
}

#[tactic(auto, unfolding(crate::specs::ConfigText::pair_limits_at))]
fn read_pair_limits(
    alloc: Global,
    version: u64,
    listed: &Listed,
    node: &Node,
) -> Result<Distinct<PairLimit, 4096>, FieldFault>
    ensures { Finds result (pair_limits_at version listed.now node.now) }
{
    if version == 2 {
        read_stated_pair_limits(alloc, listed, node)
    } else {
        Ok(Distinct::empty(alloc))
    }
}

#[tactic(auto, unfolding(crate::specs::ConfigText::credit_window_at))]
fn read_credit_window(version: u64, node: &Node) -> Result<Option<AtMost<10_000>>, MemberFault>
    ensures { result ≡ credit_window_at version node.now }
{
    if version == 2 {
        at_most_or_none(node, Name::CreditWindow, 0)
    } else {
        Ok(None)
    }
}

fn usual_tolerance() -> Tolerance
    ensures { result ≡ 100 }
{
    AtMost::new(100).unwrap()
}

#[tactic(auto, unfolding(crate::specs::ConfigText::listed_at))]
fn read_listed(alloc: Global, node: &Node) -> Result<Listed, FieldFault>
    ensures { Finds result (listed_at node.now) }
{
    let currencies = read_currencies(alloc, node)?;
    let operators = read_operators(alloc, node)?;
    let providers = read_providers(alloc, &currencies, node)?;
    Ok(Listed {
        currencies,
        operators,
        providers,
    })
}

/// What a configuration says of platforms and limits.
#[derive(Drop)]
struct Stated {
    platforms: Distinct<Platform, 128>,
    limits: Limits,
    pair_limits: Distinct<PairLimit, 4096>,
    credit_window: Option<AtMost<10_000>>,
}

#[tactic(auto, unfolding(crate::specs::Inner::ConfigStated::stated_at))]
fn read_stated(
    alloc: Global,
    version: u64,
    listed: &Listed,
    node: &Node,
) -> Result<Stated, FieldFault>
    ensures { Finds result (stated_at version listed.now node.now) }
{
    let platforms = read_platforms(alloc, listed, node)?;
    let limits = read_limits(node)?;
    let pair_limits = read_pair_limits(alloc, version, listed, node)?;
    let credit_window = read_credit_window(version, node)?;
    Ok(Stated {
        platforms,
        limits,
        pair_limits,
        credit_window,
    })
}

fn config_of(tolerance: Tolerance, listed: Listed, stated: Stated) -> Config
    ensures { result ≡ config_from tolerance listed stated }
{
    Config {
        tolerance,
        currencies: listed.currencies,
        operators: listed.operators,
        providers: listed.providers,
        platforms: stated.platforms,
        limits: stated.limits,
        pair_limits: stated.pair_limits,
        credit_window: stated.credit_window,
    }
}

#[tactic(auto, unfolding(crate::specs::Inner::ConfigStated::config_in_parts))]
fn read_parts(alloc: Global, node: &Node) -> Result<Config, FieldFault>
    ensures { Finds result (config_in_parts node.now) }
{
    let version = fields::whole(node, Name::Version, 1, 2)?;
    let tolerance = at_most_or_none(node, Name::Tolerance, 0)?.unwrap_or(usual_tolerance());
    let listed = read_listed(alloc, node)?;
    let stated = read_stated(alloc, version, &listed, node)?;
    Ok(config_of(tolerance, listed, stated))
}

impl FromNodeIn for Config {
    ghost use Rattle.ocpi_types.specs.ConfigText.{config_at};

    ghost at = { config_at };

    fn from_node_in(alloc: Global, node: &Node) -> Result<Config, FieldFault> {
        read_parts(alloc, node)
    }
}

impl Config {
    ghost use Rattle.ocpi_types.specs.ConfigText.{config_of};
    ghost use Rattle.ocpi_types.specs.ConfigFaults.{ReadsConfig};

    /// The configuration that a file of these bytes says.
    #[tactic(auto, unfolding(crate::specs::ConfigText::config_of))]
    pub fn read(alloc: Global, bytes: &[u8]) -> Result<Config, ConfigFault>
        ensures { ReadsConfig result (config_of bytes.now) }
    {
        if 1_048_576 < bytes.len() {
            return Err(ConfigFault::Syntax);
        }
        let mut room = Room::new(alloc);
        let line = room.read(bytes)?;
        Ok(Config::from_node_in(alloc, &line.value())?)
    }
}
