//! Reading the parts of a configuration.

ghost use Rattle.std.specs.Prelude.{◌≡◌};
ghost use Rattle.ocpi_json.specs.Faults.{Finds};
ghost use Rattle.ocpi_json.specs.Fields.{each_of};
ghost use Rattle.ocpi_json.specs.Members.{each};
ghost use Rattle.ocpi_json.specs.declared.name.Name.TheVariants as name;
ghost use Rattle.ocpi_types.specs.ConfigParts.{currency_at, listed_party, operator_at, provider_at};

use super::lookups::{has_currency, operator_among, provider_among};
use super::{Limits, Operator, PairLimit, Platform, Provider, ProviderLimit};
use crate::bounded::AtMost;
use crate::currency::Currency;
use crate::different::{Distinct, are_all_different};
use crate::members::{self, at_most, at_most_or_none, ensure};
use crate::party::Party;
use ocpi_json::fields::{self, FieldFault};
use ocpi_json::name::Name;
use ocpi_json::objects::{FromNode, FromText, within, within_in};
use ocpi_json::sequence::Sequence;
use ocpi_json::{Expected, MemberFault, Node, Nodes, Step};
use std::alloc::Global;

// No configuration has room for a list of so many items.
const MOST_ITEMS: usize = 1_048_576;

/// The currencies and parties of a configuration, which its other parts name.
#[derive(Drop)]
pub struct Listed {
    pub currencies: Distinct<Currency, 16>,
    pub operators: Distinct<Operator, 64>,
    pub providers: Distinct<Provider, 64>,
}

/// A type whose values stand in nodes, name what is listed, and take no memory.
pub trait FromNodeWith<C>: Sized {
    ghost use Rattle.std.specs.Prelude.{◌≡◌, Result};
    ghost use Rattle.json.specs.Json.{Json as Data};
    ghost use Rattle.ocpi_json.specs.declared.member_fault.MemberFault.{MemberFault};

    ghost at_with: { C → Data → Result Self MemberFault };

    fn from_node_with(listed: &C, node: &Node) -> Result<Self, MemberFault>
        ensures { result ≡ at_with listed.now node.now };
}

/// A type whose values stand in nodes, name what is listed, and take memory.
pub trait FromNodeWithIn<C>: Sized {
    ghost use Rattle.std.specs.Prelude.{Result};
    ghost use Rattle.json.specs.Json.{Json as Data};
    ghost use Rattle.ocpi_json.specs.Faults.{Finds};
    ghost use Rattle.ocpi_json.specs.declared.member_fault.MemberFault.{MemberFault};

    ghost at_with: { C → Data → Result Self MemberFault };

    fn from_node_with_in(alloc: Global, listed: &C, node: &Node) -> Result<Self, FieldFault>
        ensures { Finds result (at_with listed.now node.now) };
}

/// The values that stand in the items of the list in the member of that name, in order.
pub fn read_each_with<C, T: FromNodeWith<C> + Drop>(
    alloc: Global,
    listed: &C,
    name: Name,
    mut nodes: Nodes,
) -> Result<Sequence<T>, FieldFault>
    ensures { Finds result (each name (T.at_with listed.now) nodes.entry) }
{
    let mut values = Sequence::with_capacity(alloc, nodes.len())?;
    while let Some(node) = nodes.next() {
        let step = Step::item(name, values.as_slice().len());
        values.push(within(step, T::from_node_with(listed, &node))?)?;
    }
    Ok(values)
}

/// The same of a type whose values take memory.
pub fn read_each_with_in<C, T: FromNodeWithIn<C> + Drop>(
    alloc: Global,
    listed: &C,
    name: Name,
    mut nodes: Nodes,
) -> Result<Sequence<T>, FieldFault>
    ensures { Finds result (each name (T.at_with listed.now) nodes.entry) }
{
    let mut values = Sequence::with_capacity(alloc, nodes.len())?;
    while let Some(node) = nodes.next() {
        let step = Step::item(name, values.as_slice().len());
        values.push(within_in(step, T::from_node_with_in(alloc, listed, &node))?)?;
    }
    Ok(values)
}

#[tactic(auto, unfolding(crate::specs::ConfigParts::currency_at))]
fn currency(currencies: &[Currency], node: &Node) -> Result<Currency, MemberFault>
    ensures { result ≡ currency_at currencies.now node.now }
{
    let currency = members::currency(node, Name::Currency)?;
    let is_known = has_currency(currencies, &currency);
    ensure(is_known, Name::Currency, Expected::ListedCurrency)?;
    Ok(currency)
}

#[tactic(auto, unfolding(crate::specs::ConfigParts::operator_at))]
fn operator(listed: &Listed, node: &Node) -> Result<Party, MemberFault>
    ensures { result ≡ operator_at listed.now node.now }
{
    let operator = members::party(node, Name::Operator)?;
    let is_known = listed.has_operator(&operator);
    ensure(is_known, Name::Operator, Expected::ListedOperator)?;
    Ok(operator)
}

#[tactic(auto, unfolding(crate::specs::ConfigParts::provider_at))]
fn provider(listed: &Listed, node: &Node) -> Result<Party, MemberFault>
    ensures { result ≡ provider_at listed.now node.now }
{
    let provider = members::party(node, Name::Provider)?;
    let is_known = listed.has_provider(&provider);
    ensure(is_known, Name::Provider, Expected::ListedProvider)?;
    Ok(provider)
}

impl Listed {
    ghost use Rattle.std.specs.Prelude.{◌≡◌, is_some};
    ghost use Rattle.ocpi_types.specs.Config.{operator_among, provider_among};
    ghost use Rattle.ocpi_types.specs.ConfigParts.{has_party};

    /// The party is configured as an operator.
    fn has_operator(&self, party: &Party) -> bool
        ensures { result ≡ is_some (operator_among self.now.operators party.now) }
    {
        operator_among(self.operators.as_slice(), party).is_some()
    }

    /// The party is configured as a provider.
    fn has_provider(&self, party: &Party) -> bool
        ensures { result ≡ is_some (provider_among self.now.providers party.now) }
    {
        provider_among(self.providers.as_slice(), party).is_some()
    }

    /// The party is configured as an operator or as a provider.
    fn has_party(&self, party: &Party) -> bool
        ensures { result ≡ has_party self.now party.now }
    {
        self.has_operator(party) || self.has_provider(party)
    }
}

impl FromNode for Operator {
    ghost use Rattle.ocpi_types.specs.ConfigParts.{operator_entry_at};

    ghost at = { operator_entry_at };

    #[tactic(auto, unfolding(crate::specs::ConfigParts::operator_entry_at))]
    fn from_node(node: &Node) -> Result<Operator, MemberFault> {
        let party = members::party(node, Name::Party)?;
        let zone = fields::parsed(node, Name::Zone)?;
        Ok(Operator { party, zone })
    }
}

impl FromNodeWith<Distinct<Currency, 16>> for ProviderLimit {
    ghost use Rattle.ocpi_types.specs.ConfigParts.{provider_limit_at};

    ghost at_with = { provider_limit_at };

    #[tactic(auto, unfolding(crate::specs::ConfigParts::provider_limit_at))]
    fn from_node_with(
        currencies: &Distinct<Currency, 16>,
        node: &Node,
    ) -> Result<ProviderLimit, MemberFault> {
        let currency = currency(currencies.as_slice(), node)?;
        let limit = at_most(node, Name::Limit, 0)?;
        let hold = at_most(node, Name::Hold, 1)?;
        Ok(ProviderLimit {
            currency,
            limit,
            hold,
        })
    }
}

impl FromNodeWithIn<Distinct<Currency, 16>> for Provider {
    ghost use Rattle.ocpi_types.specs.ConfigParts.{provider_entry_at};

    ghost at_with = { provider_entry_at };

    #[tactic(auto, unfolding(crate::specs::ConfigParts::provider_entry_at))]
    fn from_node_with_in(
        alloc: Global,
        currencies: &Distinct<Currency, 16>,
        node: &Node,
    ) -> Result<Provider, FieldFault> {
        let party = members::party(node, Name::Party)?;
        let nodes = fields::list_or_empty(node, Name::Limits, MOST_ITEMS)?;
        let limits = read_each_with(alloc, currencies, Name::Limits, nodes)?;
        let are_different = are_all_different(limits.as_slice());
        ensure(are_different, Name::Limits, Expected::Different)?;
        Ok(Provider { party, limits })
    }
}

// The party of an item of a platform's list.
fn listed_party(listed: &Listed, node: &Node) -> Option<Party>
    ensures { result ≡ (listed_party listed.now).means node.now }
{
    let party = Party::from_text(node.as_str()?)?;
    if listed.has_party(&party) {
        Some(party)
    } else {
        None
    }
}

fn read_parties(
    alloc: Global,
    listed: &Listed,
    mut nodes: Nodes,
) -> Result<Sequence<Party>, FieldFault>
    ensures { Finds result (each_of (listed_party listed.now) name.Parties 0 nodes.entry) }
{
    let mut parties = Sequence::with_capacity(alloc, nodes.len())?;
    while let Some(node) = nodes.next() {
        let step = Step::item(Name::Parties, parties.as_slice().len());
        let Some(party) = listed_party(listed, &node) else {
            return Err(FieldFault::Field(MemberFault::at(step, Expected::ListedParty)));
        };
        parties.push(party)?;
    }
    Ok(parties)
}

impl FromNodeWithIn<Listed> for Platform {
    ghost use Rattle.ocpi_types.specs.ConfigParts.{platform_at};

    ghost at_with = { platform_at };

    #[tactic(auto, unfolding(crate::specs::ConfigParts::platform_at))]
    fn from_node_with_in(
        alloc: Global,
        listed: &Listed,
        node: &Node,
    ) -> Result<Platform, FieldFault> {
        let name = fields::ci_text(node, Name::Name)?;
        let nodes = fields::list_or_empty(node, Name::Parties, MOST_ITEMS)?;
        let parties = read_parties(alloc, listed, nodes)?;
        let hub = fields::flag_or_none(node, Name::Hub)?.unwrap_or(false);
        Ok(Platform { name, parties, hub })
    }
}

impl FromNodeWith<Listed> for PairLimit {
    ghost use Rattle.ocpi_types.specs.ConfigParts.{pair_limit_at};

    ghost at_with = { pair_limit_at };

    #[tactic(auto, unfolding(crate::specs::ConfigParts::pair_limit_at))]
    fn from_node_with(listed: &Listed, node: &Node) -> Result<PairLimit, MemberFault> {
        let operator = operator(listed, node)?;
        let provider = provider(listed, node)?;
        let currency = currency(listed.currencies.as_slice(), node)?;
        let limit = at_most(node, Name::Limit, 0)?;
        Ok(PairLimit {
            operator,
            provider,
            currency,
            limit,
        })
    }
}

impl Limits {
    ghost use Rattle.std.specs.Prelude.{◌≡◌};
    ghost use Rattle.ocpi_types.specs.ConfigParts.{largest};

    /// Each at its bound.
    pub fn largest() -> Limits
        ensures { result ≡ largest }
    {
        Limits {
            cdrs: AtMost::most(),
            tariffs: AtMost::most(),
            entries: AtMost::most(),
            order: AtMost::most(),
            periods: AtMost::most(),
        }
    }
}

impl FromNode for Limits {
    ghost use Rattle.ocpi_types.specs.ConfigParts.{limits_at};

    ghost at = { limits_at };

    #[tactic(auto, unfolding(crate::specs::ConfigParts::limits_at))]
    fn from_node(node: &Node) -> Result<Limits, MemberFault> {
        let cdrs = at_most_or_none(node, Name::Cdrs, 1)?.unwrap_or(AtMost::most());
        let tariffs = at_most_or_none(node, Name::Tariffs, 1)?.unwrap_or(AtMost::most());
        let entries = at_most_or_none(node, Name::Entries, 1)?.unwrap_or(AtMost::most());
        let order = at_most_or_none(node, Name::Order, 1)?.unwrap_or(AtMost::most());
        let periods = at_most_or_none(node, Name::Periods, 1)?.unwrap_or(AtMost::most());
        Ok(Limits {
            cdrs,
            tariffs,
            entries,
            order,
            periods,
        })
    }
}
