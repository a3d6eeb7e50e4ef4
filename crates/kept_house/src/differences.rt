//! Two configurations, compared by value.

ghost use Rattle.std.specs.Prelude.{◌≡◌, ◌↔◌, true};
ghost use Rattle.kept_house.specs.Differences.{AreSameOperators, IsFirstDifference, IsSameOperator};

use crate::clocks::show_same;
use ocpi_json::name::Name;
use ocpi_json::same::{Same, are_same};
use ocpi_types::Config;
use ocpi_types::config::{Limits, Operator, PairLimit, Platform, Provider, ProviderLimit};

/// A part of a configuration that can be told apart exactly. Its types are of `ocpi_types`, and `Same` is of `ocpi_json`.
trait Part {
    /// They are one value.
    fn is_same_part(&self, other: &Self) -> bool
        ensures { (result ≡ true) ↔ (self.now ≡ other.now) };
}

impl Part for ProviderLimit {
    fn is_same_part(&self, other: &ProviderLimit) -> bool {
        self.currency.is_same(&other.currency)
            && self.limit.is_same(&other.limit)
            && self.hold.is_same(&other.hold)
    }
}

impl Part for Provider {
    fn is_same_part(&self, other: &Provider) -> bool {
        self.party.is_same(&other.party)
            && are_same_parts(self.limits.as_slice(), other.limits.as_slice())
    }
}

impl Part for Platform {
    fn is_same_part(&self, other: &Platform) -> bool {
        self.name.is_same(&other.name)
            && self.parties.is_same(&other.parties)
            && self.hub.is_same(&other.hub)
    }
}

impl Part for PairLimit {
    fn is_same_part(&self, other: &PairLimit) -> bool {
        self.operator.is_same(&other.operator)
            && self.provider.is_same(&other.provider)
            && self.currency.is_same(&other.currency)
            && self.limit.is_same(&other.limit)
    }
}

impl Part for Limits {
    fn is_same_part(&self, other: &Limits) -> bool {
        self.cdrs.is_same(&other.cdrs)
            && self.tariffs.is_same(&other.tariffs)
            && self.entries.is_same(&other.entries)
            && self.order.is_same(&other.order)
            && self.periods.is_same(&other.periods)
    }
}

/// The parts of two lists are the same, one by one.
fn are_same_parts<T: Part>(ours: &[T], theirs: &[T]) -> bool
    ensures { (result ≡ true) ↔ (ours.now ≡ theirs.now) }
{
    let mut our_rest = ours;
    let mut their_rest = theirs;
    while let Some((item, our_later)) = our_rest.split_first() {
        let Some((other, their_later)) = their_rest.split_first() else {
            return false;
        };
        if !item.is_same_part(other) {
            return false;
        }
        our_rest = our_later;
        their_rest = their_later;
    }
    their_rest.is_empty()
}

/// The operators are one party, and their clocks show the same.
fn is_same_operator(ours: &Operator, theirs: &Operator) -> bool
    ensures { (result ≡ true) ↔ IsSameOperator ours.now theirs.now }
{
    ours.party.is_same(&theirs.party) && show_same(&ours.zone, &theirs.zone)
}

/// The operators of two lists are the same, one by one.
fn are_same_operators(ours: &[Operator], theirs: &[Operator]) -> bool
    ensures { (result ≡ true) ↔ AreSameOperators ours.now theirs.now }
{
    let mut our_rest = ours;
    let mut their_rest = theirs;
    while let Some((operator, our_later)) = our_rest.split_first() {
        let Some((other, their_later)) = their_rest.split_first() else {
            return false;
        };
        if !is_same_operator(operator, other) {
            return false;
        }
        our_rest = our_later;
        their_rest = their_later;
    }
    their_rest.is_empty()
}

/// Returns the name of the first member, in the order of the format, that differs in two configurations.
pub fn first_difference(ours: &Config, theirs: &Config) -> Option<Name>
    ensures { IsFirstDifference ours.now theirs.now result }
{
    if !ours.tolerance.is_same(&theirs.tolerance) {
        return Some(Name::Tolerance);
    }
    if !are_same(ours.currencies.as_slice(), theirs.currencies.as_slice()) {
        return Some(Name::Currencies);
    }
    if !are_same_operators(ours.operators.as_slice(), theirs.operators.as_slice()) {
        return Some(Name::Operators);
    }
    if !are_same_parts(ours.providers.as_slice(), theirs.providers.as_slice()) {
        return Some(Name::Providers);
    }
    if !are_same_parts(ours.platforms.as_slice(), theirs.platforms.as_slice()) {
        return Some(Name::Platforms);
    }
    if !ours.limits.is_same_part(&theirs.limits) {
        return Some(Name::Limits);
    }
    if !are_same_parts(ours.pair_limits.as_slice(), theirs.pair_limits.as_slice()) {
        return Some(Name::PairLimits);
    }
    if !ours.credit_window.is_same(&theirs.credit_window) {
        return Some(Name::CreditWindow);
    }
    None
}
