//! The open holds of a list of events.

ghost use Rattle.std.specs.Prelude.{◌≡◌, ◌<◌, ◌^◌, ◌++◌, ◌&&◌, find, filter, option_copied};
ghost use Rattle.ocpi_types.specs.Currency.{same_currency};
ghost use Rattle.ocpi_types.specs.Party.{same_party};
ghost use Rattle.std.specs.List.{list_any};
ghost use Rattle.plain_house.specs.Entries.{account_entries};
ghost use Rattle.plain_house.specs.Exposure.{ends_hold, holds_of, names, released_hold, total_held};
ghost use Rattle.plain_house.specs.declared.entry.AccountEntry.TheVariants as account;
ghost use Rattle.plain_house.specs.Happened.{ends};
ghost use Rattle.plain_house.specs.Inner.Scanned.{event_open_hold, event_open_holds, still_holds, uses, with_charge};

use super::entry::Charge;
use super::event::{Event, Hold};
use super::scope::Scope;
use cdr_checks::Release;
use ocpi_json::ci_text::CiText;
use ocpi_types::Cdr;

/// The reference is there and is this one.
pub fn names<const MOST: usize>(id: &CiText<MOST>, reference: &Option<CiText<MOST>>) -> bool
    ensures { result ≡ names id.now reference.now }
{
    match reference {
        Some(other) => *other == *id,
        None => false,
    }
}

fn is_released_by(hold: &Hold, release: &Release) -> bool
    ensures { result ≡ ends_hold hold.now (account.Release release.now) }
{
    release.operator.is(&hold.operator)
        && release.provider.is(&hold.provider)
        && release.reference == hold.reference
}

fn is_charged_by(hold: &Hold, charge: &Charge) -> bool
    ensures { result ≡ ends_hold hold.now (account.Charge charge.now) }
{
    charge.operator.is(&hold.operator)
        && charge.provider.is(&hold.provider)
        && charge.currency.is(&hold.currency)
        && names(&hold.reference, &charge.hold)
}

fn is_used_by(hold: &Hold, cdr: &Cdr) -> bool
    ensures { result ≡ (same_party cdr.now.operator hold.now.operator && same_party cdr.now.cdr_token.provider hold.now.provider
        && same_currency cdr.now.currency hold.now.currency && names hold.now.reference cdr.now.authorization_reference) }
{
    cdr.operator.is(&hold.operator)
        && cdr.cdr_token.provider.is(&hold.provider)
        && cdr.currency.is(&hold.currency)
        && names(&hold.reference, &cdr.authorization_reference)
}

// Whether the event ends the hold.
#[tactic(auto, using(crate::proofs::EntriesLemmas::one_entry))]
fn ends(event: &Event, hold: &Hold) -> bool
    ensures { result ≡ ends hold.now event.now }
{
    match event {
        Event::Released(release) => is_released_by(hold, release),
        Event::Cdr { cdr, .. } => is_used_by(hold, cdr),
        _ => false,
    }
}

fn is_ended(hold: &Hold, later: &[Event]) -> bool
    ensures { result ≡ list_any (ends hold.now) later.now }
{
    later.iter().any(|event| ends(event, hold))
}

fn uses(charge: Option<&Charge>, hold: &Hold) -> bool
    ensures { result ≡ uses (option_copied charge.entry) hold.now }
{
    match charge {
        Some(charge) => is_charged_by(hold, charge),
        None => false,
    }
}

fn still_holds(hold: &Hold, scope: &Scope, charge: Option<&Charge>) -> bool
    ensures { result ≡ still_holds scope.now (option_copied charge.entry) hold.now }
{
    scope.covers(&hold.operator, &hold.provider, &hold.currency) && !uses(charge, hold)
}

fn held_by(event: &Event, later: &[Event], scope: &Scope, charge: Option<&Charge>) -> u64
    ensures { result ≡ total_held (filter (still_holds scope.now (option_copied charge.entry)) (event_open_hold event.now later.now)) }
{
    match event {
        Event::Authorised(hold) => {
            if !is_ended(hold, later) && still_holds(hold, scope, charge) {
                hold.amount.get()
            } else {
                0
            }
        }
        _ => 0,
    }
}

#[tactic(auto, using(crate::proofs::HoldsLemmas::holds))]
fn held_by_all(events: &[Event], scope: &Scope, charge: Option<&Charge>) -> u64
    requires { total_held (filter (still_holds scope.now (option_copied charge)) (event_open_holds events.now)) < 2 ^ 64 }
    ensures { result ≡ total_held (filter (still_holds scope.now (option_copied charge.entry)) (event_open_holds events.now)) }
{
    let mut total = 0;
    let mut rest = events;
    while let Some((event, later)) = rest.split_first() {
        total += held_by(event, later, scope, charge);
        rest = later;
    }
    total
}

/// The open holds within the scope, once the charge is added where one is given, in ten-thousandths.
#[tactic(auto, using(crate::proofs::HoldsLemmas::holds_with))]
pub fn holds_of(events: &[Event], scope: &Scope, charge: Option<&Charge>) -> u64
    requires { holds_of scope.now (account_entries events.now ++ with_charge (option_copied charge)) < 2 ^ 64 }
    ensures { result ≡ holds_of scope.now (account_entries events.now ++ with_charge (option_copied charge.entry)) }
{
    held_by_all(events, scope, charge)
}

// The hold of the event, where it is open and the release ends it.
fn released_in<'a>(event: &'a Event, later: &[Event], release: &Release) -> Option<&'a Hold>
    ensures { option_copied result ≡ find (λ hold. ends_hold hold (account.Release release.now)) (event_open_hold event.now later.now) }
{
    match event {
        Event::Authorised(hold) => {
            if !is_ended(hold, later) && is_released_by(hold, release) {
                Some(hold)
            } else {
                None
            }
        }
        _ => None,
    }
}

#[tactic(auto, using(crate::proofs::HoldsLemmas::first_hold))]
fn first_released<'a>(events: &'a [Event], release: &Release) -> Option<&'a Hold>
    ensures { option_copied result ≡ find (λ hold. ends_hold hold (account.Release release.now)) (event_open_holds events.now) }
{
    let mut rest = events;
    while let Some((event, later)) = rest.split_first() {
        let found = released_in(event, later, release);
        if found.is_some() {
            return found;
        }
        rest = later;
    }
    None
}

/// The open hold that the release ends.
#[tactic(auto, using(crate::proofs::EntriesLemmas::open_in_events))]
pub fn released_hold<'a>(events: &'a [Event], release: &Release) -> Option<&'a Hold>
    ensures { option_copied result ≡ released_hold (account_entries events.now) release.now }
{
    first_released(events, release)
}
