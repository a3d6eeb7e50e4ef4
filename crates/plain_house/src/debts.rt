//! What providers owe by a list of events.

ghost use Rattle.std.specs.Prelude.{◌≡◌, ◌<◌, ◌≤◌, ◌^◌, ◌++◌, [], ◌∷◌, filter, option_copied};
ghost use Rattle.std.specs.List.{list_any};
ghost use Rattle.plain_house.specs.Entries.{account_entries, account_entry};
ghost use Rattle.plain_house.specs.Exposure.{debts_of, ends_debt, exposure_of, total_charged};
ghost use Rattle.plain_house.specs.declared.entry.AccountEntry.TheVariants as account;
ghost use Rattle.plain_house.specs.Happened.{settles};
ghost use Rattle.plain_house.specs.Inner.Scanned.{event_ends_debt, is_owed_in, is_sought, owed_charges, with_charge};
ghost use Rattle.plain_house.specs.Settlements.{is_settled, settled_debt};

use super::entry::{Charge, charge_of};
use super::event::Event;
use super::holds::{holds_of, names};
use super::periods::period_after;
use super::scope::Scope;
use cdr_checks::Settlement;
use ocpi_types::Cost;

fn is_settled_by(charge: &Charge, settlement: &Settlement) -> bool
    ensures { result ≡ ends_debt charge.now (account.Settlement settlement.now) }
{
    settlement.provider.is(&charge.provider)
        && settlement.currency.is(&charge.currency)
        && settlement.period == charge.period
}

fn ends_debt(event: &Event, charge: &Charge) -> bool
    ensures { result ≡ event_ends_debt charge.now event.now }
{
    match event {
        Event::Credit { cdr, .. } => {
            cdr.operator.is(&charge.operator) && names(&charge.cdr, &cdr.credit)
        }
        Event::Settled(settlement) => is_settled_by(charge, settlement),
        _ => false,
    }
}

fn is_paid(events: &[Event], charge: &Charge) -> bool
    ensures { result ≡ list_any (event_ends_debt charge.now) events.now }
{
    events.iter().any(|event| ends_debt(event, charge))
}

/// Which charges are sought.
#[derive(Clone, Copy)]
pub enum Sought {
    Within(Scope),
    /// Those whose debts the settlement ends.
    EndedBy(Settlement),
}

fn is_sought(sought: &Sought, charge: &Charge) -> bool
    ensures { result ≡ is_sought sought.now charge.now }
{
    match sought {
        Sought::Within(scope) => {
            scope.covers(&charge.operator, &charge.provider, &charge.currency)
        }
        Sought::EndedBy(settlement) => is_settled_by(charge, settlement),
    }
}

fn owed_on(events: &[Event], charge: &Charge, sought: &Sought) -> u64
    ensures value { result ≡ total_charged (filter (is_owed_in sought.now events.now) (charge.now ∷ [])) }
    ensures bound { result ≤ 10 ^ 12 }
{
    if is_sought(sought, charge) && !is_paid(events, charge) {
        charge.cost.get()
    } else {
        0
    }
}

fn owed_by(event: &Event, period: u64, events: &[Event], sought: &Sought) -> u64
    ensures { result ≡ total_charged (owed_charges sought.now events.now (account_entry event.now period)) }
{
    match event {
        Event::Cdr { cdr, cost } => owed_on(events, &charge_of(cdr, *cost, period), sought),
        _ => 0,
    }
}

#[tactic(auto, using(crate::proofs::DebtsLemmas::debts))]
fn owed_by_all(events: &[Event], sought: &Sought) -> u64
    requires { total_charged (owed_charges sought.now events.now (account_entries events.now)) < 2 ^ 64 }
    ensures { result ≡ total_charged (owed_charges sought.now events.now (account_entries events.now)) }
{
    let mut total = 0;
    let mut period = 0;
    let mut rest = events;
    while let Some((event, later)) = rest.split_first() {
        total += owed_by(event, period, events, sought);
        period = period_after(period, event);
        rest = later;
    }
    total
}

// What one more charge adds.
fn owed_on_added(events: &[Event], sought: &Sought, charge: Option<&Charge>) -> u64
    ensures value { result ≡ total_charged (owed_charges sought.now events.now (with_charge (option_copied charge.entry))) }
    ensures bound { result ≤ 10 ^ 12 }
{
    match charge {
        Some(charge) => owed_on(events, charge, sought),
        None => 0,
    }
}

/// The debts within the scope, once the charge is added where one is given, in ten-thousandths.
#[tactic(auto, using(crate::proofs::DebtsLemmas::debts_with))]
pub fn debts_of(events: &[Event], scope: &Scope, charge: Option<&Charge>) -> u64
    requires { debts_of scope.now (account_entries events.now ++ with_charge (option_copied charge)) < 2 ^ 64 }
    ensures { result ≡ debts_of scope.now (account_entries events.now ++ with_charge (option_copied charge.entry)) }
{
    let sought = Sought::Within(*scope);
    owed_by_all(events, &sought) + owed_on_added(events, &sought, charge)
}

/// The debt that a settlement ends, in ten-thousandths.
#[tactic(auto, using(crate::proofs::DebtsLemmas::settled))]
pub fn settled_debt(events: &[Event], settlement: &Settlement) -> u64
    requires { settled_debt settlement.now (account_entries events.now) < 2 ^ 64 }
    ensures { result ≡ settled_debt settlement.now (account_entries events.now) }
{
    owed_by_all(events, &Sought::EndedBy(*settlement))
}

// Whether the event settles that period of the provider in the currency.
#[tactic(auto, using(crate::proofs::EntriesLemmas::one_entry))]
fn settles_same(event: &Event, settlement: &Settlement) -> bool
    ensures { result ≡ settles settlement.now event.now }
{
    match event {
        Event::Settled(other) => {
            other.provider.is(&settlement.provider)
                && other.currency.is(&settlement.currency)
                && other.period == settlement.period
        }
        _ => false,
    }
}

fn is_settled_by_any(events: &[Event], settlement: &Settlement) -> bool
    ensures { result ≡ list_any (settles settlement.now) events.now }
{
    events.iter().any(|event| settles_same(event, settlement))
}

/// A settlement of that provider, currency and period stands already.
pub fn is_settled(events: &[Event], settlement: &Settlement) -> bool
    ensures { result ≡ is_settled settlement.now (account_entries events.now) }
{
    is_settled_by_any(events, settlement)
}

/// The exposure within the scope, once the charge is added where one is given, in ten-thousandths.
pub fn exposure_of(events: &[Event], scope: &Scope, charge: Option<&Charge>) -> u64
    requires { exposure_of scope.now (account_entries events.now ++ with_charge (option_copied charge)) < 2 ^ 64 }
    ensures { result ≡ exposure_of scope.now (account_entries events.now ++ with_charge (option_copied charge.entry)) }
{
    holds_of(events, scope, charge) + debts_of(events, scope, charge)
}
