//! How many entries there are, and what is full.

ghost use Rattle.std.specs.Prelude.{◌≡◌, [], ◌∷◌, count_by, length};
ghost use Rattle.ocpi_types.specs.declared.refusal.Store.TheVariants as store;
ghost use Rattle.plain_house.specs.Entries.{account_entries, book_entries, period_of};
ghost use Rattle.plain_house.specs.Full.{are_cdrs_full, are_periods_full, are_versions_full, first_full, is_account_full, is_cdr_of, is_entry_of, is_order_full, is_version_of};
ghost use Rattle.plain_house.specs.Inner.Scanned.{event_is_cdr_of, event_is_entry_of, event_is_version_of};

use crate::event::Event;
use crate::periods::period_of;
use ocpi_types::{Cdr, Config, Party, Store};

fn is_entry_of(event: &Event, provider: &Party) -> bool
    ensures { result ≡ event_is_entry_of provider.now event.now }
{
    match event {
        Event::Token(token) => token.provider.is(provider),
        Event::Authorised(hold) => hold.provider.is(provider),
        Event::Released(release) => release.provider.is(provider),
        Event::Cdr { cdr, .. } => cdr.cdr_token.provider.is(provider),
        Event::Credit { cdr, .. } => cdr.cdr_token.provider.is(provider),
        Event::Settled(settlement) => settlement.provider.is(provider),
        Event::Tariff(_) | Event::Closed { .. } => false,
    }
}

fn is_version_of(event: &Event, operator: &Party) -> bool
    ensures { result ≡ event_is_version_of operator.now event.now }
{
    match event {
        Event::Tariff(tariff) => tariff.operator.is(operator),
        _ => false,
    }
}

fn is_cdr_of(event: &Event, operator: &Party) -> bool
    ensures { result ≡ event_is_cdr_of operator.now event.now }
{
    match event {
        Event::Cdr { cdr, .. } => cdr.operator.is(operator),
        Event::Credit { cdr, .. } => cdr.operator.is(operator),
        _ => false,
    }
}

fn entries_in(events: &[Event], provider: &Party) -> u64
    ensures { result ≡ count_by (event_is_entry_of provider.now) events.now }
{
    let found = events.iter().filter(|event| is_entry_of(event, provider));
    found.count() as u64
}

fn entries_of(events: &[Event], provider: &Party) -> u64
    ensures { result ≡ count_by (is_entry_of provider.now) (account_entries events.now) }
{
    entries_in(events, provider)
}

fn versions_in(events: &[Event], operator: &Party) -> u64
    ensures { result ≡ count_by (event_is_version_of operator.now) events.now }
{
    let found = events.iter().filter(|event| is_version_of(event, operator));
    found.count() as u64
}

fn versions_of(events: &[Event], operator: &Party) -> u64
    ensures { result ≡ count_by (is_version_of operator.now) (book_entries events.now) }
{
    versions_in(events, operator)
}

fn cdrs_in(events: &[Event], operator: &Party) -> u64
    ensures { result ≡ count_by (event_is_cdr_of operator.now) events.now }
{
    let found = events.iter().filter(|event| is_cdr_of(event, operator));
    found.count() as u64
}

fn cdrs_of(events: &[Event], operator: &Party) -> u64
    ensures { result ≡ count_by (is_cdr_of operator.now) (book_entries events.now) }
{
    cdrs_in(events, operator)
}

fn is_account_full(config: &Config, events: &[Event], provider: &Party) -> bool
    ensures { result ≡ is_account_full config.now provider.now (account_entries events.now) }
{
    config.limits.entries.get() <= entries_of(events, provider)
}

fn are_versions_full(config: &Config, events: &[Event], operator: &Party) -> bool
    ensures { result ≡ are_versions_full config.now operator.now (book_entries events.now) }
{
    config.limits.tariffs.get() <= versions_of(events, operator)
}

fn are_cdrs_full(config: &Config, events: &[Event], operator: &Party) -> bool
    ensures { result ≡ are_cdrs_full config.now operator.now (book_entries events.now) }
{
    config.limits.cdrs.get() <= cdrs_of(events, operator)
}

fn full_order(config: &Config, events: &[Event]) -> Option<Store>
    ensures { result ≡ first_full ((store.Order, is_order_full config.now (length events.now)) ∷ []) }
{
    if config.limits.order.get() <= events.len() as u64 {
        return Some(Store::Order);
    }
    None
}

fn are_periods_full(config: &Config, events: &[Event]) -> bool
    ensures { result ≡ are_periods_full config.now (period_of events.now) }
{
    config.limits.periods.get() <= period_of(events)
}

/// The store that is full, the order first, where a period cannot be closed.
pub fn full_for_close(config: &Config, events: &[Event]) -> Option<Store>
    ensures { result ≡ first_full ((store.Order, is_order_full config.now (length events.now))
        ∷ (store.Periods, are_periods_full config.now (period_of events.now)) ∷ []) }
{
    if full_order(config, events).is_some() {
        return Some(Store::Order);
    }
    if are_periods_full(config, events) {
        return Some(Store::Periods);
    }
    None
}

/// The store that is full, the account first, where an event of the provider cannot be added.
pub fn full_for_provider(config: &Config, events: &[Event], provider: &Party) -> Option<Store>
    ensures { result ≡ first_full ((store.Account, is_account_full config.now provider.now (account_entries events.now))
        ∷ (store.Order, is_order_full config.now (length events.now)) ∷ []) }
{
    if is_account_full(config, events, provider) {
        return Some(Store::Account);
    }
    full_order(config, events)
}

/// The store that is full, the tariffs first, where a tariff version of the operator cannot be added.
pub fn full_for_tariff(config: &Config, events: &[Event], operator: &Party) -> Option<Store>
    ensures { result ≡ first_full ((store.Tariffs, are_versions_full config.now operator.now (book_entries events.now))
        ∷ (store.Order, is_order_full config.now (length events.now)) ∷ []) }
{
    if are_versions_full(config, events, operator) {
        return Some(Store::Tariffs);
    }
    full_order(config, events)
}

/// The store that is full, the CDRs first, where a CDR or Credit CDR cannot be added.
pub fn full_for_cdr(config: &Config, events: &[Event], cdr: &Cdr) -> Option<Store>
    ensures { result ≡ first_full ((store.Cdrs, are_cdrs_full config.now cdr.now.operator (book_entries events.now))
        ∷ (store.Account, is_account_full config.now cdr.now.cdr_token.provider (account_entries events.now))
        ∷ (store.Order, is_order_full config.now (length events.now)) ∷ []) }
{
    if are_cdrs_full(config, events, &cdr.operator) {
        return Some(Store::Cdrs);
    }
    full_for_provider(config, events, &cdr.cdr_token.provider)
}
