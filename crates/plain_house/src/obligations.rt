//! What the CDRs and Credit CDRs of a list of events oblige providers to pay.

ghost use Rattle.std.specs.Prelude.{◌≡◌, ◌<◌, ◌^◌, ◌++◌, true, IfOk};
ghost use Rattle.std.specs.List.{list_all};
ghost use Rattle.std.specs.Option.{option_to_list};
ghost use Rattle.netting_positions.specs.Netting.{is_configured, parties, total_size};
ghost use Rattle.netting_positions.specs.Statement.{statement_rows};
ghost use Rattle.plain_house.specs.Entries.{book_entries, book_entry};
ghost use Rattle.plain_house.specs.House.{positions_in};
ghost use Rattle.plain_house.specs.Booked.{shown_booked};
ghost use Rattle.plain_house.specs.Obligations.{obligation_of, obligations};

use super::booked::{BookedCdr, booked_in};
use super::event::Event;
use super::periods::period_after;
use netting_positions::{
    NetPosition, Obligation, ObligationTable, Positions, StatementRow, StatementTable,
};
use ocpi_json::sequence::Sequence;
use ocpi_types::{Config, Party};
use std::alloc::{AllocError, Global};

fn obligation_of(found: &BookedCdr<'_>) -> Obligation
    ensures { result ≡ obligation_of (shown_booked found.now) }
{
    Obligation {
        operator: found.cdr.operator,
        provider: found.cdr.cdr_token.provider,
        currency: found.cdr.currency,
        amount: found.amount.amount(),
    }
}

// What the event obliges to, where it stands in the period that is wanted.
fn obligation_in(event: &Event, period: u64, wanted: u64) -> Option<Obligation>
    ensures { option_to_list result ≡ obligations wanted (book_entry event.now period) }
{
    match booked_in(event, period) {
        Some(found) if period == wanted => Some(obligation_of(&found)),
        _ => None,
    }
}

// Adds what the events of that period oblige to.
#[tactic(auto, using(crate::proofs::ObligationLemmas::obligation_rules))]
fn add_all<T: ObligationTable>(table: &mut T, events: &[Event], period: u64)
    requires configured { list_all (is_configured (T.scope table.old).parties (T.scope table.old).currencies)
        (T.obligations table.old ++ obligations period (book_entries events.now)) ≡ true }
    requires fits { total_size (T.obligations table.old ++ obligations period (book_entries events.now)) < 2 ^ 63 }
    ensures scope { T.scope table.new ≡ T.scope table.old }
    ensures obligations { T.obligations table.new ≡ T.obligations table.old ++ obligations period (book_entries events.now) }
{
    let mut current = 0;
    let mut rest = events;
    while let Some((event, later)) = rest.split_first() {
        if let Some(obligation) = obligation_in(event, current, period) {
            table.add(&obligation);
        }
        current = period_after(current, event);
        rest = later;
    }
}

/// What the CDRs and Credit CDRs of a period oblige to, in their order.
#[tactic(auto, using(crate::proofs::ObligationLemmas::obligation_rules))]
pub fn obligations_in(
    alloc: Global,
    events: &[Event],
    period: u64,
) -> Result<Vec<Obligation>, AllocError>
    ensures { IfOk result (λ found. found.items ≡ obligations period (book_entries events.now)) }
{
    let mut found = Vec::new(alloc);
    let mut current = 0;
    let mut rest = events;
    while let Some((event, later)) = rest.split_first() {
        if let Some(obligation) = obligation_in(event, current, period) {
            found.push(obligation)?;
        }
        current = period_after(current, event);
        rest = later;
    }
    Ok(found)
}

/// The net positions of all parties in a period.
pub fn positions_in(
    alloc: Global,
    config: &Config,
    events: &[Event],
    period: u64,
) -> Result<Sequence<NetPosition>, AllocError>
    requires configured { list_all (is_configured (parties config.now) config.now.currencies) (obligations period (book_entries events.now)) ≡ true }
    requires fits { total_size (obligations period (book_entries events.now)) < 2 ^ 63 }
    ensures { IfOk result (λ positions. positions ≡ positions_in config.now (book_entries events.now) period) }
{
    let mut positions = Positions::new(alloc, config)?;
    add_all(&mut positions, events, period);
    Ok(positions.into_list())
}

/// The rows of a party's statement of a period: what it and its counterparts owe each other.
pub fn statement_rows(
    alloc: Global,
    config: &Config,
    events: &[Event],
    period: u64,
    party: &Party,
) -> Result<Sequence<StatementRow>, AllocError>
    requires configured { list_all (is_configured (parties config.now) config.now.currencies) (obligations period (book_entries events.now)) ≡ true }
    requires fits { total_size (obligations period (book_entries events.now)) < 2 ^ 63 }
    ensures { IfOk result (λ rows. rows ≡ statement_rows party.now (obligations period (book_entries events.now))) }
{
    let mut table = StatementTable::new(alloc, config, *party)?;
    add_all(&mut table, events, period);
    Ok(table.into_rows())
}
