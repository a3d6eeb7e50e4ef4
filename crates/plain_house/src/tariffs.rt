//! The tariff versions that a list of events has stored.

ghost use Rattle.std.specs.Prelude.{◌≡◌, find, flat_map};
ghost use Rattle.std.specs.List.{list_any};
ghost use Rattle.std.specs.Option.{option_copied};
ghost use Rattle.plain_house.specs.Entries.{book_entries};
ghost use Rattle.plain_house.specs.Happened.{registers};
ghost use Rattle.plain_house.specs.Tariffs.{is_registered, lacks_registered, same_version, stored_version};
ghost use Rattle.plain_house.specs.Inner.Scanned.{version_of_event};

use super::event::Event;
use ocpi_types::{Cdr, Party, Tariff, same_tariff};

// The same operator, id and moment.
fn is_version(tariff: &Tariff, version: &Tariff) -> bool
    ensures { result ≡ same_version tariff.now version.now }
{
    tariff.operator.is(&version.operator)
        && tariff.id == version.id
        && tariff.last_updated == version.last_updated
}

// The tariff of the event, where it is that version.
fn stored_in<'a>(event: &'a Event, version: &Tariff) -> Option<&'a Tariff>
    ensures { option_copied result ≡ find (λ tariff. same_version tariff version.now) (version_of_event event.now) }
{
    match event {
        Event::Tariff(tariff) if is_version(tariff, version) => Some(tariff),
        _ => None,
    }
}

#[tactic(auto, using(crate::proofs::TariffsLemmas::first_version))]
fn first_stored<'a>(events: &'a [Event], version: &Tariff) -> Option<&'a Tariff>
    ensures { option_copied result ≡ find (λ tariff. same_version tariff version.now) (flat_map version_of_event events.now) }
{
    let mut rest = events;
    while let Some((event, later)) = rest.split_first() {
        let found = stored_in(event, version);
        if found.is_some() {
            return found;
        }
        rest = later;
    }
    None
}

/// The stored version of that operator, id and moment.
#[tactic(auto, using(crate::proofs::EntriesLemmas::versions_in_events))]
pub fn stored_version<'a>(events: &'a [Event], version: &Tariff) -> Option<&'a Tariff>
    ensures { option_copied result ≡ stored_version version.now (book_entries events.now) }
{
    first_stored(events, version)
}

#[tactic(auto, using(crate::proofs::EntriesLemmas::one_entry))]
fn registers(event: &Event, operator: &Party, tariff: &Tariff) -> bool
    ensures { result ≡ registers operator.now tariff.now event.now }
{
    match event {
        Event::Tariff(version) => version.operator.is(operator) && same_tariff(version, tariff),
        _ => false,
    }
}

/// Whether one of the events stores a version of the operator with the content of the tariff.
pub fn is_registered_by_any(events: &[Event], operator: &Party, tariff: &Tariff) -> bool
    ensures { result ≡ list_any (registers operator.now tariff.now) events.now }
{
    events
        .iter()
        .any(|event| registers(event, operator, tariff))
}

#[tactic(auto, using(crate::proofs::EntriesLemmas::registered_in_events))]
fn is_registered(events: &[Event], operator: &Party, tariff: &Tariff) -> bool
    ensures { result ≡ is_registered operator.now (book_entries events.now) tariff.now }
{
    is_registered_by_any(events, operator, tariff)
}

/// One of the CDR's tariffs is no stored version of its operator.
pub fn lacks_registered(events: &[Event], cdr: &Cdr) -> bool
    ensures { result ≡ lacks_registered cdr.now (book_entries events.now) }
{
    cdr.tariffs
        .as_slice()
        .iter()
        .any(|tariff| !is_registered(events, &cdr.operator, tariff))
}
