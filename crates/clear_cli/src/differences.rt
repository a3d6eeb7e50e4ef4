//! The CDRs of a house, rated again.

ghost use Rattle.std.specs.Prelude.{◌≡◌, ◌≤◌, ℕ, [], length, map, IfOk, OnOk, vec_len};
ghost use Rattle.clear_cli.specs.Differences.{difference_count};
ghost use Rattle.clear_cli.specs.Inner.RecordLists.{added_at, count_lists, no_lists, record_lists, with_event};

use ocpi_types::Config;
use ocpi_types::config::Operator;
use period_order::operator_number;
use plain_house::{BookedAmount, Event};
use re_rating::{Record, re_rate};
use std::alloc::{AllocError, Global};
use std::mem;
use std::thread::Threads;

// An empty list for each of so many operators.
fn empty_lists(alloc: Global, count: usize) -> Result<Vec<Vec<Record>>, AllocError>
    ensures { IfOk result (λ lists. map (λ list. list.items) lists.items ≡ no_lists count) }
{
    let mut lists = Vec::new(alloc);
    for _number in 0..count {
        lists.push(Vec::new(alloc))?;
    }
    Ok(lists)
}

// Adds the record to the list of this number, if there is one.
fn add_record(lists: &mut Vec<Vec<Record>>, number: usize, record: Record) -> Result<(), AllocError>
    ensures { OnOk result (map (λ list. list.items) lists.new.items ≡ added_at number «record» (map (λ list. list.items) lists.old.items)) }
{
    if let Some(list) = lists.get_mut(number) {
        list.push(record)?;
    }
    Ok(())
}

// The record of an event that is a CDR and no Credit CDR.
fn add_event(config: &Config, lists: &mut Vec<Vec<Record>>, event: &Event) -> Result<(), AllocError>
    ensures { OnOk result (map (λ list. list.items) lists.new.items ≡ with_event config.now event.now (map (λ list. list.items) lists.old.items)) }
{
    match event {
        Event::Cdr { cdr, cost } => {
            let number = operator_number(config, &cdr.operator);
            let booked = BookedAmount::of_cost(*cost).amount();
            let cdr = cdr.share()?;
            add_record(lists, number, Record { cdr, booked })
        }
        _ => Ok(()),
    }
}

// The CDRs of each operator, in the order of the configuration.
fn lists_of(
    alloc: Global,
    config: &Config,
    events: &[Event],
) -> Result<Vec<Vec<Record>>, AllocError>
    ensures { IfOk result (λ lists. map (λ list. list.items) lists.items ≡ record_lists config.now events.now 0 config.now.operators) }
{
    let mut lists = empty_lists(alloc, config.operators.as_slice().len())?;
    for event in events {
        add_event(config, &mut lists, event)?;
    }
    Ok(lists)
}

// How many records of the lists, one for each operator, are not rated at what they are booked at.
fn count_in<R: Threads + Sync>(
    rt: &R,
    alloc: Global,
    operators: &[Operator],
    lists: &[Vec<Record>],
) -> Result<u128, AllocError>
    requires { length operators.now ≡ length lists.now }
    ensures { IfOk result (λ count. count ≡ count_lists operators.now (map (λ list. list.items) lists.now)) }
{
    let mut count = 0;
    for number in 0..operators.len() {
        let found = re_rate(rt, alloc, lists[number].as_slice(), &operators[number].zone)?;
        count += found.len() as u128;
    }
    Ok(count)
}

/// How many of the CDRs that are no Credit CDRs are not rated at what they are booked at, each in the zone of its operator.
///
/// `AllocError` where memory is refused.
pub fn difference_count<R: Threads + Sync>(
    rt: &R,
    alloc: Global,
    config: &Config,
    events: &[Event],
) -> Result<u128, AllocError>
    ensures { IfOk result (λ count. count ≡ difference_count config.now events.now) }
{
    let lists = lists_of(alloc, config, events)?;
    let count = count_in(rt, alloc, config.operators.as_slice(), lists.as_slice())?;
    // The program ends after this, and the system takes the memory back at once.
    mem::forget(lists);
    Ok(count)
}
