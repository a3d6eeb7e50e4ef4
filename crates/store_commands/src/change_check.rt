//! Whether the hub of a store could change to another configuration.

ghost use Rattle.std.specs.Prelude.{◌≡◌, ◌<◌, length, slice_get, string_bytes, IfOk, Some};
ghost use Rattle.plain_house.specs.declared.event.Event.{Event as EventValue};
ghost use Rattle.plain_house.specs.declared.event.Event.TheVariants as event;
ghost use Rattle.new_configuration.specs.TakenOver.{IsFirstOtherwise};
ghost use Rattle.store_commands.specs.ChangeCheck.{IsReported, forbidden_text, held_text, past_text, taken_text};

use crate::reading::{StoreText, tell_unread};
use cdr_checks::Settlement;
use command_line::{Fault, Output};
use exact_money::Amount;
use house_statements::event_name;
use line_streams::{Stream, run_stream};
use new_configuration::{TakeOverFault, house_of, loosened};
use ocpi_types::{Cdr, Config, Cost, TryCopy};
use plain_house::{Event, Hold};
use request_lines::{Device, write_all};
use std::alloc::{AllocError, Global};
use std::cell::Cell;
use std::io;

/// What is reported of a change, and the exit status.
#[derive(Drop)]
struct Report {
    text: String,
    status: u8,
}

/// Returns in words what a hold is.
#[tactic(auto, unfolding(crate::specs::ChangeCheck::held_text))]
fn hold_words(alloc: Global, hold: &Hold) -> Result<String, AllocError>
    ensures { IfOk result (λ text. string_bytes text ≡ held_text (event.Authorised hold.now)) }
{
    let amount = Amount::from_ten_thousandths(hold.amount.get() as i64);
    format!(in alloc;
        "hold {} of {} was {amount} {}",
        hold.reference.as_str(),
        hold.provider,
        hold.currency.as_str()
    )
}

/// Returns in words what a CDR is, and its cost.
#[tactic(auto, unfolding(crate::specs::ChangeCheck::held_text))]
fn cdr_words(alloc: Global, cdr: &Cdr, cost: Cost) -> Result<String, AllocError>
    ensures { IfOk result (λ text. string_bytes text ≡ held_text (event.Cdr cdr.now cost)) }
{
    let amount = Amount::from_ten_thousandths(cost.get() as i64);
    format!(in alloc;
        "CDR {} of {} cost {amount} {}",
        cdr.id.as_str(),
        cdr.operator,
        cdr.currency.as_str()
    )
}

/// Returns in words what a settlement is.
#[tactic(auto, unfolding(crate::specs::ChangeCheck::held_text))]
fn settlement_words(alloc: Global, settlement: &Settlement) -> Result<String, AllocError>
    ensures { IfOk result (λ text. string_bytes text ≡ held_text (event.Settled settlement.now)) }
{
    format!(in alloc;
        "period {} of {} in {}",
        settlement.period,
        settlement.provider,
        settlement.currency.as_str()
    )
}

/// Returns in words what an event holds.
#[tactic(auto, unfolding(crate::specs::ChangeCheck::held_text))]
fn held(alloc: Global, event: &Event) -> Result<String, AllocError>
    ensures { IfOk result (λ text. string_bytes text ≡ held_text event.now) }
{
    match event {
        Event::Tariff(tariff) => {
            format!(in alloc; "tariff {} of {}", tariff.id.as_str(), tariff.operator)
        }
        Event::Token(token) => {
            format!(in alloc; "token {} of {}", token.uid.as_str(), token.provider)
        }
        Event::Authorised(hold) => hold_words(alloc, hold),
        Event::Released(release) => {
            format!(in alloc;
                "hold {} of {}",
                release.reference.as_str(),
                release.provider
            )
        }
        Event::Cdr { cdr, cost } => cdr_words(alloc, cdr, *cost),
        Event::Credit { cdr, .. } => {
            format!(in alloc; "Credit CDR {} of {}", cdr.id.as_str(), cdr.operator)
        }
        Event::Settled(settlement) => settlement_words(alloc, settlement),
        Event::Closed { period } => format!(in alloc; "period {period}"),
    }
}

fn taken_line(alloc: Global, events: usize) -> Result<String, AllocError>
    ensures { IfOk result (λ text. string_bytes text ≡ taken_text events) }
{
    format!(in alloc; "the change would be taken; events: {events}\n")
}

fn forbidden_line(alloc: Global, number: u64, event: &Event) -> Result<String, AllocError>
    ensures { IfOk result (λ text. string_bytes text ≡ forbidden_text number event.now) }
{
    let name = event_name(event);
    let held = held(alloc, event)?;
    let held = held.as_str();
    format!(in alloc; "the change would be refused; event {number} {name}: {held}\n")
}

#[tactic(auto, unfolding(crate::specs::ChangeCheck::past_text))]
fn past_line(alloc: Global, events: usize, number: u64, event: &Event) -> Result<String, AllocError>
    ensures { IfOk result (λ text. string_bytes text ≡ past_text events number event.now) }
{
    let name = event_name(event);
    let held = held(alloc, event)?;
    let held = held.as_str();
    format!(in alloc;
        "the change would be taken; events: {events}; past it event {number} {name}: {held}\n"
    )
}

/// Reports that all of these events come out again.
fn taken(alloc: Global, events: &[Event]) -> Result<Report, AllocError>
    ensures { IfOk result (λ report. (string_bytes report.text ≡ taken_text (length events.now)) × (report.status ≡ 0)) }
{
    let text = taken_line(alloc, events.len())?;
    Ok(Report { text, status: 0 })
}

/// Reports of the event of this number that it forbids the change.
fn forbidden(alloc: Global, number: u64, events: &[Event]) -> Result<Report, AllocError>
    requires { number < length events.now }
    ensures { (event : EventValue) → slice_get events.now number ≡ Some event →
        IfOk result (λ report. (string_bytes report.text ≡ forbidden_text number event) × (report.status ≡ 3)) }
{
    let text = forbidden_line(alloc, number, &events[number as usize])?;
    Ok(Report { text, status: 3 })
}

/// Reports that the change would be made, and that of so many events that of this number is past it.
fn past(alloc: Global, count: usize, number: u64, events: &[Event]) -> Result<Report, AllocError>
    requires { number < length events.now }
    ensures { (event : EventValue) → slice_get events.now number ≡ Some event →
        IfOk result (λ report. (string_bytes report.text ≡ past_text count number event) × (report.status ≡ 0)) }
{
    let text = past_line(alloc, count, number, &events[number as usize])?;
    Ok(Report { text, status: 0 })
}

/// Reports whether a house of the loosened configuration could have these events, of which that of this number is past the configuration.
fn report_lowered(
    alloc: Global,
    config: &Config,
    events: &[Event],
    outside: u64,
) -> Result<Report, AllocError>
    requires { IsFirstOtherwise config.now events.now outside }
    ensures { IfOk result (λ report. IsReported config.now events.now (string_bytes report.text) report.status) }
{
    match house_of(alloc, loosened(alloc, config)?, events) {
        Ok(house) => {
            drop(house);
            past(alloc, events.len(), outside, events)
        }
        Err(TakeOverFault::Otherwise { event }) => forbidden(alloc, event, events),
        Err(TakeOverFault::NoMemory) => Err(AllocError),
    }
}

/// Reports whether a house of the configuration could have these events.
fn report_of(alloc: Global, config: &Config, events: &[Event]) -> Result<Report, AllocError>
    ensures { IfOk result (λ report. IsReported config.now events.now (string_bytes report.text) report.status) }
{
    match house_of(alloc, config.copy(alloc)?, events) {
        Ok(house) => {
            drop(house);
            taken(alloc, events)
        }
        Err(TakeOverFault::Otherwise { event }) => report_lowered(alloc, config, events, event),
        Err(TakeOverFault::NoMemory) => Err(AllocError),
    }
}

/// Returns the stream after the lines of a store.
fn stream_of(
    alloc: Global,
    config: &[u8],
    reader: &mut Device<StoreText>,
) -> Result<Stream, Fault<'static>> {
    let mut stream = Stream::new(alloc, Config::read(alloc, config)?)?;
    let mut writer = Device::new(io::sink());
    run_stream(alloc, reader, &mut writer, &mut stream)?;
    Ok(stream)
}

fn print(rt: &HostRuntime, report: &Report) -> Result<u8, Fault<'static>> {
    let is_gone = Cell::new(false);
    let mut writer = Device::new(Output::new(rt.stdout(), &is_gone));
    match write_all(&mut writer, report.text.as_bytes()) {
        Ok(()) => Ok(report.status),
        Err(_) if is_gone.get() => Ok(1),
        Err(_) => Err(Fault::CannotWrite),
    }
}

/// Prints whether the hub of the store could change to the configuration of these bytes, and returns the exit status: 3 if an event
/// forbids it, and 1 if the store is not read, which is told on standard error.
///
/// # Errors
///
/// The fault that ends the command before it prints anything, and `CannotWrite`.
pub fn check_change(rt: &HostRuntime, config: &[u8], store: &str) -> Result<u8, Fault<'static>> {
    let alloc = rt.alloc();
    let new = Config::read(alloc, config)?;
    let (lines, first) = match StoreText::open(rt, store) {
        Ok(opened) => opened,
        Err(fault) => return Ok(tell_unread(rt, false, store, fault)),
    };
    let mut reader = Device::new(lines);
    let read = stream_of(alloc, first.as_slice(), &mut reader);
    if let Some(fault) = reader.inner.unread() {
        return Ok(tell_unread(rt, false, store, fault));
    }
    let stream = read?;
    let events = stream.events(alloc)?;
    let report = report_of(alloc, &new, events.as_slice())?;
    Ok(print(rt, &report)?)
}
