//! Printing the order of events and the statements of a house after its last line.

ghost use Rattle.std.specs.Prelude.{◌≡◌, IfErr, IfOk, OnOk, flat_map};
ghost use Rattle.house_statements.specs.Order.{order_text};
ghost use Rattle.plain_house.specs.Entries.{book_entries};
ghost use Rattle.plain_house.specs.Legal.{IsLegal};
ghost use Rattle.plain_house.specs.Obligations.{obligations};
ghost use Rattle.house_reports.specs.ended_house.Writing.{IsCutOff};
ghost use Rattle.house_reports.specs.statements.Inner.Stated.{CanBeStated};
ghost use Rattle.house_reports.specs.statements.StatementsText.{periods_text, section_text, statements_text};

use super::text::statements;
use crate::ended_house::{EndedHouse, write_text};
use command_line::Fault;
use house_statements::write_order;
use netting_positions::parties_of;
use ocpi_types::{Config, Party};
use plain_house::{
    Event, legal_lists_can_be_netted, obligations_in, period_of, split_first_period,
};
use request_lines::Sink;
use std::alloc::{AllocError, Global};

// Returns the statements of a period, of which these are the events.
fn period_text(
    alloc: Global,
    config: &Config,
    events: &[Event],
    period: u64,
    parties: &[Party],
) -> Result<Vec<u8>, AllocError>
    requires { CanBeStated config.now (obligations 0 (book_entries events.now)) }
    ensures { IfOk result (λ text. text.items ≡ flat_map (section_text (obligations 0 (book_entries events.now)) period) parties.now) }
{
    let owed = obligations_in(alloc, events, 0)?;
    statements(alloc, config, owed.as_slice(), period, parties)
}

// Prints the statements of a period, of which these are the events.
fn print_period<W: Sink>(
    alloc: Global,
    writer: &mut W,
    config: &Config,
    events: &[Event],
    period: u64,
    parties: &[Party],
) -> Result<(), Fault<'static>>
    requires { CanBeStated config.now (obligations 0 (book_entries events.now)) }
    ensures ok { OnOk result (W.writing.takes writer.old (flat_map (section_text (obligations 0 (book_entries events.now)) period) parties.now) writer.new) }
    ensures err { IfErr result (λ fault. IsCutOff W.writing (flat_map (section_text (obligations 0 (book_entries events.now)) period) parties.now) writer.old writer.new fault) }
{
    let text = period_text(alloc, config, events, period, parties)?;
    write_text(writer, text.as_slice())
}

// Prints the statements of so many periods.
fn print_periods<W: Sink>(
    alloc: Global,
    writer: &mut W,
    config: &Config,
    events: &[Event],
    parties: &[Party],
    periods: u64,
) -> Result<(), Fault<'static>>
    requires { IsLegal config.now events.now }
    ensures ok { OnOk result (W.writing.takes writer.old (periods_text events.now parties.now periods) writer.new) }
    ensures err { IfErr result (λ fault. IsCutOff W.writing (periods_text events.now parties.now periods) writer.old writer.new fault) }
{
    config.is_bounded();
    legal_lists_can_be_netted();
    let mut rest = events;
    for period in 0..periods {
        let (first, later) = split_first_period(rest);
        print_period(alloc, writer, config, first, period, parties)?;
        rest = later;
    }
    Ok(())
}

// Prints the order of events.
fn print_order<W: Sink>(
    alloc: Global,
    writer: &mut W,
    events: &[Event],
) -> Result<(), Fault<'static>>
    ensures ok { OnOk result (W.writing.takes writer.old (order_text events.now) writer.new) }
    ensures err { IfErr result (λ fault. IsCutOff W.writing (order_text events.now) writer.old writer.new fault) }
{
    let text = write_order(alloc, events)?;
    write_text(writer, text.as_slice())
}

/// Prints the order of events, and for each closed period the statement of each party.
///
/// # Errors
///
/// `NoMemory` or `CannotWrite`; a beginning of the text is written.
pub fn print<W: Sink>(
    alloc: Global,
    writer: &mut W,
    ended: &EndedHouse,
) -> Result<(), Fault<'static>>
    ensures ok { OnOk result (W.writing.takes writer.old (statements_text ended.now.config ended.now.events) writer.new) }
    ensures err { IfErr result (λ fault. IsCutOff W.writing (statements_text ended.now.config ended.now.events) writer.old writer.new fault) }
{
    let config = ended.config();
    let events = ended.events();
    let parties = parties_of(alloc, config)?;
    print_order(alloc, writer, events)?;
    let periods = period_of(events);
    print_periods(alloc, writer, config, events, parties.as_slice(), periods)?;
    Ok(())
}
