//! The files that are written of a house that has ended.

ghost use Rattle.std.specs.Prelude.{◌≡◌, IfErr, IfOk, OnOk, map, string_bytes};
ghost use Rattle.house_statements.specs.Statement.{statement_text};
ghost use Rattle.netting_positions.specs.Statement.{statement_rows};
ghost use Rattle.plain_house.specs.Entries.{book_entries, period_of};
ghost use Rattle.plain_house.specs.Legal.{IsLegal};
ghost use Rattle.plain_house.specs.Obligations.{obligations};
ghost use Rattle.clear_cli.specs.Folder.{AreLeft, AreWritten, IsFileLeft, IsFileWritten, folder_words};
ghost use Rattle.clear_cli.specs.Inner.Stated.{CanBeStated};
ghost use Rattle.clear_cli.specs.Outputs.{IsStatementName, order_output, outputs, statement_name, statement_output, statements};

use crate::folder::{Folder, write_file};
use crate::schedule_text::WriteFault;
use house_statements::{write_order, write_statement};
use netting_positions::{Obligation, parties_of, rows_of};
use ocpi_types::{Config, Party};
use plain_house::{
    Event, legal_lists_can_be_netted, obligations_in, period_of, split_first_period,
};
use std::alloc::{AllocError, Global};

fn statement_name(alloc: Global, period: u64, party: &Party) -> Result<String, AllocError>
    ensures name { IfOk result (λ name. string_bytes name ≡ statement_name period party.now) }
    ensures form { IfOk result (λ name. IsStatementName (string_bytes name)) }
{
    let country_code = party.country_code.as_str();
    let party_id = party.party_id.as_str();
    format!(in alloc; "statement-{period}-{country_code}-{party_id}.csv")
}

// A party's statement of these obligations.
fn statement(
    alloc: Global,
    config: &Config,
    owed: &[Obligation],
    party: &Party,
) -> Result<Vec<u8>, AllocError>
    requires { CanBeStated config.now owed.now }
    ensures { IfOk result (λ text. text.items ≡ statement_text (statement_rows party.now owed.now)) }
{
    let rows = rows_of(alloc, config, owed, party)?;
    write_statement(alloc, rows.as_slice())
}

// Writes a party's statement of a period in which these are the obligations.
fn write_one<O: Folder>(
    alloc: Global,
    config: &Config,
    owed: &[Obligation],
    folder: &mut O,
    period: u64,
    party: &Party,
) -> Result<(), WriteFault>
    requires { CanBeStated config.now owed.now }
    ensures ok { OnOk result (IsFileWritten (folder_words O.making O.File.writing) (statement_output owed.now period party.now) folder.old folder.new) }
    ensures err { IfErr result (λ fault. IsFileLeft (folder_words O.making O.File.writing) (statement_output owed.now period party.now) folder.old folder.new fault) }
{
    let name = statement_name(alloc, period, party)?;
    let text = statement(alloc, config, owed, party)?;
    write_file(folder, name.as_str(), text.as_slice())
}

// Writes the statements of a period in which these are the obligations.
fn write_statements<O: Folder>(
    alloc: Global,
    config: &Config,
    owed: &[Obligation],
    folder: &mut O,
    period: u64,
    parties: &[Party],
) -> Result<(), WriteFault>
    requires { CanBeStated config.now owed.now }
    ensures ok { OnOk result (AreWritten (folder_words O.making O.File.writing) (map (statement_output owed.now period) parties.now) folder.old folder.new) }
    ensures err { IfErr result (λ fault. AreLeft (folder_words O.making O.File.writing) (map (statement_output owed.now period) parties.now) folder.old folder.new fault) }
{
    for party in parties {
        write_one(alloc, config, owed, folder, period, party)?;
    }
    Ok(())
}

// Writes the statements of a period, of which these are the events.
fn write_period<O: Folder>(
    alloc: Global,
    config: &Config,
    events: &[Event],
    folder: &mut O,
    period: u64,
    parties: &[Party],
) -> Result<(), WriteFault>
    requires { CanBeStated config.now (obligations 0 (book_entries events.now)) }
    ensures ok { OnOk result (AreWritten (folder_words O.making O.File.writing) (map (statement_output (obligations 0 (book_entries events.now)) period) parties.now) folder.old folder.new) }
    ensures err { IfErr result (λ fault. AreLeft (folder_words O.making O.File.writing) (map (statement_output (obligations 0 (book_entries events.now)) period) parties.now) folder.old folder.new fault) }
{
    if parties.is_empty() {
        return Ok(());
    }
    let owed = obligations_in(alloc, events, 0)?;
    write_statements(alloc, config, owed.as_slice(), folder, period, parties)
}

// Writes the statements of so many periods.
fn write_periods<O: Folder>(
    alloc: Global,
    config: &Config,
    events: &[Event],
    folder: &mut O,
    parties: &[Party],
    periods: u64,
) -> Result<(), WriteFault>
    requires { IsLegal config.now events.now }
    ensures ok { OnOk result (AreWritten (folder_words O.making O.File.writing) (statements events.now parties.now periods) folder.old folder.new) }
    ensures err { IfErr result (λ fault. AreLeft (folder_words O.making O.File.writing) (statements events.now parties.now periods) folder.old folder.new fault) }
{
    config.is_bounded();
    legal_lists_can_be_netted();
    let mut rest = events;
    for period in 0..periods {
        let (first, later) = split_first_period(rest);
        write_period(alloc, config, first, folder, period, parties)?;
        rest = later;
    }
    Ok(())
}

fn write_order_file<O: Folder>(
    alloc: Global,
    events: &[Event],
    folder: &mut O,
) -> Result<(), WriteFault>
    ensures ok { OnOk result (IsFileWritten (folder_words O.making O.File.writing) (order_output events.now) folder.old folder.new) }
    ensures err { IfErr result (λ fault. IsFileLeft (folder_words O.making O.File.writing) (order_output events.now) folder.old folder.new fault) }
{
    let text = write_order(alloc, events)?;
    write_file(folder, "order.csv", text.as_slice())
}

/// Writes the order of the events, and the statement of each party in each closed period. The periods are counted.
pub fn write_outputs<O: Folder>(
    alloc: Global,
    config: &Config,
    events: &[Event],
    folder: &mut O,
) -> Result<u64, WriteFault>
    requires { IsLegal config.now events.now }
    ensures periods { IfOk result (λ periods. periods ≡ period_of events.now) }
    ensures ok { OnOk result (AreWritten (folder_words O.making O.File.writing) (outputs config.now events.now) folder.old folder.new) }
    ensures err { IfErr result (λ fault. AreLeft (folder_words O.making O.File.writing) (outputs config.now events.now) folder.old folder.new fault) }
{
    let parties = parties_of(alloc, config)?;
    let periods = period_of(events);
    write_order_file(alloc, events, folder)?;
    write_periods(alloc, config, events, folder, parties.as_slice(), periods)?;
    Ok(periods)
}
