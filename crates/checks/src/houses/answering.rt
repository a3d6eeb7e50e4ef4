//! The lines of a reader, answered by a house of the kind that is asked for.

ghost use Rattle.std.specs.Prelude.{◌≡◌};
ghost use Rattle.request_lines.specs.Answering.{HasRun};
ghost use Rattle.request_lines.specs.Script.{script_rule};

use super::again::Again;
use super::choice::{Choice, Kind};
use crate::check_fault::CheckFault;
use crate::shared;
use ocpi_types::{Config, TryCopy};
use period_order::BookHouse;
use plain_house::{PlainHouse, Sequential};
use request_lines::{Count, ScriptFault, Sink, Source, run_script, run_script_by};
use std::alloc::Global;
use std::sync::Wait;
use std::thread::Threads;

// Answers the lines of the reader in turn, until it ends: those that `run_script` gives.
fn run<R: Source, W: Sink, S: Sequential>(
    alloc: Global,
    reader: &mut R,
    writer: &mut W,
    config: &Config,
    house: &mut S,
    is_again: bool,
) -> Result<Count, ScriptFault>
    requires { S.config house.old ≡ config.now }
    // The writer took the answers to all lines that the reader returned, or to those before the error.
    ensures told { HasRun (script_rule config.now) R.reading W.writing (S.events house.old) (S.events house.new) reader.old reader.new writer.old writer.new result }
{
    if is_again {
        return run_script_by(alloc, reader, writer, config, house, &Again);
    }
    run_script(alloc, reader, writer, config, house)
}

fn answer_by_list<R: Source, W: Sink>(
    alloc: Global,
    config: &Config,
    is_again: bool,
    reader: &mut R,
    writer: &mut W,
) -> Result<(), CheckFault<'static>> {
    let mut house = PlainHouse::new(alloc, config.copy(alloc)?);
    run(alloc, reader, writer, config, &mut house, is_again)?;
    Ok(())
}

fn answer_by_books<R: Source, W: Sink>(
    alloc: Global,
    config: &Config,
    is_again: bool,
    reader: &mut R,
    writer: &mut W,
) -> Result<(), CheckFault<'static>> {
    let mut house = BookHouse::new(alloc, config.copy(alloc)?)?;
    run(alloc, reader, writer, config, &mut house, is_again)?;
    Ok(())
}

/// Answers the lines of the reader under the configuration of these bytes.
pub fn answer<T: Threads + Wait + Sync, R: Source, W: Sink>(
    rt: &HostRuntime,
    threads: &T,
    choice: Choice<'_>,
    file: &[u8],
    reader: &mut R,
    writer: &mut W,
) -> Result<(), CheckFault<'static>> {
    let alloc = rt.alloc();
    let config = Config::read(alloc, file)?;
    match choice.kind {
        Kind::Plain => answer_by_list(alloc, &config, choice.is_again, reader, writer),
        Kind::Books => answer_by_books(alloc, &config, choice.is_again, reader, writer),
        Kind::Shared => shared::answer(rt, threads, config, choice.is_again, reader, writer),
    }
}
