//! The table of the refused lines of a script.

ghost use Rattle.std.specs.Prelude.{◌≡◌, ℕ, List, [], IfOk, OnOk, Ok};
ghost use Rattle.ocpi_types.specs.ConfigText.{config_of};
ghost use Rattle.ocpi_types.specs.declared.config.Config.{Config};
ghost use Rattle.request_lines.specs.Lines.{lines_of};
ghost use Rattle.house_reports.specs.explain_lines.Rows.{AreTold, IsTable, is_any_refused};
ghost use Rattle.house_reports.specs.explain_lines.Table.{header};
ghost use Rattle.house_reports.specs.explain_lines.Inner.Standing.{standing};
ghost use Rattle.house_reports.specs.explain_lines.Inner.Telling.{IsNew};

use crate::ended_house::write_text;
use crate::explain_lines::explainer::Explainer;
use crate::explain_lines::row::header;
use command_line::Fault;
use ocpi_types::Config;
use request_lines::{ScriptFault, Sink, Source, run_lines};
use std::alloc::Global;

/// Writes the names of the columns.
pub fn write_header<W: Sink>(alloc: Global, writer: &mut W) -> Result<(), Fault<'static>>
    ensures { OnOk result (W.writing.takes writer.old header writer.new) }
{
    let header = header(alloc)?;
    write_text(writer, header.as_slice())
}

// Writes a row for each refused line, until the reader ends, and returns whether there is one.
fn write_rows<R: Source, W: Sink>(
    alloc: Global,
    explainer: &mut Explainer<'_>,
    reader: &mut R,
    writer: &mut W,
) -> Result<bool, ScriptFault>
    requires { IsNew (standing explainer.old) }
    ensures { IfOk result (λ any. (calls : ℕ) × (bytes : List ℕ) × (rows : List ℕ)
        × R.reading.gives reader.old calls bytes reader.new × R.reading.at_end reader.new × W.writing.takes writer.old rows writer.new
        × AreTold explainer.old.config.now [] 0 (lines_of bytes) rows × (any ≡ is_any_refused explainer.old.config.now [] (lines_of bytes))) }
{
    let count = run_lines(alloc, reader, writer, explainer)?;
    let _lines = count.lines;
    Ok(explainer.is_any_refused)
}

// Writes the rows by a new house of this configuration.
fn write_rows_under<R: Source, W: Sink>(
    alloc: Global,
    config: &Config,
    reader: &mut R,
    writer: &mut W,
) -> Result<bool, ScriptFault>
    ensures { IfOk result (λ any. (calls : ℕ) × (bytes : List ℕ) × (rows : List ℕ)
        × R.reading.gives reader.old calls bytes reader.new × R.reading.at_end reader.new × W.writing.takes writer.old rows writer.new
        × AreTold config.now [] 0 (lines_of bytes) rows × (any ≡ is_any_refused config.now [] (lines_of bytes))) }
{
    let Ok(mut explainer) = Explainer::new(alloc, config) else {
        return Err(ScriptFault::NoMemory);
    };
    write_rows(alloc, &mut explainer, reader, writer)
}

// Writes the header and the rows.
fn write_table<R: Source, W: Sink>(
    alloc: Global,
    config: &Config,
    reader: &mut R,
    writer: &mut W,
) -> Result<bool, Fault<'static>>
    ensures { IfOk result (λ any. (calls : ℕ) × (bytes : List ℕ) × (text : List ℕ)
        × R.reading.gives reader.old calls bytes reader.new × R.reading.at_end reader.new × W.writing.takes writer.old text writer.new
        × IsTable config.now (lines_of bytes) any text) }
{
    write_header(alloc, writer)?;
    Ok(write_rows_under(alloc, config, reader, writer)?)
}

/// Writes the table of the lines that a house of the configuration in this file refuses, until the reader ends, and returns whether there
/// is one.
pub fn explain<R: Source, W: Sink>(
    alloc: Global,
    file: &[u8],
    reader: &mut R,
    writer: &mut W,
) -> Result<bool, Fault<'static>>
    ensures { IfOk result (λ any. (config : Config) × (config_of file.now ≡ Ok config)
        × (calls : ℕ) × (bytes : List ℕ) × (text : List ℕ)
        × R.reading.gives reader.old calls bytes reader.new × R.reading.at_end reader.new × W.writing.takes writer.old text writer.new
        × IsTable config (lines_of bytes) any text) }
{
    let config = Config::read(alloc, file)?;
    write_table(alloc, &config, reader, writer)
}
