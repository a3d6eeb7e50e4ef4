//! The table of the refused lines of a stream.

ghost use Rattle.std.specs.Prelude.{◌≡◌, ℕ, List, IfOk, Ok};
ghost use Rattle.ocpi_types.specs.ConfigText.{config_of};
ghost use Rattle.ocpi_types.specs.declared.config.Config.{Config};
ghost use Rattle.line_streams.specs.State.{StreamState, empty_under, state_of};
ghost use Rattle.request_lines.specs.Lines.{lines_of};
ghost use Rattle.house_reports.specs.explain_lines.StreamRows.{AreRows, IsStreamTable};
ghost use Rattle.house_reports.specs.explain_lines.Inner.StreamStanding.{stream_standing};
ghost use Rattle.house_reports.specs.explain_lines.Inner.StreamTelling.{IsStart};

use crate::explain_lines::streamed::explainer::StreamExplainer;
use crate::explain_lines::table::write_header;
use command_line::Fault;
use ocpi_types::Config;
use request_lines::{ScriptFault, Sink, Source, run_lines};
use std::alloc::Global;

// Writes a row for each refused line, until the reader ends, and returns whether there is one.
fn write_rows<R: Source, W: Sink>(
    alloc: Global,
    explainer: &mut StreamExplainer,
    reader: &mut R,
    writer: &mut W,
) -> Result<bool, ScriptFault>
    requires { IsStart (stream_standing explainer.old) }
    ensures { IfOk result (λ any. (calls : ℕ) × (bytes : List ℕ) × (rows : List ℕ) × (last : StreamState)
        × R.reading.gives reader.old calls bytes reader.new × R.reading.at_end reader.new × W.writing.takes writer.old rows writer.new
        × AreRows (state_of explainer.old.stream) 0 (lines_of bytes) rows any last) }
{
    let count = run_lines(alloc, reader, writer, explainer)?;
    let _lines = count.lines;
    Ok(explainer.is_any_refused)
}

// The same, by a new stream that begins under this configuration.
fn write_rows_under<R: Source, W: Sink>(
    alloc: Global,
    config: Config,
    reader: &mut R,
    writer: &mut W,
) -> Result<bool, ScriptFault>
    ensures { IfOk result (λ any. (calls : ℕ) × (bytes : List ℕ) × (rows : List ℕ) × (last : StreamState)
        × R.reading.gives reader.old calls bytes reader.new × R.reading.at_end reader.new × W.writing.takes writer.old rows writer.new
        × AreRows (empty_under config) 0 (lines_of bytes) rows any last) }
{
    let Ok(mut explainer) = StreamExplainer::new(alloc, config) else {
        return Err(ScriptFault::NoMemory);
    };
    write_rows(alloc, &mut explainer, reader, writer)
}

// Writes the header and the rows.
fn write_table<R: Source, W: Sink>(
    alloc: Global,
    config: Config,
    reader: &mut R,
    writer: &mut W,
) -> Result<bool, Fault<'static>>
    ensures { IfOk result (λ any. (calls : ℕ) × (bytes : List ℕ) × (text : List ℕ)
        × R.reading.gives reader.old calls bytes reader.new × R.reading.at_end reader.new × W.writing.takes writer.old text writer.new
        × IsStreamTable config (lines_of bytes) any text) }
{
    write_header(alloc, writer)?;
    Ok(write_rows_under(alloc, config, reader, writer)?)
}

/// Writes the table of the refused lines of a stream, until the reader ends, and returns whether there is one. The stream begins under the
/// configuration in this text.
///
/// # Errors
///
/// Why the text is no configuration, or the first error of the stream or the writer. The rows before it are written.
pub fn explain_stream<R: Source, W: Sink>(
    alloc: Global,
    text: &[u8],
    reader: &mut R,
    writer: &mut W,
) -> Result<bool, Fault<'static>>
    ensures { IfOk result (λ any. (config : Config) × (config_of text.now ≡ Ok config)
        × (calls : ℕ) × (bytes : List ℕ) × (table : List ℕ)
        × R.reading.gives reader.old calls bytes reader.new × R.reading.at_end reader.new × W.writing.takes writer.old table writer.new
        × IsStreamTable config (lines_of bytes) any table) }
{
    let config = Config::read(alloc, text)?;
    write_table(alloc, config, reader, writer)
}
