//! A stream over a reader and a writer.

ghost use Rattle.std.specs.Prelude.{◌≡◌, true, false, IfErr, OnOk, MatchResult};
ghost use Rattle.request_lines.specs.Answering.{HasRun, is_read_fault, is_write_fault};
ghost use Rattle.request_lines.specs.Together.{HasRunTogether};
ghost use Rattle.line_streams.specs.State.{state_of};
ghost use Rattle.line_streams.specs.Stream.{stream_rule};

use crate::line_stream::LineStream;
use crate::stream::Stream;
use request_lines::{Count, READ_BYTES, ScriptFault, Sink, Source, run_lines, run_lines_together};
use std::alloc::Global;

/// Answers the lines of the reader in turn, until it ends.
pub fn run_stream<R: Source, W: Sink>(
    alloc: Global,
    reader: &mut R,
    writer: &mut W,
    stream: &mut Stream,
) -> Result<Count, ScriptFault>
    // The writer took the answers to all lines that the reader returned, or to those before the error.
    ensures told { HasRun stream_rule R.reading W.writing (state_of stream.old) (state_of stream.new) reader.old reader.new writer.old writer.new result }
    ensures end { OnOk result (R.reading.at_end reader.new) }
    ensures reader { MatchResult result (λ _. R.reading.failed reader.new ≡ R.reading.failed reader.old)
        (λ fault. is_read_fault fault ≡ false → R.reading.failed reader.new ≡ R.reading.failed reader.old) }
    ensures unfailed { OnOk result (W.writing.failed writer.new ≡ W.writing.failed writer.old) }
    ensures failed { IfErr result (λ fault. is_write_fault fault ≡ true → W.writing.failed writer.new ≡ true) }
    ensures kept { IfErr result (λ fault. is_write_fault fault ≡ false → W.writing.failed writer.new ≡ W.writing.failed writer.old) }
{
    run_lines(alloc, reader, writer, stream)
}

/// Answers the lines of the reader in turn, until it ends, and writes the answers to the lines of a read call together, before the next
/// read call. If the writer fails, the stream may be past lines whose answers are not written, all of them lines of that read call.
pub fn run_stream_together<R: Source, W: Sink, A: LineStream>(
    alloc: Global,
    reader: &mut R,
    writer: &mut W,
    stream: &mut A,
) -> Result<Count, ScriptFault>
    // The writer took the answers to all lines that the reader returned, or to those before the error.
    ensures told { HasRunTogether A.state_rule R.reading W.writing (A.state stream.old) (A.state stream.new) reader.old reader.new writer.old writer.new result }
    ensures end { OnOk result (R.reading.at_end reader.new) }
    ensures reader { MatchResult result (λ _. R.reading.failed reader.new ≡ R.reading.failed reader.old)
        (λ fault. is_read_fault fault ≡ false → R.reading.failed reader.new ≡ R.reading.failed reader.old) }
    ensures unfailed { OnOk result (W.writing.failed writer.new ≡ W.writing.failed writer.old) }
    ensures failed { IfErr result (λ fault. is_write_fault fault ≡ true → W.writing.failed writer.new ≡ true) }
    ensures kept { IfErr result (λ fault. is_write_fault fault ≡ false → W.writing.failed writer.new ≡ W.writing.failed writer.old) }
{
    run_lines_together(alloc, reader, writer, stream, READ_BYTES)
}
