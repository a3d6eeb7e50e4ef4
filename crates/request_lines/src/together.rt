//! A run that writes the answers to the lines of a read call together.

ghost use Rattle.std.specs.Prelude.{◌≡◌, ◌+◌, ◌-◌, ◌^◌, ◌<◌, ◌≤◌, [], length, true, false, OnOk, OnErr, IfErr, MatchResult, MatchOption, All};
ghost use Rattle.request_lines.specs.declared.faults.ScriptFault.TheVariants.{Write};
ghost use Rattle.request_lines.specs.Lines.{IsShort, last_line};
ghost use Rattle.request_lines.specs.Answering.{is_read_fault, is_write_fault};
ghost use Rattle.request_lines.specs.Together.{HasRunTogether};
ghost use Rattle.request_lines.specs.Inner.Ahead.{HasStoppedTogether};
ghost use Rattle.request_lines.specs.Inner.Gathered.{Gathers, waiting};
ghost use Rattle.request_lines.specs.Inner.Progress.{HasAnswered, state, read_last, read_from, whole_from, rest_from};

use super::answering::{Answerer, MOST_READ_CALLS, feed, finish_last, first};
use super::chained::Chained;
use super::faults::{Count, Failed, ScriptFault};
use super::gathering::Gathering;
use super::progress::Progress;
use super::streams::{Sink, Source, read_buffer, read_into};
use std::alloc::{AllocError, Global};

/// Returns the error of a writer that has failed: of the bytes answered it has taken all but those that wait.
fn cut_short<W: Sink>(gathering: &Gathering<'_, '_, W>, answered: u128) -> ScriptFault
    ensures { result ≡ Write (answered - length (waiting gathering.now.text.now.items gathering.now.sent)) }
{
    ScriptFault::Write {
        written: answered.saturating_sub(gathering.len() as u128),
    }
}

/// Returns the number of bytes in a write error.
fn count_of(fault: ScriptFault) -> Option<u128>
    ensures { MatchOption result (is_write_fault fault ≡ false) (λ count. fault ≡ Write count) }
{
    match fault {
        ScriptFault::Write { written } => Some(written),
        ScriptFault::Read | ScriptFault::NoMemory | ScriptFault::LineTooLong { line: _ } => None,
    }
}

/// Writes the bytes that wait, the last of those answered.
fn send<W: Sink>(gathering: &mut Gathering<'_, '_, W>, answered: u128) -> Result<(), ScriptFault>
    ensures writer { gathering.new.writer.ghost_name ≡ gathering.old.writer.ghost_name }
    ensures gathers { Gathers W.writing gathering.old.writer.now (waiting gathering.old.text.now.items gathering.old.sent) []
        gathering.new.writer.now (waiting gathering.new.text.now.items gathering.new.sent) }
    ensures ok { OnOk result (waiting gathering.new.text.now.items gathering.new.sent ≡ []) }
    ensures unfailed { OnOk result (W.writing.failed gathering.new.writer.now ≡ W.writing.failed gathering.old.writer.now) }
    ensures err { IfErr result (λ fault. fault ≡ Write (answered - length (waiting gathering.new.text.now.items gathering.new.sent))) }
    ensures some { OnErr result (0 < length (waiting gathering.new.text.now.items gathering.new.sent)) }
    ensures failed { OnErr result (W.writing.failed gathering.new.writer.now ≡ true) }
{
    match gathering.send() {
        Ok(()) => Ok(()),
        Err(Failed) => Err(cut_short(gathering, answered)),
    }
}

/// Answers what has come of a last line, if any has, and writes the answer.
fn finish_together<W: Sink, A: Answerer>(
    alloc: Global,
    gathering: &mut Gathering<'_, '_, W>,
    chained: &mut Chained<'_, A>,
    progress: &mut Progress,
    part: &[u8],
) -> Result<(), ScriptFault>
    requires few { progress.old.lines < 2 ^ 63 }
    requires short { IsShort part.now }
    requires waits { waiting gathering.old.text.now.items gathering.old.sent ≡ [] }
    ensures writer { gathering.new.writer.ghost_name ≡ gathering.old.writer.ghost_name }
    ensures answerer { chained.new.answerer.ghost_name ≡ chained.old.answerer.ghost_name }
    ensures ok { OnOk result (HasAnswered A.rule W.writing (last_line part.now)
        (state chained.old.answerer.now gathering.old.writer.now progress.old) (state chained.new.answerer.now gathering.new.writer.now progress.new)) }
    ensures err { IfErr result (λ fault. HasStoppedTogether A.rule W.writing (read_last part.now)
        (state chained.old.answerer.now gathering.old.writer.now progress.old) (state chained.new.answerer.now gathering.new.writer.now progress.new) fault) }
{
    let Err(fault) = finish_last(alloc, gathering, chained, progress, part) else {
        return send(gathering, progress.written);
    };
    if let Some(answered) = count_of(fault) {
        return Err(cut_short(gathering, answered));
    }
    send(gathering, progress.written)?;
    Err(fault)
}

/// Answers the lines that end in these bytes, keeps what has come of the next, and writes the answers.
fn feed_together<W: Sink, A: Answerer>(
    alloc: Global,
    gathering: &mut Gathering<'_, '_, W>,
    chained: &mut Chained<'_, A>,
    progress: &mut Progress,
    part: &mut Vec<u8>,
    bytes: &[u8],
) -> Result<(), ScriptFault>
    requires few { progress.old.lines + length bytes.now < 2 ^ 63 }
    requires block { length bytes.now ≤ 4194304 }
    requires short { IsShort part.old.items }
    requires waits { waiting gathering.old.text.now.items gathering.old.sent ≡ [] }
    ensures writer { gathering.new.writer.ghost_name ≡ gathering.old.writer.ghost_name }
    ensures answerer { chained.new.answerer.ghost_name ≡ chained.old.answerer.ghost_name }
    ensures waits { OnOk result (waiting gathering.new.text.now.items gathering.new.sent ≡ []) }
    ensures ok { OnOk result (HasAnswered A.rule W.writing (whole_from part.old.items bytes.now)
        (state chained.old.answerer.now gathering.old.writer.now progress.old) (state chained.new.answerer.now gathering.new.writer.now progress.new)) }
    ensures part { OnOk result (part.new.items ≡ rest_from part.old.items bytes.now) }
    ensures short { OnOk result (IsShort part.new.items) }
    ensures each_short { OnOk result (All IsShort (whole_from part.old.items bytes.now)) }
    ensures few { OnOk result (progress.new.lines ≤ progress.old.lines + length bytes.now) }
    ensures err { IfErr result (λ fault. HasStoppedTogether A.rule W.writing (read_from part.old.items bytes.now)
        (state chained.old.answerer.now gathering.old.writer.now progress.old) (state chained.new.answerer.now gathering.new.writer.now progress.new) fault) }
{
    let Err(fault) = feed(alloc, gathering, chained, progress, part, bytes) else {
        return send(gathering, progress.written);
    };
    if let Some(answered) = count_of(fault) {
        return Err(cut_short(gathering, answered));
    }
    send(gathering, progress.written)?;
    Err(fault)
}

/// Answers the lines of the reader in turn, read by parts into the buffer, until it ends. What has come of a line that has not ended waits
/// in `part`.
fn run_by_calls<R: Source, W: Sink, A: Answerer>(
    alloc: Global,
    reader: &mut R,
    gathering: &mut Gathering<'_, '_, W>,
    chained: &mut Chained<'_, A>,
    buffer: &mut Vec<u8>,
    part: &mut Vec<u8>,
) -> Result<Count, ScriptFault>
    requires ready { A.can_look_ahead }
    requires some { 0 < length buffer.old.items }
    requires buffer { length buffer.old.items ≤ 4194304 }
    requires part { part.old.items ≡ [] }
    requires waits { waiting gathering.old.text.now.items gathering.old.sent ≡ [] }
    ensures writer { gathering.new.writer.ghost_name ≡ gathering.old.writer.ghost_name }
    ensures answerer { chained.new.answerer.ghost_name ≡ chained.old.answerer.ghost_name }
    ensures told { HasRunTogether A.rule R.reading W.writing chained.old.answerer.now chained.new.answerer.now reader.old reader.new gathering.old.writer.now gathering.new.writer.now result }
    ensures end { OnOk result (R.reading.at_end reader.new) }
    ensures reader { MatchResult result (λ _. R.reading.failed reader.new ≡ R.reading.failed reader.old)
        (λ fault. is_read_fault fault ≡ false → R.reading.failed reader.new ≡ R.reading.failed reader.old) }
    ensures unfailed { OnOk result (W.writing.failed gathering.new.writer.now ≡ W.writing.failed gathering.old.writer.now) }
    ensures failed { IfErr result (λ fault. is_write_fault fault ≡ true → W.writing.failed gathering.new.writer.now ≡ true) }
    ensures kept { IfErr result (λ fault. is_write_fault fault ≡ false → W.writing.failed gathering.new.writer.now ≡ W.writing.failed gathering.old.writer.now) }
{
    let mut progress = Progress {
        lines: 0,
        written: 0,
    };
    let mut bytes = 0u128;
    for turn in 0..MOST_READ_CALLS {
        let n = match read_into(reader, buffer) {
            Ok(n) => n,
            Err(Failed) => return Err(ScriptFault::Read),
        };
        if n == 0 {
            finish_together(alloc, gathering, chained, &mut progress, part.as_slice())?;
            return Ok(Count {
                lines: progress.lines,
                bytes,
            });
        }
        bytes += n as u128;
        let chunk = first(buffer, n);
        chained.answerer.look_ahead(alloc, chunk);
        feed_together(alloc, gathering, chained, &mut progress, part, chunk)?;
    }
    Err(ScriptFault::Read)
}

/// Answers the lines of the reader in turn, until it ends, and writes the answers to the lines of a read call together, before the next read
/// call, which asks for so many bytes. A client that waits for an answer has it, as with `run_lines`. If the writer fails, the answerer may
/// have answered further lines of that read call.
pub fn run_lines_together<R: Source, W: Sink, A: Answerer>(
    alloc: Global,
    reader: &mut R,
    writer: &mut W,
    answerer: &mut A,
    read_bytes: usize,
) -> Result<Count, ScriptFault>
    requires ready { A.can_look_ahead }
    requires some { 0 < read_bytes }
    requires few { read_bytes ≤ 4194304 }
    // The writer took the answers to all lines that the reader returned, or to those before the error.
    ensures told { HasRunTogether A.rule R.reading W.writing answerer.old answerer.new reader.old reader.new writer.old writer.new result }
    ensures end { OnOk result (R.reading.at_end reader.new) }

    // The reader fails only at a read fault, and the writer just at a write fault.
    ensures reader { MatchResult result (λ _. R.reading.failed reader.new ≡ R.reading.failed reader.old)
        (λ fault. is_read_fault fault ≡ false → R.reading.failed reader.new ≡ R.reading.failed reader.old) }
    ensures unfailed { OnOk result (W.writing.failed writer.new ≡ W.writing.failed writer.old) }
    ensures failed { IfErr result (λ fault. is_write_fault fault ≡ true → W.writing.failed writer.new ≡ true) }
    ensures kept { IfErr result (λ fault. is_write_fault fault ≡ false → W.writing.failed writer.new ≡ W.writing.failed writer.old) }
{
    let mut buffer = match read_buffer(alloc, read_bytes) {
        Ok(buffer) => buffer,
        Err(AllocError) => return Err(ScriptFault::NoMemory),
    };
    let mut text = Vec::new(alloc);
    let mut gathering = Gathering {
        writer,
        text: &mut text,
        sent: 0,
    };
    let mut chained = Chained { answerer };
    let mut part = Vec::new(alloc);
    run_by_calls(
        alloc,
        reader,
        &mut gathering,
        &mut chained,
        &mut buffer,
        &mut part,
    )
}
