ghost use Rattle.std.specs.Prelude.{◌≡◌, ℕ, ◌+◌, ◌^◌, ◌<◌, ◌≤◌, List, [], ◌∷◌, ◌++◌, length, take, true, false, IfOk, OnOk, OnErr, IfErr, MatchResult, All, ⊤};
ghost use Rattle.request_lines.specs.Lines.{IsShort, HasNoNewline, last_line, with_newline};
ghost use Rattle.request_lines.specs.Answering.{Rule, HasRun, is_read_fault, is_write_fault};
ghost use Rattle.request_lines.specs.Inner.Progress.{HasAnswered, HasStopped, CannotKeep, state, read_line, read_last, read_from, whole_from, rest_from};

use super::faults::{Count, Failed, ScriptFault};
use super::lines::{MOST_LINE_BYTES, split_line};
use super::progress::Progress;
use super::streams::{READ_BYTES, Sink, Source, read_buffer, read_into, write_all};
use std::alloc::{AllocError, Global};

/// How many read calls a run makes at most.
pub const MOST_READ_CALLS: u64 = 1 << 40;

/// What answers lines in turn, by whatever rule.
pub trait Answerer {
    /// The rule by which it answers.
    ghost rule: { Rule Self };

    /// What has to hold where it looks ahead.
    ghost can_look_ahead: { Type 0 } = { ⊤ };

    /// Answers a line, which stands without its newline.
    fn answer(&mut self, alloc: Global, line: &[u8]) -> Result<Vec<u8>, AllocError>
        ensures ok { IfOk result (λ text. rule.answers self.old (line.now ∷ []) text.items self.new) }
        ensures err { OnErr result (rule.gives_up self.old line.now self.new) };

    /// Looks at bytes whose lines are to be answered next. It answers none.
    fn look_ahead(&mut self, alloc: Global, bytes: &[u8])
        requires { can_look_ahead }
        ensures { rule.answers self.old [] [] self.new }
    {
        let _ = alloc;
        let _ = bytes;
    }

    ghost answers_none: { (a : Self) → rule.answers a [] [] a };

    ghost answers_more: { (a b c : Self) (ls ms : List (List ℕ)) (t u : List ℕ) → rule.answers a ls t b → rule.answers b ms u c → rule.answers a (ls ++ ms) (t ++ u) c };
}

/// Answers one line and writes the answer.
fn finish_line<W: Sink, A: Answerer>(
    alloc: Global,
    writer: &mut W,
    answerer: &mut A,
    progress: &mut Progress,
    line: &[u8],
) -> Result<(), ScriptFault>
    requires few { progress.old.lines < 2 ^ 63 }
    requires short { IsShort line.now }
    ensures ok { OnOk result (HasAnswered A.rule W.writing (line.now ∷ [])
        (state answerer.old writer.old progress.old) (state answerer.new writer.new progress.new)) }
    ensures err { IfErr result (λ fault. (others : List (List ℕ)) →
        HasStopped A.rule W.writing (read_line line.now others)
        (state answerer.old writer.old progress.old) (state answerer.new writer.new progress.new) fault) }
{
    let text = match answerer.answer(alloc, line) {
        Ok(text) => text,
        Err(AllocError) => return Err(ScriptFault::NoMemory),
    };
    match write_all(writer, text.as_slice()) {
        Ok(()) => {
            progress.lines += 1;
            progress.written += text.len() as u128;
            Ok(())
        }
        Err(sent) => Err(ScriptFault::Write {
            written: progress.written + sent as u128,
        }),
    }
}

/// Answers what has come of a last line, if any has.
pub(super) fn finish_last<W: Sink, A: Answerer>(
    alloc: Global,
    writer: &mut W,
    answerer: &mut A,
    progress: &mut Progress,
    part: &[u8],
) -> Result<(), ScriptFault>
    requires few { progress.old.lines < 2 ^ 63 }
    requires short { IsShort part.now }
    ensures ok { OnOk result (HasAnswered A.rule W.writing (last_line part.now)
        (state answerer.old writer.old progress.old) (state answerer.new writer.new progress.new)) }
    ensures err { IfErr result (λ fault. HasStopped A.rule W.writing (read_last part.now)
        (state answerer.old writer.old progress.old) (state answerer.new writer.new progress.new) fault) }
{
    if part.is_empty() {
        return Ok(());
    }
    finish_line(alloc, writer, answerer, progress, part)
}

/// Keeps more bytes of a line that has not ended.
fn keep(progress: &Progress, part: &mut Vec<u8>, bytes: &[u8]) -> Result<(), ScriptFault>
    requires few { progress.now.lines < 2 ^ 63 }
    requires short { IsShort part.old.items }
    ensures part { OnOk result (part.new.items ≡ part.old.items ++ bytes.now) }
    ensures short { OnOk result (IsShort part.new.items) }
    ensures err { IfErr result (λ fault. CannotKeep (part.old.items ++ bytes.now) progress.now.lines fault) }
{
    if part.len() + bytes.len() > MOST_LINE_BYTES {
        return Err(ScriptFault::LineTooLong {
            line: progress.lines + 1,
        });
    }
    match part.extend_from_slice(bytes) {
        Ok(()) => Ok(()),
        Err(AllocError) => Err(ScriptFault::NoMemory),
    }
}

/// Answers the line of which these are the last bytes before its newline.
fn end_line<W: Sink, A: Answerer>(
    alloc: Global,
    writer: &mut W,
    answerer: &mut A,
    progress: &mut Progress,
    part: &mut Vec<u8>,
    end: &[u8],
) -> Result<(), ScriptFault>
    requires few { progress.old.lines < 2 ^ 63 }
    requires short { IsShort part.old.items }
    requires end { HasNoNewline end.now }
    ensures ok { OnOk result (HasAnswered A.rule W.writing ((part.old.items ++ end.now) ∷ [])
        (state answerer.old writer.old progress.old) (state answerer.new writer.new progress.new)) }
    ensures part { OnOk result (part.new.items ≡ []) }
    ensures line_short { OnOk result (IsShort (part.old.items ++ end.now)) }
    ensures err { IfErr result (λ fault. (others : List ℕ) →
        HasStopped A.rule W.writing (read_from part.old.items (with_newline end.now ++ others))
        (state answerer.old writer.old progress.old) (state answerer.new writer.new progress.new) fault) }
{
    if part.is_empty() && end.len() <= MOST_LINE_BYTES {
        return finish_line(alloc, writer, answerer, progress, end);
    }
    keep(progress, part, end)?;
    finish_line(alloc, writer, answerer, progress, part.as_slice())?;
    part.clear();
    Ok(())
}

/// Answers the lines that end in these bytes, and keeps what has come of the next.
pub(super) fn feed<W: Sink, A: Answerer>(
    alloc: Global,
    writer: &mut W,
    answerer: &mut A,
    progress: &mut Progress,
    part: &mut Vec<u8>,
    bytes: &[u8],
) -> Result<(), ScriptFault>
    requires few { progress.old.lines + length bytes.now < 2 ^ 63 }
    requires block { length bytes.now ≤ 4194304 }
    requires short { IsShort part.old.items }
    ensures ok { OnOk result (HasAnswered A.rule W.writing (whole_from part.old.items bytes.now)
        (state answerer.old writer.old progress.old) (state answerer.new writer.new progress.new)) }
    ensures part { OnOk result (part.new.items ≡ rest_from part.old.items bytes.now) }
    ensures short { OnOk result (IsShort part.new.items) }
    ensures each_short { OnOk result (All IsShort (whole_from part.old.items bytes.now)) }
    ensures few { OnOk result (progress.new.lines ≤ progress.old.lines + length bytes.now) }
    ensures err { IfErr result (λ fault. HasStopped A.rule W.writing (read_from part.old.items bytes.now)
        (state answerer.old writer.old progress.old) (state answerer.new writer.new progress.new) fault) }
{
    let mut rest = bytes;
    while let Some((line, others)) = split_line(rest) {
        end_line(alloc, writer, answerer, progress, part, line)?;
        rest = others;
    }
    keep(progress, part, rest)
}

/// The first bytes of a buffer.
pub(super) fn first(buffer: &Vec<u8>, n: usize) -> &[u8]
    requires { n ≤ length buffer.now.items }
    ensures { result.now ≡ take n buffer.now.items }
{
    &buffer.as_slice()[..n]
}

/// Answers the lines of the reader in turn, read by parts into the buffer, until it ends.
fn run_by_parts<R: Source, W: Sink, A: Answerer>(
    alloc: Global,
    reader: &mut R,
    writer: &mut W,
    answerer: &mut A,
    buffer: &mut Vec<u8>,
) -> Result<Count, ScriptFault>
    requires { length buffer.old.items ≡ 65536 }
    ensures told { HasRun A.rule R.reading W.writing answerer.old answerer.new reader.old reader.new writer.old writer.new result }
    ensures end { OnOk result (R.reading.at_end reader.new) }
    ensures reader { MatchResult result (λ _. R.reading.failed reader.new ≡ R.reading.failed reader.old)
        (λ fault. is_read_fault fault ≡ false → R.reading.failed reader.new ≡ R.reading.failed reader.old) }
    ensures unfailed { OnOk result (W.writing.failed writer.new ≡ W.writing.failed writer.old) }
    ensures failed { IfErr result (λ fault. is_write_fault fault ≡ true → W.writing.failed writer.new ≡ true) }
    ensures kept { IfErr result (λ fault. is_write_fault fault ≡ false → W.writing.failed writer.new ≡ W.writing.failed writer.old) }
{
    let mut part = Vec::new(alloc);
    let mut progress = Progress {
        lines: 0,
        written: 0,
    };
    let mut bytes = 0u128;
    for turn in 0..MOST_READ_CALLS {
        let n = match read_into(reader, buffer) {
            Ok(n) => n,
            Err(Failed) => return Err(ScriptFault::Read),
        };
        if n == 0 {
            finish_last(alloc, writer, answerer, &mut progress, part.as_slice())?;
            return Ok(Count {
                lines: progress.lines,
                bytes,
            });
        }
        bytes += n as u128;
        let chunk = first(buffer, n);
        feed(alloc, writer, answerer, &mut progress, &mut part, chunk)?;
    }
    Err(ScriptFault::Read)
}

/// Answers the lines of the reader in turn, until it ends.
pub fn run_lines<R: Source, W: Sink, A: Answerer>(
    alloc: Global,
    reader: &mut R,
    writer: &mut W,
    answerer: &mut A,
) -> Result<Count, ScriptFault>
    // The writer took the answers to all lines that the reader returned, or to those before the error.
    ensures told { HasRun A.rule R.reading W.writing answerer.old answerer.new reader.old reader.new writer.old writer.new result }
    ensures end { OnOk result (R.reading.at_end reader.new) }

    // The reader fails only at a read fault, and the writer just at a write fault.
    ensures reader { MatchResult result (λ _. R.reading.failed reader.new ≡ R.reading.failed reader.old)
        (λ fault. is_read_fault fault ≡ false → R.reading.failed reader.new ≡ R.reading.failed reader.old) }
    ensures unfailed { OnOk result (W.writing.failed writer.new ≡ W.writing.failed writer.old) }
    ensures failed { IfErr result (λ fault. is_write_fault fault ≡ true → W.writing.failed writer.new ≡ true) }
    ensures kept { IfErr result (λ fault. is_write_fault fault ≡ false → W.writing.failed writer.new ≡ W.writing.failed writer.old) }
{
    match read_buffer(alloc, READ_BYTES) {
        Ok(mut buffer) => run_by_parts(alloc, reader, writer, answerer, &mut buffer),
        Err(AllocError) => Err(ScriptFault::NoMemory),
    }
}
