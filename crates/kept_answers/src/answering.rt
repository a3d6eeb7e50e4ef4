//! New lines, each kept before it is answered.

ghost use Rattle.std.specs.Prelude.{◌≡◌, ◌+◌, ◌<◌, ◌≤◌, ◌^◌, ℕ, List, [], ◌++◌, length, map, take, drop, IsTrue, IfErr, OnOk, MatchResult};
ghost use Rattle.kept_batches.specs.Verdict.{kept_in};
ghost use Rattle.kept_batches.specs.Log.{IsSettled};
ghost use Rattle.request_lines.specs.Lines.{AreLines, whole_lines};
ghost use Rattle.kept_answers.specs.Kept.{AreAnswered};
ghost use Rattle.kept_answers.specs.Faults.{IsOfStore};

use crate::fault::KeepFault;
use crate::pending::{Pending, push_whole_lines};
use kept_batches::{Batch, Log, verdict_is_right};
use request_lines::{
    Answerer, MOST_LINE_BYTES, MOST_READ_CALLS, Sink, Source, lines_join_to_bytes, write_all,
};
use sqlite_disk::Disk;
use std::alloc::{AllocError, Global};

/// Returns a line of this size, and the bytes after its newline.
fn line_of_size(bytes: &[u8], size: usize) -> (&[u8], &[u8])
    requires { size < length bytes.now }
    ensures line { result.0.now ≡ take size bytes.now }
    ensures others { result.1.now ≡ drop (size + 1) bytes.now }
{
    (&bytes[..size], &bytes[size + 1..])
}

/// Adds the answers to the whole lines of these bytes, which have these sizes, to a text.
fn answer_lines<A: Answerer>(
    alloc: Global,
    answerer: &mut A,
    bytes: &[u8],
    sizes: &[usize],
    text: &mut Vec<u8>,
) -> Result<(), KeepFault>
    requires sizes { sizes.now ≡ map length (whole_lines bytes.now) }
    requires text { text.old.items ≡ [] }
    ensures answers { OnOk result (A.rule.answers answerer.old (whole_lines bytes.now) text.new.items answerer.new) }
    ensures fault { IfErr result (λ fault. fault ≡ KeepFault.NoMemory) }
{
    lines_join_to_bytes(bytes);
    let mut rest = bytes;
    let mut left = sizes;
    while let Some((size, later)) = left.split_first() {
        let (line, others) = line_of_size(rest, *size);
        let answer = answerer.answer(alloc, line)?;
        text.extend_from_slice(answer.as_slice())?;
        rest = others;
        left = later;
    }
    Ok(())
}

/// The batch of a read call, the sizes of its lines, and the text of their answers. The next call uses their memory again.
#[derive(Drop)]
struct Scratch {
    batch: Batch,
    sizes: Vec<usize>,
    text: Vec<u8>,
}

impl Scratch {
    fn new(alloc: Global) -> Result<Scratch, AllocError> {
        Ok(Scratch {
            batch: Batch::new(alloc)?,
            sizes: Vec::new(alloc),
            text: Vec::new(alloc),
        })
    }
}

/// Keeps the whole lines of the pending bytes, then answers them, and leaves the part of a line that follows them.
fn answer_pending<D: Disk, W: Sink, A: Answerer>(
    alloc: Global,
    log: &mut Log<D>,
    writer: &mut W,
    answerer: &mut A,
    pending: &mut Pending,
    scratch: &mut Scratch,
) -> Result<(), KeepFault>
    requires settled { IsSettled D.Disk log.old }
    ensures settled { OnOk result (IsSettled D.Disk log.new) }
    ensures told { (whole : List (List ℕ)) × (part : List ℕ) × (sent : List ℕ) × AreLines pending.old whole part × W.writing.takes writer.old sent writer.new
        × MatchResult result
        (λ _. (pending.new ≡ part) × A.rule.answers answerer.old whole sent answerer.new
        × (IsTrue (D.Disk.is_clean log.new.disk) → kept_in (D.Disk.seen log.new.disk) ≡ kept_in (D.Disk.seen log.old.disk) ++ whole))
        (λ _. AreAnswered A.rule answerer.old (D.Disk.may_leave log.new.disk) (IsTrue (D.Disk.is_clean log.new.disk)) (kept_in (D.Disk.seen log.old.disk)) whole sent) }
    ensures clean { D.Disk.is_clean log.new.disk ≡ D.Disk.is_clean log.old.disk }
    ensures other { IfErr result (λ fault. IsOfStore fault → ⊥) }
{
    scratch.batch.clear();
    scratch.sizes.clear();
    let count = push_whole_lines(&mut scratch.batch, &mut scratch.sizes, pending.bytes())?;
    verdict_is_right();
    log.append(&mut scratch.batch)?;
    scratch.text.clear();
    let sizes = scratch.sizes.as_slice();
    answer_lines(alloc, answerer, pending.bytes(), sizes, &mut scratch.text)?;
    if let Err(_sent) = write_all(writer, scratch.text.as_slice()) {
        return Err(KeepFault::Write);
    }
    pending.drop_front(count);
    Ok(())
}

/// Refuses a part of a line at the end of the input.
fn whole_input(part: &[u8]) -> Result<(), KeepFault>
    ensures ok { OnOk result (part.now ≡ []) }
    ensures other { IfErr result (λ fault. IsOfStore fault → ⊥) }
{
    if part.is_empty() {
        Ok(())
    } else {
        Err(KeepFault::Unended)
    }
}

/// Keeps the reader's lines, the whole lines of each read call as one batch, and answers each batch once it is kept, until the
/// reader ends.
pub fn answer_new_lines<D: Disk, R: Source, W: Sink, A: Answerer>(
    alloc: Global,
    reader: &mut R,
    log: &mut Log<D>,
    writer: &mut W,
    answerer: &mut A,
) -> Result<(), KeepFault>
    requires { IsSettled D.Disk log.old }
    ensures settled { OnOk result (IsSettled D.Disk log.new) }
    ensures told { (calls : ℕ) × (bytes : List ℕ) × (whole : List (List ℕ)) × (part : List ℕ) × (sent : List ℕ) × (calls ≤ 2 ^ 40)
        × R.reading.gives reader.old calls bytes reader.new × AreLines bytes whole part × W.writing.takes writer.old sent writer.new
        × MatchResult result
        (λ _. (part ≡ []) × R.reading.at_end reader.new × A.rule.answers answerer.old whole sent answerer.new
        × (IsTrue (D.Disk.is_clean log.new.disk) → kept_in (D.Disk.seen log.new.disk) ≡ kept_in (D.Disk.seen log.old.disk) ++ whole))
        (λ _. AreAnswered A.rule answerer.old (D.Disk.may_leave log.new.disk) (IsTrue (D.Disk.is_clean log.new.disk)) (kept_in (D.Disk.seen log.old.disk)) whole sent) }
    ensures clean { D.Disk.is_clean log.new.disk ≡ D.Disk.is_clean log.old.disk }
    ensures other { IfErr result (λ fault. IsOfStore fault → ⊥) }
{
    let mut pending = Pending::new(alloc);
    let mut scratch = Scratch::new(alloc)?;
    for turn in 0..MOST_READ_CALLS {
        let count = pending.read(reader)?;
        if count == 0 {
            return whole_input(pending.bytes());
        }
        answer_pending(alloc, log, writer, answerer, &mut pending, &mut scratch)?;
        if pending.len() > MOST_LINE_BYTES {
            return Err(KeepFault::LineTooLong);
        }
    }
    Err(KeepFault::Read)
}
