//! Lines that a store keeps, answered again.

ghost use Rattle.std.specs.Prelude.{◌≡◌, ◌⊎◌, ◌++◌, ℕ, List, [], Some, take, drop, IsTrue, IfErr, IsErrOf, OnOk, MatchResult};
ghost use Rattle.kept_batches.specs.Verdict.{damage_in};
ghost use Rattle.kept_batches.specs.Reading.{OnlyReads};
ghost use Rattle.kept_batches.specs.Recovery.{disk_of, lines_left};
ghost use Rattle.kept_answers.specs.Kept.{AreResent, Begins, HasResent, HasSent};
ghost use Rattle.kept_answers.specs.Faults.{IsOfStore, IsOtherCount, TellsOf};

use crate::fault::KeepFault;
use crate::pending::BATCH_BYTES;
use crate::watch::Watch;
use kept_batches::Recovery;
use request_lines::{Answerer, Sink, write_all};
use sqlite_disk::Disk;
use std::alloc::Global;

/// Answers the next `count` lines, or as many as are left, and sends nothing.
#[tactic(auto, using(crate::proofs::KeptLemmas::never_other))]
fn answer_unsent<D: Disk, A: Answerer, V: Watch>(
    alloc: Global,
    recovery: &mut Recovery<D>,
    answerer: &mut A,
    count: u64,
    watch: &mut V,
) -> Result<(), KeepFault>
    ensures answers { OnOk result (IsTrue (D.Disk.is_clean (disk_of recovery.new)) → (text : List ℕ)
        × A.rule.answers answerer.old (take count (lines_left recovery.old)) text answerer.new
        × (lines_left recovery.new ≡ drop count (lines_left recovery.old))) }
    ensures reads { OnlyReads D.Disk (disk_of recovery.old) (disk_of recovery.new) }
    ensures other { IfErr result (λ fault. IsOtherCount fault → ⊥) }
    ensures tells { IfErr result (λ fault. IsTrue (D.Disk.is_clean (disk_of recovery.new)) → TellsOf (D.Disk.seen (disk_of recovery.old)) fault) }
{
    for number in 0..count {
        let is_line = recovery.next_line()?;
        if !is_line {
            return Ok(());
        }
        answerer.answer(alloc, recovery.line())?;
        watch.answered(recovery.line().len());
    }
    Ok(())
}

/// Sends a text, and empties it.
fn send<W: Sink>(writer: &mut W, text: &mut Vec<u8>) -> Result<(), KeepFault>
    ensures told { (sent : List ℕ) × W.writing.takes writer.old sent writer.new
        × MatchResult result (λ _. (sent ≡ text.old.items) × (text.new.items ≡ [])) (λ _. Begins sent text.old.items) }
    ensures other { IfErr result (λ fault. IsOfStore fault → ⊥) }
{
    if let Err(_sent) = write_all(writer, text.as_slice()) {
        return Err(KeepFault::Write);
    }
    text.clear();
    Ok(())
}

/// Sends a text and empties it, if it has as many bytes as a read call of new lines asks for.
fn send_if_long<W: Sink>(writer: &mut W, text: &mut Vec<u8>) -> Result<(), KeepFault>
    ensures told { (sent : List ℕ) × W.writing.takes writer.old sent writer.new
        × MatchResult result (λ _. text.old.items ≡ sent ++ text.new.items) (λ _. Begins sent text.old.items) }
    ensures other { IfErr result (λ fault. IsOfStore fault → ⊥) }
{
    if text.len() < BATCH_BYTES {
        return Ok(());
    }
    send(writer, text)
}

/// Answers the lines that are left, and sends the answers.
#[tactic(auto, using(crate::proofs::KeptLemmas::never_other))]
fn answer_sent<D: Disk, W: Sink, A: Answerer, V: Watch>(
    alloc: Global,
    recovery: &mut Recovery<D>,
    writer: &mut W,
    answerer: &mut A,
    watch: &mut V,
) -> Result<(), KeepFault>
    ensures told { (sent : List ℕ) × W.writing.takes writer.old sent writer.new
        × (IsTrue (D.Disk.is_clean (disk_of recovery.new)) → HasSent A.rule answerer.old (lines_left recovery.old) sent
        × OnOk result (A.rule.answers answerer.old (lines_left recovery.old) sent answerer.new)) }
    ensures reads { OnlyReads D.Disk (disk_of recovery.old) (disk_of recovery.new) }
    ensures other { IfErr result (λ fault. IsOtherCount fault → ⊥) }
    ensures tells { IfErr result (λ fault. IsTrue (D.Disk.is_clean (disk_of recovery.new)) → TellsOf (D.Disk.seen (disk_of recovery.old)) fault) }
{
    let mut text = Vec::new(alloc);
    while recovery.next_line()? {
        let answer = answerer.answer(alloc, recovery.line())?;
        watch.answered(recovery.line().len());
        text.extend_from_slice(answer.as_slice())?;
        send_if_long(writer, &mut text)?;
    }
    send(writer, &mut text)
}

/// Answers the lines of a store that are left to read, and sends the answers after the first `from`: those that the client does not
/// have yet. Each line that is answered is shown to `watch`.
///
/// # Errors
///
/// `Disk` if a call on the disk fails, `Write` if the writer fails, `NoMemory` if an allocation fails, `Damaged` if the store is damaged.
/// What was sent begins the answers.
pub fn answer_kept_lines<D: Disk, W: Sink, A: Answerer, V: Watch>(
    alloc: Global,
    recovery: &mut Recovery<D>,
    from: u64,
    writer: &mut W,
    answerer: &mut A,
    watch: &mut V,
) -> Result<(), KeepFault>
    ensures told { (sent : List ℕ) × W.writing.takes writer.old sent writer.new
        × (IsTrue (D.Disk.is_clean (disk_of recovery.new)) → ((sent ≡ []) ⊎ HasResent A.rule answerer.old (lines_left recovery.old) from sent)
        × OnOk result (AreResent A.rule answerer.old (lines_left recovery.old) from sent answerer.new)) }
    ensures reads { OnlyReads D.Disk (disk_of recovery.old) (disk_of recovery.new) }
    ensures other { IfErr result (λ fault. IsOtherCount fault → ⊥) }
    ensures damaged { (at : ℕ) → IsErrOf result (KeepFault.Damaged at) → IsTrue (D.Disk.is_clean (disk_of recovery.new)) → damage_in (D.Disk.seen (disk_of recovery.old)) ≡ Some at }
    ensures tells { IfErr result (λ fault. IsTrue (D.Disk.is_clean (disk_of recovery.new)) → TellsOf (D.Disk.seen (disk_of recovery.old)) fault) }
{
    answer_unsent(alloc, recovery, answerer, from, watch)?;
    answer_sent(alloc, recovery, writer, answerer, watch)
}
