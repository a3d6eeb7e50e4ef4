//! A store whose lines are answered: those that it keeps again, and then new ones.

ghost use Rattle.std.specs.Prelude.{◌≡◌, ◌≤◌, ◌^◌, ℕ, List, [], ◌∷◌, ◌++◌, None, Some, length, string_bytes, IsTrue, IfErr, IfOk, OnErr, OnOk, MatchResult};
ghost use Rattle.sqlite_disk.specs.Disk.{Only};
ghost use Rattle.kept_batches.specs.Verdict.{damage_in, kept_in, readable, verdict};
ghost use Rattle.kept_batches.specs.Log.{IsSettled};
ghost use Rattle.kept_batches.specs.Reading.{OnlyReads};
ghost use Rattle.kept_batches.specs.Heads.{head};
ghost use Rattle.kept_batches.specs.Recovery.{disk_of, head_of, lines_left};
ghost use Rattle.request_lines.specs.Lines.{AreLines};
ghost use Rattle.kept_answers.specs.Keeping.{FitsKept, HasOtherCount, IsAllKept, IsKept, IsStoreAnswered, IsStoreSent, answers_had, greeting};
ghost use Rattle.kept_answers.specs.Kept.{AreAnswered, Begins};
ghost use Rattle.kept_answers.specs.Faults.{IsOfStore, IsOtherCount, TellsOf};
ghost use Rattle.kept_answers.specs.Inner.Greeted.{IsHeld};

use crate::answering::answer_new_lines;
use crate::fault::KeepFault;
use crate::restart::answer_kept_lines;
use crate::watch::Watch;
use kept_batches::{Log, Recovery, Unrecovered};
use request_lines::{Answerer, Sink, Source, write_all};
use sqlite_disk::Disk;
use std::alloc::{AllocError, Global};

/// Decides between the lines that a store keeps and new ones whether the stream goes on.
pub trait Gate<A: Answerer> {
    /// Returns whether new lines are kept, after the answerer has answered all lines of the store.
    fn opens(&mut self, answerer: &A) -> bool;
}

/// How a kept stream ended, and its disk.
#[derive(Drop)]
pub struct Ended<D: Disk> {
    pub disk: D,
    pub result: Result<(), KeepFault>,
}

/// The number of lines that are left. It reads all of the file, so the store is not damaged.
#[tactic(auto, using(crate::proofs::KeptLemmas::never_other))]
fn count_lines<D: Disk, V: Watch>(
    recovery: &mut Recovery<D>,
    watch: &mut V,
) -> Result<u64, KeepFault>
    ensures count { IfOk result (λ count. IsTrue (D.Disk.is_clean (disk_of recovery.new)) → count ≡ length (lines_left recovery.old)) }
    ensures whole { OnOk result (IsTrue (D.Disk.is_clean (disk_of recovery.new)) → damage_in (D.Disk.seen (disk_of recovery.old)) ≡ None) }
    ensures head { OnOk result (IsTrue (D.Disk.is_clean (disk_of recovery.new)) → head_of recovery.new ≡ head (kept_in (D.Disk.seen (disk_of recovery.old)))) }
    ensures reads { OnlyReads D.Disk (disk_of recovery.old) (disk_of recovery.new) }
    ensures other { IfErr result (λ fault. IsOtherCount fault → ⊥) }
    ensures tells { IfErr result (λ fault. IsTrue (D.Disk.is_clean (disk_of recovery.new)) → TellsOf (D.Disk.seen (disk_of recovery.old)) fault) }
{
    let mut count: u64 = 0;
    while recovery.next_line()? {
        count += 1;
        watch.counted(recovery.line().len());
    }
    Ok(count)
}

/// How many lines a store keeps after its first record, and the head after all of them.
#[derive(Clone, Copy)]
struct Held {
    count: u64,
    head: [u8; 32],
}

fn greeting_text(alloc: Global, held: Held) -> Result<String, AllocError>
    ensures { IfOk result (λ text. (first : List ℕ) (lines : List (List ℕ)) → IsHeld held first lines → string_bytes text ≡ greeting first lines) }
{
    let head = hex::encode(alloc, held.head.as_slice())?;
    format!(in alloc;
        "{{\"kept\":{},\"head\":\"{}\"}}\n",
        held.count,
        head.as_str()
    )
}

/// Sends the line that says how many lines the store keeps, and their head.
fn greet<W: Sink>(alloc: Global, writer: &mut W, held: Held) -> Result<(), KeepFault>
    ensures told { (sent : List ℕ) × W.writing.takes writer.old sent writer.new
        × ((first : List ℕ) (lines : List (List ℕ)) → IsHeld held first lines → MatchResult result (λ _. sent ≡ greeting first lines) (λ _. Begins sent (greeting first lines))) }
    ensures other { IfErr result (λ fault. IsOfStore fault → ⊥) }
{
    let text = greeting_text(alloc, held)?;
    if let Err(_sent) = write_all(writer, text.as_bytes()) {
        return Err(KeepFault::Write);
    }
    Ok(())
}

/// Goes past the record that begins the store.
#[tactic(auto, using(crate::proofs::KeptLemmas::never_other))]
fn go_past_first<D: Disk>(recovery: &mut Recovery<D>) -> Result<(), KeepFault>
    ensures lines { OnOk result (IsTrue (D.Disk.is_clean (disk_of recovery.new)) → (first : List ℕ)
        × (readable (verdict (D.Disk.seen (disk_of recovery.old))) ≡ first ∷ lines_left recovery.new)) }
    ensures reads { OnlyReads D.Disk (disk_of recovery.old) (disk_of recovery.new) }
    ensures other { IfErr result (λ fault. IsOtherCount fault → ⊥) }
    ensures tells { IfErr result (λ fault. IsTrue (D.Disk.is_clean (disk_of recovery.new)) → TellsOf (D.Disk.seen (disk_of recovery.old)) fault) }
{
    recovery.rewind();
    if recovery.next_line()? {
        Ok(())
    } else {
        Err(KeepFault::NoStore)
    }
}

/// Goes past the record that begins the store, and returns how many lines come after it, and the head after all of them.
fn read_past_first<D: Disk, V: Watch>(
    recovery: &mut Recovery<D>,
    watch: &mut V,
) -> Result<Held, KeepFault>
    ensures held { IfOk result (λ held. IsTrue (D.Disk.is_clean (disk_of recovery.new)) → (first : List ℕ)
        × (kept_in (D.Disk.seen (disk_of recovery.old)) ≡ first ∷ lines_left recovery.new) × IsHeld held first (lines_left recovery.new)) }
    ensures reads { OnlyReads D.Disk (disk_of recovery.old) (disk_of recovery.new) }
    ensures other { IfErr result (λ fault. IsOtherCount fault → ⊥) }
    ensures tells { IfErr result (λ fault. IsTrue (D.Disk.is_clean (disk_of recovery.new)) → TellsOf (D.Disk.seen (disk_of recovery.old)) fault) }
{
    go_past_first(recovery)?;
    let count = count_lines(recovery, watch)?;
    let head = *recovery.head();
    go_past_first(recovery)?;
    Ok(Held { count, head })
}

/// How many answers the client has, of so many kept lines.
fn answers_had(from: Option<u64>, kept: u64) -> Result<u64, KeepFault>
    ensures ok { IfOk result (λ had. (had ≡ answers_had from) × FitsKept from kept) }
    ensures err { OnErr result (FitsKept from kept → ⊥) }
    ensures other { IfErr result (λ fault. IsOtherCount fault) }
{
    match from {
        Some(had) if had <= kept => Ok(had),
        Some(_) => Err(KeepFault::FewerLines),
        None if kept == 0 => Ok(0),
        None => Err(KeepFault::HasLines),
    }
}

/// Sends how many lines the store keeps and their head, and then the answers to those that the client does not have.
fn answer_store<D: Disk, W: Sink, A: Answerer, V: Watch>(
    alloc: Global,
    recovery: &mut Recovery<D>,
    from: Option<u64>,
    writer: &mut W,
    answerer: &mut A,
    watch: &mut V,
) -> Result<(), KeepFault>
    ensures told { (sent : List ℕ) × W.writing.takes writer.old sent writer.new
        × (IsTrue (D.Disk.is_clean (disk_of recovery.new)) → IsStoreSent A.rule answerer.old (kept_in (D.Disk.seen (disk_of recovery.old))) from sent
        × OnOk result (IsStoreAnswered A.rule answerer.old (kept_in (D.Disk.seen (disk_of recovery.old))) from sent answerer.new)) }
    ensures reads { OnlyReads D.Disk (disk_of recovery.old) (disk_of recovery.new) }
    ensures count { IfErr result (λ fault. IsOtherCount fault → IsTrue (D.Disk.is_clean (disk_of recovery.new)) → HasOtherCount from (kept_in (D.Disk.seen (disk_of recovery.old)))) }
    ensures tells { IfErr result (λ fault. IsTrue (D.Disk.is_clean (disk_of recovery.new)) → TellsOf (D.Disk.seen (disk_of recovery.old)) fault) }
{
    let held = read_past_first(recovery, watch)?;
    let had = answers_had(from, held.count)?;
    greet(alloc, writer, held)?;
    answer_kept_lines(alloc, recovery, had, writer, answerer, watch)
}

/// Shows the bytes at the end of the file that were never acknowledged, if it has any.
#[tactic(auto, using(crate::proofs::KeptLemmas::never_other))]
fn show_torn_end<D: Disk, V: Watch>(
    recovery: &mut Recovery<D>,
    watch: &mut V,
) -> Result<(), KeepFault>
    ensures reads { OnlyReads D.Disk (disk_of recovery.old) (disk_of recovery.new) }
    ensures other { IfErr result (λ fault. IsOtherCount fault → ⊥) }
    ensures tells { IfErr result (λ fault. IsTrue (D.Disk.is_clean (disk_of recovery.new)) → TellsOf (D.Disk.seen (disk_of recovery.old)) fault) }
{
    match recovery.torn_end()? {
        Some(at) if !watch.torn(at, recovery.torn()) => Err(KeepFault::TornEnd),
        Some(_) | None => Ok(()),
    }
}

/// Answers the lines of a store, asks the gate, and shows what will be cut off.
fn answer_to_gate<D: Disk, W: Sink, A: Answerer, G: Gate<A>, V: Watch>(
    alloc: Global,
    recovery: &mut Recovery<D>,
    from: Option<u64>,
    writer: &mut W,
    answerer: &mut A,
    gate: &mut G,
    watch: &mut V,
) -> Result<(), KeepFault>
    ensures told { (sent : List ℕ) × W.writing.takes writer.old sent writer.new
        × (IsTrue (D.Disk.is_clean (disk_of recovery.new)) → IsStoreSent A.rule answerer.old (kept_in (D.Disk.seen (disk_of recovery.old))) from sent
        × OnOk result (IsStoreAnswered A.rule answerer.old (kept_in (D.Disk.seen (disk_of recovery.old))) from sent answerer.new)) }
    ensures reads { OnlyReads D.Disk (disk_of recovery.old) (disk_of recovery.new) }
    ensures count { IfErr result (λ fault. IsOtherCount fault → IsTrue (D.Disk.is_clean (disk_of recovery.new)) → HasOtherCount from (kept_in (D.Disk.seen (disk_of recovery.old)))) }
    ensures tells { IfErr result (λ fault. IsTrue (D.Disk.is_clean (disk_of recovery.new)) → TellsOf (D.Disk.seen (disk_of recovery.old)) fault) }
{
    answer_store(alloc, recovery, from, writer, answerer, watch)?;
    if !gate.opens(answerer) {
        return Err(KeepFault::Stopped);
    }
    show_torn_end(recovery, watch)
}

/// Keeps and answers the lines of a store: sends how many it keeps and the answers to those after the first `from`, repairs the end
/// that a crash may have left, and then keeps each batch of new lines before it answers it, until the reader ends. Without `from` the
/// store must have no line yet. The gate is asked once, when all lines of the store are answered and before its end is repaired. `watch`
/// sees each line of the store twice: as it is counted, and as it is answered. It also sees what will be cut off the end.
///
/// The disk comes back, with how the stream ended. The store has its first record. A disk may stop at any call, so what holds at an
/// error holds of a crash at any moment: run again over what the crash left, and with `from` as many answers as the client has, the
/// store goes on.
///
/// # Errors
///
/// `KeepFault`, `Stopped` if the gate does not open: what was sent begins the answers, and each content that a crash may leave has all
/// lines whose answers were begun.
pub fn keep<D: Disk, R: Source, W: Sink, A: Answerer, G: Gate<A>, V: Watch>(
    alloc: Global,
    disk: D,
    from: Option<u64>,
    reader: &mut R,
    writer: &mut W,
    answerer: &mut A,
    gate: &mut G,
    watch: &mut V,
) -> Ended<D>
    requires usable { IsTrue (D.Disk.is_usable disk) }
    requires durable { Only (D.Disk.seen disk) (D.Disk.may_leave disk) }
    ensures told { (calls : ℕ) × (bytes : List ℕ) × (whole : List (List ℕ)) × (part : List ℕ) × (sent : List ℕ) × (calls ≤ 2 ^ 40)
        × R.reading.gives reader.old calls bytes reader.new × AreLines bytes whole part × W.writing.takes writer.old sent writer.new
        × (IsTrue (D.Disk.is_clean result.disk) → IsKept A.rule answerer.old (D.Disk.may_leave result.disk) (kept_in (D.Disk.seen disk)) whole from sent
        × OnOk result.result ((part ≡ []) × R.reading.at_end reader.new
        × IsAllKept A.rule answerer.old (D.Disk.seen result.disk) (kept_in (D.Disk.seen disk)) whole from sent answerer.new)) }
    ensures clean { IsTrue (D.Disk.is_clean result.disk) → IsTrue (D.Disk.is_clean disk) }

    // At an error that the client's answers cause, nothing was written.
    ensures untouched { IfErr result.result (λ fault. IsOtherCount fault → OnlyReads D.Disk disk result.disk) }
    ensures count { IfErr result.result (λ fault. IsOtherCount fault → IsTrue (D.Disk.is_clean result.disk) → HasOtherCount from (kept_in (D.Disk.seen disk))) }

    // A damaged store is as it was, and the fault names the byte where it is damaged.
    ensures damaged { IfErr result.result (λ fault. (at : ℕ) → fault ≡ KeepFault.Damaged at → OnlyReads D.Disk disk result.disk) }
    ensures damage { IfErr result.result (λ fault. (at : ℕ) → fault ≡ KeepFault.Damaged at → IsTrue (D.Disk.is_clean result.disk) → damage_in (D.Disk.seen disk) ≡ Some at) }

    // A store without its first record is as it was, and is not damaged.
    ensures unbegun { IfErr result.result (λ fault. fault ≡ KeepFault.NoStore → OnlyReads D.Disk disk result.disk) }
    ensures no_line { IfErr result.result (λ fault. fault ≡ KeepFault.NoStore → IsTrue (D.Disk.is_clean result.disk) → (kept_in (D.Disk.seen disk) ≡ []) × (damage_in (D.Disk.seen disk) ≡ None)) }
{
    let mut recovery = Recovery::new(alloc, disk);
    if let Err(fault) = answer_to_gate(alloc, &mut recovery, from, writer, answerer, gate, watch) {
        return Ended {
            disk: recovery.into_disk(),
            result: Err(fault),
        };
    }
    match recovery.finish() {
        Ok(log) => answer_log(alloc, log, reader, writer, answerer),
        Err(Unrecovered { disk, cause }) => Ended {
            disk,
            result: Err(KeepFault::from(cause)),
        },
    }
}

/// Keeps and answers new lines after those of a log.
fn answer_log<D: Disk, R: Source, W: Sink, A: Answerer>(
    alloc: Global,
    mut log: Log<D>,
    reader: &mut R,
    writer: &mut W,
    answerer: &mut A,
) -> Ended<D>
    requires { IsSettled D.Disk log }
    ensures told { (calls : ℕ) × (bytes : List ℕ) × (whole : List (List ℕ)) × (part : List ℕ) × (sent : List ℕ) × (calls ≤ 2 ^ 40)
        × R.reading.gives reader.old calls bytes reader.new × AreLines bytes whole part × W.writing.takes writer.old sent writer.new
        × MatchResult result.result
        (λ _. (part ≡ []) × R.reading.at_end reader.new × A.rule.answers answerer.old whole sent answerer.new
        × (IsTrue (D.Disk.is_clean result.disk) → kept_in (D.Disk.seen result.disk) ≡ kept_in (D.Disk.seen log.disk) ++ whole) × Only (D.Disk.seen result.disk) (D.Disk.may_leave result.disk))
        (λ _. AreAnswered A.rule answerer.old (D.Disk.may_leave result.disk) (IsTrue (D.Disk.is_clean result.disk)) (kept_in (D.Disk.seen log.disk)) whole sent) }
    ensures clean { D.Disk.is_clean result.disk ≡ D.Disk.is_clean log.disk }
    ensures other { IfErr result.result (λ fault. IsOfStore fault → ⊥) }
{
    let result = answer_new_lines(alloc, reader, &mut log, writer, answerer);
    let Log {
        disk,
        end: _,
        head: _,
    } = log;
    Ended { disk, result }
}
