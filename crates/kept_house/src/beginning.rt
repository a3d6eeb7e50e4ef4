//! A store as it begins or goes on.

ghost use Rattle.std.specs.Prelude.{◌≡◌, ◌⊎◌, ◌↔◌, ◌≤◌, ◌+◌, ◌^◌, ◌∷◌, [], ℕ, List, None, Some, length, IsTrue, IfErr, IfOk, OnOk, IfSome, IsNone};
ghost use Rattle.sqlite_disk.specs.Disk.{Only};
ghost use Rattle.kept_answers.specs.Keeping.{FitsKept};
ghost use Rattle.kept_batches.specs.Batch.{lines_of, text_of};
ghost use Rattle.kept_batches.specs.Text.{IsLine};
ghost use Rattle.kept_batches.specs.Verdict.{damage_in, kept_in};
ghost use Rattle.kept_batches.specs.Reading.{OnlyReads};
ghost use Rattle.kept_batches.specs.Recovery.{IsAtEnd, disk_of, lines_left};
ghost use Rattle.kept_house.specs.Beginning.{EndsWithin, HasBegun, IsAtMostBegun, IsDiskFault, IsUnbegun};
ghost use Rattle.kept_house.specs.Record.{HasConfig, first_record, on_one_line};

use crate::fault::StoreFault;
use crate::record::{config_in, first_record, on_one_line};
use kept_answers::{KeepFault, Watch};
use kept_batches::{Batch, Log, MOST_BATCH_BYTES, Recovery, Unrecovered, verdict_is_right};
use sqlite_disk::Disk;
use std::alloc::{AllocError, Global};

/// A store that has begun, with the text of its configuration, or why it has not.
#[derive(Drop)]
pub struct Begun<D: Disk> {
    pub disk: D,
    pub result: Result<Vec<u8>, StoreFault>,
}

/// The batch of the record that begins a store.
fn record_batch(alloc: Global, program: &str, given: &[u8]) -> Result<Batch, AllocError>
    requires { IsLine program.now }
    ensures { IfOk result (λ batch. lines_of batch ≡ first_record program.now given.now ∷ []) }
{
    let line = first_record(alloc, program, given)?;
    let mut batch = Batch::new(alloc)?;
    batch.push(line.as_slice())?;
    Ok(batch)
}

/// The batch of the record that begins a store, and the text of its configuration.
fn beginning_of(alloc: Global, program: &str, given: &[u8]) -> Result<(Batch, Vec<u8>), AllocError>
    requires { IsLine program.now }
    ensures { IfOk result (λ both. (lines_of both.0 ≡ first_record program.now given.now ∷ []) × (both.1.items ≡ on_one_line given.now)) }
{
    Ok((
        record_batch(alloc, program, given)?,
        on_one_line(alloc, given)?,
    ))
}

/// The text of the configuration of a store, if it has begun, and `None` if its file has no line.
///
/// # Errors
///
/// `NoStore`, `LaterFormat` and `LaterLines` if its first line is no record that this program knows, and `Keep` of `Damaged` if the file is
/// damaged before it has a line.
fn stored_config<D: Disk>(
    alloc: Global,
    recovery: &mut Recovery<D>,
) -> Result<Option<Vec<u8>>, StoreFault>
    ensures some { IfOk result (λ found. IfSome found (λ config. IsTrue (D.Disk.is_clean (disk_of recovery.new)) → (first : List ℕ) × (before : List (List ℕ))
        × (lines_left recovery.old ≡ first ∷ before) × HasConfig first config.items)) }
    ensures none { IfOk result (λ found. IsNone found → IsTrue (D.Disk.is_clean (disk_of recovery.new)) → IsAtEnd recovery.old recovery.new) }
    ensures reads { OnlyReads D.Disk (disk_of recovery.old) (disk_of recovery.new) }
    ensures damaged { IfErr result (λ fault. (at : ℕ) → fault ≡ StoreFault.Keep (KeepFault.Damaged at) → IsTrue (D.Disk.is_clean (disk_of recovery.new)) → damage_in (D.Disk.seen (disk_of recovery.old)) ≡ Some at) }
{
    match recovery.next_line() {
        Ok(true) => {
            let config = config_in(recovery.line())?;
            Ok(Some(Vec::from_slice(alloc, config)?))
        }
        Ok(false) => Ok(None),
        Err(error) => Err(StoreFault::from(error)),
    }
}

/// Refuses to begin a store for a client that has answers.
fn check_client(from: Option<u64>) -> Result<(), StoreFault>
    ensures ok { OnOk result (FitsKept from 0) }
    ensures err { IfErr result (λ fault. fault ≡ StoreFault.Keep KeepFault.FewerLines) }
{
    match from {
        None | Some(0) => Ok(()),
        Some(_) => Err(StoreFault::Keep(KeepFault::FewerLines)),
    }
}

/// Whether so many bytes after the last mark may be what a crash left of a store that begins with this batch, its record.
fn may_be_left(batch: &Batch, bytes: usize) -> bool
    ensures { IsTrue result ↔ (bytes ≤ 79 + length (text_of batch.now)) }
{
    bytes <= 79 + batch.text().len()
}

/// Refuses to begin a store with this batch, its record, in place of a file without lines, unless a crash may have left its end of such a
/// beginning. `watch` sees what will be cut off.
///
/// # Errors
///
/// `Keep` of `Full` if the record has more bytes than a batch may have, `NoStore` if no crash leaves such an end of such a store, `Keep` of
/// `FewerLines` if the client has answers, and of `TornEnd` if `watch` does not let the end be cut off.
fn check_beginning<D: Disk, V: Watch>(
    recovery: &mut Recovery<D>,
    batch: &Batch,
    from: Option<u64>,
    watch: &mut V,
) -> Result<(), StoreFault>
    ensures small { OnOk result (length (text_of batch.now) ≤ 2 ^ 24) }
    ensures within { OnOk result (IsTrue (D.Disk.is_clean (disk_of recovery.new)) → EndsWithin (79 + length (text_of batch.now)) (D.Disk.seen (disk_of recovery.old))) }
    ensures fits { OnOk result (FitsKept from 0) }
    ensures reads { OnlyReads D.Disk (disk_of recovery.old) (disk_of recovery.new) }
    ensures damaged { IfErr result (λ fault. (at : ℕ) → fault ≡ StoreFault.Keep (KeepFault.Damaged at) → IsTrue (D.Disk.is_clean (disk_of recovery.new)) → damage_in (D.Disk.seen (disk_of recovery.old)) ≡ Some at) }
{
    if batch.text().len() > MOST_BATCH_BYTES {
        return Err(StoreFault::Keep(KeepFault::Full));
    }
    let torn = recovery.torn_end()?;
    if torn.is_some() && !may_be_left(batch, recovery.torn().len()) {
        return Err(StoreFault::NoStore);
    }
    check_client(from)?;
    match torn {
        Some(at) if !watch.torn(at, recovery.torn()) => Err(StoreFault::Keep(KeepFault::TornEnd)),
        Some(_) | None => Ok(()),
    }
}

/// Puts its first record into a store that has no line.
fn begin_empty<D: Disk>(recovery: Recovery<D>, mut batch: Batch, config: Vec<u8>) -> Begun<D>
    requires none { IsTrue (D.Disk.is_clean (disk_of recovery)) → kept_in (D.Disk.seen (disk_of recovery)) ≡ [] }
    requires small { length (text_of batch) ≤ 2 ^ 24 }
    ensures ok { IfOk result.result (λ text. (text ≡ config) × (IsTrue (D.Disk.is_clean result.disk) → kept_in (D.Disk.seen result.disk) ≡ lines_of batch)) }
    ensures usable { OnOk result.result (IsTrue (D.Disk.is_usable result.disk)) }
    ensures durable { OnOk result.result (Only (D.Disk.seen result.disk) (D.Disk.may_leave result.disk)) }
    ensures any_moment { IsTrue (D.Disk.is_clean result.disk) → (c : List ℕ) → D.Disk.may_leave result.disk c → (kept_in c ≡ []) ⊎ (kept_in c ≡ lines_of batch) }
    ensures clean { IsTrue (D.Disk.is_clean result.disk) → IsTrue (D.Disk.is_clean (disk_of recovery)) }
    ensures untouched { IfErr result.result (λ fault. IsTrue (D.Disk.is_clean result.disk) → IsDiskFault fault ⊎ OnlyReads D.Disk (disk_of recovery) result.disk) }
    ensures damaged { IfErr result.result (λ fault. (at : ℕ) → fault ≡ StoreFault.Keep (KeepFault.Damaged at) → IsTrue (D.Disk.is_clean result.disk) → damage_in (D.Disk.seen (disk_of recovery)) ≡ Some at) }
{
    verdict_is_right();
    let mut log = match recovery.finish() {
        Ok(log) => log,
        Err(Unrecovered { disk, cause }) => {
            return Begun {
                disk,
                result: Err(StoreFault::from(cause)),
            };
        }
    };
    let appended = log.append(&mut batch);
    let Log {
        disk,
        end: _,
        head: _,
    } = log;
    match appended {
        Ok(()) => Begun {
            disk,
            result: Ok(config),
        },
        Err(error) => Begun {
            disk,
            result: Err(StoreFault::from(error)),
        },
    }
}

/// Goes on with a store, or begins one with the record of this version of the program and this configuration if its file is empty or what
/// a crash left of such a beginning. Any other file is as before. `watch` sees what will be cut off such a file.
/// Of a store that has begun only the first record is read, so damage after it is not found here.
///
/// # Errors
///
/// `Keep` if a call on the disk or an allocation fails, if the file is damaged, if the client has answers and the store has not begun, or
/// if `watch` does not let the end be cut off; `LaterFormat`, `LaterLines` and `NoStore` if the file begins with anything else. A disk may
/// stop at any call, so a crash at any moment leaves the store as it was, or with its record alone.
pub fn begin<D: Disk, V: Watch>(
    alloc: Global,
    disk: D,
    program: &str,
    given: &[u8],
    from: Option<u64>,
    watch: &mut V,
) -> Begun<D>
    requires usable { IsTrue (D.Disk.is_usable disk) }
    requires durable { Only (D.Disk.seen disk) (D.Disk.may_leave disk) }
    requires line { IsLine program.now }

    // This says nothing of a store that is damaged.
    ensures ok { IfOk result.result (λ config. IsTrue (D.Disk.is_clean result.disk) → damage_in (D.Disk.seen disk) ≡ None
        → HasBegun program.now given.now (kept_in (D.Disk.seen disk)) (kept_in (D.Disk.seen result.disk)) config.items) }

    ensures usable { OnOk result.result (IsTrue (D.Disk.is_usable result.disk)) }
    ensures durable { OnOk result.result (Only (D.Disk.seen result.disk) (D.Disk.may_leave result.disk)) }
    ensures any_moment { IsTrue (D.Disk.is_clean result.disk) → (c : List ℕ) → D.Disk.may_leave result.disk c
        → IsAtMostBegun program.now given.now (kept_in (D.Disk.seen disk)) c }
    ensures clean { IsTrue (D.Disk.is_clean result.disk) → IsTrue (D.Disk.is_clean disk) }

    // Nothing is written over a file that holds anything else, and at an error only a call on the disk that failed may come after a change.
    ensures unbegun { IsTrue (D.Disk.is_clean result.disk) → IsUnbegun (first_record program.now given.now) (D.Disk.seen disk) ⊎ OnlyReads D.Disk disk result.disk }
    ensures untouched { IfErr result.result (λ fault. IsTrue (D.Disk.is_clean result.disk) → IsDiskFault fault ⊎ OnlyReads D.Disk disk result.disk) }

    // Where the fault is damage, the store is damaged at the byte that it names.
    ensures damaged { IfErr result.result (λ fault. (at : ℕ) → fault ≡ StoreFault.Keep (KeepFault.Damaged at) → IsTrue (D.Disk.is_clean result.disk) → damage_in (D.Disk.seen disk) ≡ Some at) }

    // A store begins only for a client that has no answers. A damaged one keeps no line either, and does not begin.
    ensures fits { IfOk result.result (λ _. IsTrue (D.Disk.is_clean result.disk) → damage_in (D.Disk.seen disk) ≡ None → kept_in (D.Disk.seen disk) ≡ [] → FitsKept from 0) }
{
    let (batch, config) = match beginning_of(alloc, program, given) {
        Ok(beginning) => beginning,
        Err(error) => {
            return Begun {
                disk,
                result: Err(StoreFault::from(error)),
            };
        }
    };
    let mut recovery = Recovery::new(alloc, disk);
    match stored_config(alloc, &mut recovery) {
        Ok(None) => {}
        Ok(Some(stored)) => {
            return Begun {
                disk: recovery.into_disk(),
                result: Ok(stored),
            };
        }
        Err(fault) => {
            return Begun {
                disk: recovery.into_disk(),
                result: Err(fault),
            };
        }
    }
    match check_beginning(&mut recovery, &batch, from, watch) {
        Ok(()) => begin_empty(recovery, batch, config),
        Err(fault) => Begun {
            disk: recovery.into_disk(),
            result: Err(fault),
        },
    }
}
