//! The command `upgrade`: copies a store of format 1 to a new store.

ghost use Rattle.std.specs.Prelude.{◌≡◌, ◌⊎◌, ◌++◌, ◌∷◌, [], ℕ, List, Err, None, length, IfOk, OnOk, IsTrue};
ghost use Rattle.sqlite_disk.specs.Disk.{Only};
ghost use Rattle.kept_batches.specs.Batch.{lines_of};
ghost use Rattle.kept_batches.specs.Log.{IsSettled};
ghost use Rattle.kept_batches.specs.Reading.{OnlyReads as OnlyReadsBatches};
ghost use Rattle.kept_batches.specs.Recovery.{disk_of as batches_disk};
ghost use Rattle.kept_batches.specs.Verdict.{damage_in, kept_in as kept_in_batches, readable, verdict};
ghost use Rattle.kept_lines.specs.File.{kept_in};
ghost use Rattle.kept_lines.specs.Reading.{OnlyReads};
ghost use Rattle.kept_lines.specs.Recovery.{disk_of, lines_left};

use crate::opening::{OpeningFault, open_first_format, open_new, put_in_place, tell_unopened};
use crate::words::{UpgradeAsked, upgrade_asked};
use command_line::{Arguments, Fault, Output};
use kept_answers::KeepFault;
use kept_batches::{Batch, Log};
use kept_house::{StoreFault, config_in};
use memchr::memchr;
use request_lines::{Device, MOST_LINE_BYTES, write_all};
use sqlite_disk::Disk;
use sqlite_std_file::Wary;
use std::alloc::{AllocError, Global};
use std::cell::Cell;
use thiserror::Error;

/// How many bytes a line of format 1 may have. The record that begins a store has a configuration and some words.
const MOST_KEPT_BYTES: usize = 2 * MOST_LINE_BYTES;

/// A batch of the new store is written once it has so many bytes.
const BATCH_BYTES: usize = 1 << 20;

/// Why a store is not copied.
#[derive(Clone, Copy, Debug, Error)]
pub enum UpgradeFault {
    #[error("no memory")]
    NoMemory,
    /// The old store is not read on.
    #[error("{0}")]
    Old(StoreFault),
    /// The old store has a line that is longer than a line may be.
    #[error("a line of the store is too long")]
    LineTooLong,
    /// The new store is not written.
    #[error("{0}")]
    New(KeepFault),
    /// The new store keeps lines, or what a crash left of some.
    #[error("it is not empty")]
    NotEmpty,
}

impl From<AllocError> for UpgradeFault {
    fn from(_error: AllocError) -> Self {
        UpgradeFault::NoMemory
    }
}

impl From<kept_lines::KeepError> for UpgradeFault {
    fn from(error: kept_lines::KeepError) -> Self {
        match error {
            kept_lines::KeepError::Memory => UpgradeFault::NoMemory,
            kept_lines::KeepError::Disk(cause) => {
                UpgradeFault::Old(StoreFault::Keep(KeepFault::Disk(cause)))
            }
            kept_lines::KeepError::TooLong => UpgradeFault::LineTooLong,
            kept_lines::KeepError::Damaged(at) => {
                UpgradeFault::Old(StoreFault::Keep(KeepFault::Damaged(at)))
            }
        }
    }
}

impl From<kept_batches::KeepError> for UpgradeFault {
    fn from(error: kept_batches::KeepError) -> Self {
        match error {
            kept_batches::KeepError::Memory => UpgradeFault::NoMemory,
            error => UpgradeFault::New(KeepFault::from(error)),
        }
    }
}

/// What was copied.
#[derive(Clone, Copy)]
pub struct Copied {
    /// The number of lines, with the first record, and the number of bytes that they have in the old file, with marks and newlines.
    pub lines: u64,
    pub bytes: u64,
    /// The head after them.
    pub head: [u8; 32],
}

/// How a copy ended, and both disks.
#[derive(Drop)]
pub struct Upgraded<D: Disk, E: Disk> {
    pub old: D,
    pub new: E,
    pub result: Result<Copied, UpgradeFault>,
}

/// Puts the lines of a batch into the log, if they are many, and empties the batch then.
fn put_many<E: Disk>(log: &mut Log<E>, batch: &mut Batch) -> Result<(), UpgradeFault>
    requires settled { IsSettled E.Disk log.old }
    ensures settled { OnOk result (IsSettled E.Disk log.new) }
    ensures lines { OnOk result (IsTrue (E.Disk.is_clean log.new.disk) →
        kept_in_batches (E.Disk.seen log.new.disk) ++ lines_of batch.new ≡ kept_in_batches (E.Disk.seen log.old.disk) ++ lines_of batch.old) }
    ensures clean { E.Disk.is_clean log.new.disk ≡ E.Disk.is_clean log.old.disk }
{
    if batch.text().len() < BATCH_BYTES {
        return Ok(());
    }
    log.append(batch)?;
    batch.clear();
    Ok(())
}

/// Adds a line to a batch.
fn add_line(batch: &mut Batch, line: &[u8]) -> Result<(), UpgradeFault>
    ensures { OnOk result (lines_of batch.new ≡ lines_of batch.old ++ line.now ∷ []) }
{
    if memchr(b'\n', line).is_some() {
        return Err(UpgradeFault::Old(StoreFault::NoStore));
    }
    batch.push(line)?;
    Ok(())
}

/// How many lines were copied, and the bytes that they have in the old file.
#[derive(Clone, Copy)]
struct Counted {
    lines: u64,
    bytes: u64,
}

/// Copies the lines that are left of a store of format 1 to a log, and counts them.
fn copy_lines<D: Disk, E: Disk>(
    alloc: Global,
    old: &mut kept_lines::Recovery<D>,
    log: &mut Log<E>,
) -> Result<Counted, UpgradeFault>
    requires settled { IsSettled E.Disk log.old }
    ensures settled { OnOk result (IsSettled E.Disk log.new) }
    ensures copied { OnOk result (IsTrue (D.Disk.is_clean (disk_of old.new)) → IsTrue (E.Disk.is_clean log.new.disk) →
        kept_in_batches (E.Disk.seen log.new.disk) ≡ kept_in_batches (E.Disk.seen log.old.disk) ++ lines_left old.old) }
    ensures reads { OnlyReads D.Disk (disk_of old.old) (disk_of old.new) }
    ensures clean { E.Disk.is_clean log.new.disk ≡ E.Disk.is_clean log.old.disk }
{
    let mut batch = Batch::new(alloc)?;
    let mut counted = Counted { lines: 0, bytes: 0 };
    while old.next_line()? {
        add_line(&mut batch, old.line())?;
        put_many(log, &mut batch)?;
        counted.lines = counted.lines.saturating_add(1);
        counted.bytes = counted.bytes.saturating_add(old.line().len() as u64 + 2);
    }
    log.append(&mut batch)?;
    Ok(counted)
}

/// Refuses an old file that does not begin with the record of a store, and then goes back to its first line.
fn check_old<D: Disk>(old: &mut kept_lines::Recovery<D>) -> Result<(), UpgradeFault>
    ensures lines { OnOk result (lines_left old.new ≡ kept_in (D.Disk.seen (disk_of old.old))) }
    ensures reads { OnlyReads D.Disk (disk_of old.old) (disk_of old.new) }
{
    if !old.next_line()? {
        return Err(UpgradeFault::Old(StoreFault::NoStore));
    }
    if let Err(fault) = config_in(old.line()) {
        return Err(UpgradeFault::Old(fault));
    }
    old.rewind();
    Ok(())
}

/// Refuses a new file that keeps lines, or what a crash left of some.
fn check_new<E: Disk>(new: &mut kept_batches::Recovery<E>) -> Result<(), UpgradeFault>
    ensures none { OnOk result (IsTrue (E.Disk.is_clean (batches_disk new.new)) → readable (verdict (E.Disk.seen (batches_disk new.old))) ≡ []) }
    ensures whole { OnOk result (IsTrue (E.Disk.is_clean (batches_disk new.new)) → damage_in (E.Disk.seen (batches_disk new.old)) ≡ None) }
    ensures reads { OnlyReadsBatches E.Disk (batches_disk new.old) (batches_disk new.new) }
{
    new.rewind();
    if new.next_line()? || new.torn_end()?.is_some() {
        return Err(UpgradeFault::NotEmpty);
    }
    Ok(())
}

/// Copies the lines of a store of format 1 to a file that keeps none, line by line and in their order. The old file stays as it is.
///
/// # Errors
///
/// `Old` if the old file does not begin with the record of a store, is damaged or is not read, `LineTooLong` if it has such a line, `NotEmpty` if the new file
/// keeps lines or has what a crash left of some, `New` if it is damaged or is not written, and `NoMemory`. The new file then has no lines, or
/// the first ones.
pub fn copy_store<D: Disk, E: Disk>(alloc: Global, old: D, new: E) -> Upgraded<D, E>
    requires old_usable { IsTrue (D.Disk.is_usable old) }
    requires old_durable { Only (D.Disk.seen old) (D.Disk.may_leave old) }
    requires new_usable { IsTrue (E.Disk.is_usable new) }
    requires new_durable { Only (E.Disk.seen new) (E.Disk.may_leave new) }
    ensures copied { OnOk result.result (IsTrue (D.Disk.is_clean result.old) → IsTrue (E.Disk.is_clean result.new) →
        kept_in_batches (E.Disk.seen result.new) ≡ kept_in (D.Disk.seen old)) }
    ensures durable { OnOk result.result (Only (E.Disk.seen result.new) (E.Disk.may_leave result.new)) }
    ensures old_stays { OnlyReads D.Disk old result.old }

    // Nothing is written over a file that keeps lines or is damaged.
    ensures empty { IsTrue (E.Disk.is_clean result.new) → ((kept_in_batches (E.Disk.seen new) ≡ []) × (damage_in (E.Disk.seen new) ≡ None)) ⊎ OnlyReadsBatches E.Disk new result.new }
{
    let mut old = kept_lines::Recovery::new(alloc, old, MOST_KEPT_BYTES);
    let mut new = kept_batches::Recovery::new(alloc, new);
    if let Err(fault) = check_old(&mut old) {
        return stopped(old, new, fault);
    }
    if let Err(fault) = check_new(&mut new) {
        return stopped(old, new, fault);
    }
    match new.finish() {
        Ok(log) => copy_to_log(alloc, old, log),
        Err(kept_batches::Unrecovered { disk, cause }) => Upgraded {
            old: old.into_disk(),
            new: disk,
            result: Err(UpgradeFault::from(cause)),
        },
    }
}

/// Gives both disks back, with the fault.
fn stopped<D: Disk, E: Disk>(
    old: kept_lines::Recovery<D>,
    new: kept_batches::Recovery<E>,
    fault: UpgradeFault,
) -> Upgraded<D, E>
    ensures old { result.old ≡ disk_of old }
    ensures new { result.new ≡ batches_disk new }
    ensures result { result.result ≡ Err fault }
{
    Upgraded {
        old: old.into_disk(),
        new: new.into_disk(),
        result: Err(fault),
    }
}

/// Copies the lines that are left of a store of format 1 to a log, and gives both disks back.
fn copy_to_log<D: Disk, E: Disk>(
    alloc: Global,
    mut old: kept_lines::Recovery<D>,
    mut log: Log<E>,
) -> Upgraded<D, E>
    requires settled { IsSettled E.Disk log }
    ensures copied { OnOk result.result (IsTrue (D.Disk.is_clean result.old) → IsTrue (E.Disk.is_clean result.new) →
        kept_in_batches (E.Disk.seen result.new) ≡ kept_in_batches (E.Disk.seen log.disk) ++ lines_left old) }
    ensures durable { OnOk result.result (Only (E.Disk.seen result.new) (E.Disk.may_leave result.new)) }
    ensures reads { OnlyReads D.Disk (disk_of old) result.old }
    ensures clean { E.Disk.is_clean result.new ≡ E.Disk.is_clean log.disk }
{
    let copied = copy_lines(alloc, &mut old, &mut log);
    let Log { disk, end: _, head } = log;
    Upgraded {
        old: old.into_disk(),
        new: disk,
        result: match copied {
            Ok(Counted { lines, bytes }) => Ok(Copied { lines, bytes, head }),
            Err(fault) => Err(fault),
        },
    }
}

/// Prints why a store is not copied, and returns the exit status.
fn tell_not_copied(rt: &HostRuntime, asked: UpgradeAsked<'_>, fault: UpgradeFault) -> u8 {
    let _ = match fault {
        UpgradeFault::NoMemory => eprintln!(rt; "clear: {fault}"),
        UpgradeFault::Old(_) | UpgradeFault::LineTooLong => {
            eprintln!(rt; "clear: {}: {fault}", asked.store)
        }
        UpgradeFault::New(_) | UpgradeFault::NotEmpty => {
            eprintln!(rt; "clear: {}: {fault}", asked.new)
        }
    };
    1
}

/// The line that tells how many lines were copied, without the first record, the head after all of them, and how many bytes after them the
/// old file of so many bytes has.
fn copied_text(alloc: Global, copied: Copied, file_bytes: usize) -> Result<String, AllocError> {
    let head = hex::encode(alloc, copied.head.as_slice())?;
    // After its lines the old file has its closed mark.
    let left_out = (file_bytes as u64)
        .saturating_sub(copied.bytes)
        .saturating_sub(1);
    format!(in alloc;
        "{{\"kept\":{},\"head\":\"{}\",\"left_out\":{left_out}}}\n",
        copied.lines.saturating_sub(1),
        head.as_str()
    )
}

/// Prints what was copied of an old file of so many bytes, and returns the exit status.
fn tell_copied(rt: &HostRuntime, copied: Copied, file_bytes: usize) -> Result<u8, Fault<'static>> {
    let text = copied_text(rt.alloc(), copied, file_bytes)?;
    let is_gone = Cell::new(false);
    let mut writer = Device::new(Output::new(rt.stdout(), &is_gone));
    match write_all(&mut writer, text.as_bytes()) {
        Ok(()) => Ok(0),
        Err(_) if is_gone.get() => Ok(1),
        Err(_) => Err(Fault::CannotWrite),
    }
}

/// Copies the store, and returns the exit status.
pub fn perform(rt: &HostRuntime, arguments: &Arguments<'_>) -> Result<u8, Fault<'static>> {
    let asked = upgrade_asked(arguments)?;
    let old = match open_first_format(rt, asked.store, Wary) {
        Ok(disk) => disk,
        Err(fault) => return Ok(tell_unopened(rt, asked.store, fault)),
    };
    let new = match open_new(rt, asked.new, Wary) {
        Ok(disk) => disk,
        Err(fault) => return Ok(tell_unopened(rt, asked.new, fault)),
    };
    let Upgraded {
        mut old,
        new,
        result,
    } = copy_store(rt.alloc(), old, new);
    drop(new);
    let copied = match result {
        Ok(copied) => copied,
        Err(fault) => return Ok(tell_not_copied(rt, asked, fault)),
    };
    if let Err(error) = put_in_place(rt, asked.new) {
        return Ok(tell_unopened(rt, asked.new, OpeningFault::from(error)));
    }
    match old.len() {
        Ok(file_bytes) => tell_copied(rt, copied, file_bytes),
        Err(error) => {
            let fault = UpgradeFault::from(kept_lines::KeepError::Disk(error));
            Ok(tell_not_copied(rt, asked, fault))
        }
    }
}
