ghost use Rattle.std.specs.Prelude.{◌≡◌, ◌⊎◌, ◌++◌, IsTrue, IfOk};
ghost use Rattle.sqlite_disk.specs.Disk.{Only};
ghost use Rattle.kept_batches.specs.Batch.{lines_of};
ghost use Rattle.kept_batches.specs.Log.{IsSettled};
ghost use Rattle.kept_batches.specs.Recovery.{disk_of};
ghost use Rattle.kept_batches.specs.Verdict.{kept_in};

use crate::failure::Failure;
use kept_batches::{Batch, KeepError, Log, Recovery, verdict_is_right};
use sqlite_disk::{Crash, Disk};
use std::alloc::Global;
use std::io;

/// The disk with these bytes, on the disk for good.
fn held<D: Disk + Drop>(mut disk: D, bytes: &[u8]) -> io::Result<D>
    requires { IsTrue (D.Disk.is_usable disk) }
    ensures durable { IfOk result (λ disk. Only (D.Disk.seen disk) (D.Disk.may_leave disk)) }
    ensures usable { IfOk result (λ disk. IsTrue (D.Disk.is_usable disk)) }
{
    disk.write_at(0, bytes)?;
    disk.sync()?;
    Ok(disk)
}

/// A recovery of a disk with these bytes.
pub fn opened<D: Disk + Drop>(
    alloc: Global,
    disk: D,
    bytes: &[u8],
) -> Result<Recovery<D>, KeepError>
    requires { IsTrue (D.Disk.is_usable disk) }
{
    Ok(Recovery::new(alloc, held(disk, bytes)?))
}

/// The log of a recovery.
pub fn finished<D: Disk + Drop>(recovery: Recovery<D>) -> Result<Log<D>, KeepError>
    ensures settled { IfOk result (λ log. IsSettled D.Disk log) }
    ensures lines { IfOk result (λ log. IsTrue (D.Disk.is_clean log.disk) → kept_in (D.Disk.seen log.disk) ≡ kept_in (D.Disk.seen (disk_of recovery))) }
    ensures clean { IfOk result (λ log. IsTrue (D.Disk.is_clean log.disk) → IsTrue (D.Disk.is_clean (disk_of recovery))) }
{
    match recovery.finish() {
        Ok(log) => Ok(log),
        Err(failed) => Err(failed.cause),
    }
}

/// The log of a disk with these bytes.
pub fn logged<D: Disk + Drop>(alloc: Global, disk: D, bytes: &[u8]) -> Result<Log<D>, KeepError>
    requires { IsTrue (D.Disk.is_usable disk) }
    ensures { IfOk result (λ log. IsSettled D.Disk log) }
{
    finished(opened(alloc, disk, bytes)?)
}

/// The lines of a text as a batch.
pub fn batch_of(alloc: Global, text: &[u8]) -> Result<Batch, Failure> {
    let mut batch = Batch::new(alloc)?;
    batch.push_lines(text)?;
    Ok(batch)
}

/// Appends a batch, crashes at whatever moment the disk stops, and recovers. Returns whether the
/// batch was acknowledged, and the log: it has the lines from before, or these with the batch; with
/// the batch if it was acknowledged.
pub fn restarted<D: Crash + Drop>(
    alloc: Global,
    mut log: Log<D>,
    batch: &mut Batch,
) -> Result<(bool, Log<D>), KeepError>
    requires { IsSettled D.Disk log }
    ensures settled { IfOk result (λ found. IsSettled D.Disk found.1) }
    ensures either { IfOk result (λ found. IsTrue (D.Disk.is_clean found.1.disk)
        → (kept_in (D.Disk.seen found.1.disk) ≡ kept_in (D.Disk.seen log.disk)) ⊎ (kept_in (D.Disk.seen found.1.disk) ≡ kept_in (D.Disk.seen log.disk) ++ lines_of batch.old)) }
    ensures acknowledged { IfOk result (λ found. IsTrue found.0 → IsTrue (D.Disk.is_clean found.1.disk)
        → kept_in (D.Disk.seen found.1.disk) ≡ kept_in (D.Disk.seen log.disk) ++ lines_of batch.old) }
{
    verdict_is_right();
    let is_acknowledged = log.append(batch).is_ok();
    let mut disk = log.disk;
    disk.crash();
    disk.sync()?;
    let log = finished(Recovery::new(alloc, disk))?;
    Ok((is_acknowledged, log))
}
