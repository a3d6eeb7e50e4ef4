// A shut mark ends the last batch. It is on the disk before anything is written after it.
ghost use Rattle.std.specs.Prelude.{◌≡◌, ◌≤◌, ◌<◌, ◌⊎◌, ◌^◌, ◌++◌, ℕ, List, length, IsTrue, OnOk, IsErrOf, IfErr};
ghost use Rattle.sqlite_disk.specs.Disk.{MoreFaults};
ghost use Rattle.kept_batches.specs.Batch.{lines_of, text_of};
ghost use Rattle.kept_batches.specs.Verdict.{kept_in};
ghost use Rattle.kept_batches.specs.File.{IsBeforeOrAfter};
ghost use Rattle.kept_batches.specs.Log.{IsSettled, IsDiskError};

use crate::heads::head_after;
use crate::{Batch, KeepError};
use sqlite_disk::Disk;

const MOST_FILE_BYTES: usize = 1 << 60;

/// The most bytes of lines that a batch may have, each line with its `+` and its newline.
pub const MOST_BATCH_BYTES: usize = 16_777_216;

/// A settled file of lines. `Recovery::finish` returns one.
#[derive(Drop)]
pub struct Log<D: Disk> {
    pub disk: D,
    /// Where the shut mark is.
    pub end: usize,
    /// The head after all lines.
    pub head: [u8; 32],
}

impl<D: Disk> Log<D> {
    /// Adds the lines of a batch. At `Ok` they are acknowledged: after any later crash the file has
    /// them. At `Err`, recover the file again.
    pub fn append(&mut self, batch: &mut Batch) -> Result<(), KeepError>
        requires { IsSettled D.Disk self.old }

        ensures settled { OnOk result (IsSettled D.Disk self.new) }
        ensures acknowledged { OnOk result (IsTrue (D.Disk.is_clean self.new.disk)
            → kept_in (D.Disk.seen self.new.disk) ≡ kept_in (D.Disk.seen self.old.disk) ++ lines_of batch.old) }

        // A disk may stop at any of its calls, so this covers a crash at any moment of this call.
        ensures any_moment { IsTrue (D.Disk.is_clean self.new.disk) → (c : List ℕ) → D.Disk.may_leave self.new.disk c
            → IsBeforeOrAfter (kept_in (D.Disk.seen self.old.disk)) (lines_of batch.old) c }

        ensures clean { D.Disk.is_clean self.new.disk ≡ D.Disk.is_clean self.old.disk }
        ensures batch { lines_of batch.new ≡ lines_of batch.old }

        // It fails for these causes only.
        ensures failed { IfErr result (λ e. IsDiskError e → MoreFaults (D.Disk.faults self.old.disk) (D.Disk.faults self.new.disk)) }
        ensures full { IsErrOf result KeepError.Full → (2 ^ 60 ≤ self.old.end) ⊎ (2 ^ 24 < length (text_of batch.old)) }
        ensures memory { IsErrOf result KeepError.Memory → ⊥ }
        ensures damaged { (at : ℕ) → IsErrOf result (KeepError.Damaged at) → ⊥ }
    {
        if batch.is_empty() {
            return Ok(());
        }
        let size = batch.text().len();
        if self.end >= MOST_FILE_BYTES || size > MOST_BATCH_BYTES {
            return Err(KeepError::Full);
        }
        let head = head_after(&self.head, batch.text());
        batch.write(&mut self.disk, self.end, &head)?;
        self.end += 79 + size;
        self.head = head;
        Ok(())
    }
}
