ghost use Rattle.std.specs.Prelude.{◌≡◌, ◌+◌, ◌<◌, ◌≤◌, ◌^◌, ℕ, [], length, take, drop, IsTrue, OnOk, OnErr, IfErr, IfOk, IsErrOf};
ghost use Rattle.sqlite_disk.specs.Disk.{MoreFaults};
ghost use Rattle.kept_lines.specs.Reading.{IsDiskError, OnlyReads};

use crate::KeepError;
use sqlite_disk::Disk;

/// Reads the bytes of a file from a place on, up to its end or `most` of them.
pub(crate) fn read_window<D: Disk>(
    disk: &mut D,
    begin: usize,
    most: usize,
    window: &mut Vec<u8>,
) -> Result<(), KeepError>
    requires usable { IsTrue (D.Disk.is_usable disk.old) }
    requires within { IsTrue (D.Disk.is_clean disk.old) → begin ≤ length (D.Disk.seen disk.old) }
    ensures ok { OnOk result (IsTrue (D.Disk.is_clean disk.new) → window.new.items ≡ take most (drop begin (D.Disk.seen disk.old))) }
    ensures err { OnErr result (window.new.items ≡ []) }
    ensures fits { begin + length window.new.items < 2 ^ 64 }
    ensures bounded { length window.new.items ≤ most }
    ensures reads { OnlyReads D.Disk disk.old disk.new }
    ensures calm { OnOk result (D.Disk.faults disk.new ≡ D.Disk.faults disk.old) }
    ensures failed { IfErr result (λ e. IsDiskError e → MoreFaults (D.Disk.faults disk.old) (D.Disk.faults disk.new)) }
    ensures too_long { IsErrOf result KeepError.TooLong → ⊥ }
    ensures damaged { (at : ℕ) → IsErrOf result (KeepError.Damaged at) → ⊥ }
{
    let read = fill_window(disk, begin, most, window);
    if read.is_err() {
        window.clear();
    }
    read
}

/// Reads the same bytes over those of the window. At an error the window has any bytes.
fn fill_window<D: Disk>(
    disk: &mut D,
    begin: usize,
    most: usize,
    window: &mut Vec<u8>,
) -> Result<(), KeepError>
    requires usable { IsTrue (D.Disk.is_usable disk.old) }
    requires within { IsTrue (D.Disk.is_clean disk.old) → begin ≤ length (D.Disk.seen disk.old) }
    ensures ok { OnOk result (IsTrue (D.Disk.is_clean disk.new) → window.new.items ≡ take most (drop begin (D.Disk.seen disk.old))) }
    ensures fits { OnOk result (begin + length window.new.items < 2 ^ 64) }
    ensures bounded { OnOk result (length window.new.items ≤ most) }
    ensures reads { OnlyReads D.Disk disk.old disk.new }
    ensures calm { OnOk result (D.Disk.faults disk.new ≡ D.Disk.faults disk.old) }
    ensures failed { IfErr result (λ e. IsDiskError e → MoreFaults (D.Disk.faults disk.old) (D.Disk.faults disk.new)) }
    ensures too_long { IsErrOf result KeepError.TooLong → ⊥ }
    ensures damaged { (at : ℕ) → IsErrOf result (KeepError.Damaged at) → ⊥ }
{
    let length = disk.len()?.saturating_sub(begin).min(most);
    window.resize(length, 0)?;
    if let Err(error) = disk.read_at(begin, window) {
        return Err(KeepError::Disk(error));
    }
    Ok(())
}

/// The number of bytes of a file.
pub(crate) fn file_length<D: Disk>(disk: &mut D) -> Result<usize, KeepError>
    requires { IsTrue (D.Disk.is_usable disk.old) }
    ensures length { IfOk result (λ size. IsTrue (D.Disk.is_clean disk.new) → size ≡ length (D.Disk.seen disk.old)) }
    ensures reads { OnlyReads D.Disk disk.old disk.new }
    ensures calm { OnOk result (D.Disk.faults disk.new ≡ D.Disk.faults disk.old) }
    ensures failed { IfErr result (λ e. IsDiskError e → MoreFaults (D.Disk.faults disk.old) (D.Disk.faults disk.new)) }
    ensures too_long { IsErrOf result KeepError.TooLong → ⊥ }
    ensures damaged { (at : ℕ) → IsErrOf result (KeepError.Damaged at) → ⊥ }
{
    Ok(disk.len()?)
}
