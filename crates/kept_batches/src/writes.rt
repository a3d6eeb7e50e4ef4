// The writes to a file. Each content that a crash may leave at any moment keeps the lines from before, or these and the batch.

ghost use Rattle.std.specs.Prelude.{◌≡◌, ◌⊎◌, ◌+◌, ◌<◌, ◌^◌, ◌∷◌, ◌++◌, [], ℕ, List, length, IsTrue, OnOk, IfErr};
ghost use Rattle.sqlite_disk.specs.Disk.{Only, MoreFaults};
ghost use Rattle.kept_batches.specs.File.{IsTorn, IsUnbegun, Keeps, file_of, all_lines, shut_mark};
ghost use Rattle.kept_batches.specs.Inner.Writes.{Appends, AppendsAtAnyMoment, Cuts, CutsAtAnyMoment};

use sqlite_disk::Disk;
use std::io;

pub(crate) const OPEN: &[u8; 4] = b"kept";

pub(crate) const SHUT: &[u8; 4] = b"----";

/// Writes a batch after the shut mark at `end`, and then opens the mark.
pub(crate) fn write_batch<D: Disk>(disk: &mut D, end: usize, text: &[u8]) -> io::Result<()>
    requires durable { Only (D.Disk.seen disk.old) (D.Disk.may_leave disk.old) }
    requires usable { IsTrue (D.Disk.is_usable disk.old) }
    requires fits { end + 4 < 2 ^ 64 }
    ensures file { OnOk result (Appends (D.Disk.seen disk.old) end text.now (D.Disk.seen disk.new)) }
    ensures any_moment { AppendsAtAnyMoment (D.Disk.seen disk.old) end text.now (D.Disk.may_leave disk.new) }
    ensures durable { OnOk result (Only (D.Disk.seen disk.new) (D.Disk.may_leave disk.new)) }
    ensures usable { OnOk result (IsTrue (D.Disk.is_usable disk.new)) }
    ensures clean { D.Disk.is_clean disk.new ≡ D.Disk.is_clean disk.old }
    ensures calm { OnOk result (D.Disk.faults disk.new ≡ D.Disk.faults disk.old) }
    ensures failed { IfErr result (λ _. MoreFaults (D.Disk.faults disk.old) (D.Disk.faults disk.new)) }
{
    disk.write_at(end + 4, text)?;
    disk.sync()?;
    disk.write_at(end, OPEN)?;
    disk.sync()?;
    Ok(())
}

/// Removes what comes after the shut mark. `size` is the place after the mark.
pub(crate) fn cut_torn<D: Disk>(disk: &mut D, size: usize) -> io::Result<()>
    requires durable { Only (D.Disk.seen disk.old) (D.Disk.may_leave disk.old) }
    requires usable { IsTrue (D.Disk.is_usable disk.old) }
    ensures file { OnOk result (Cuts (D.Disk.seen disk.old) size (D.Disk.seen disk.new)) }
    ensures any_moment { CutsAtAnyMoment (D.Disk.seen disk.old) size (D.Disk.may_leave disk.new) }
    ensures durable { OnOk result (Only (D.Disk.seen disk.new) (D.Disk.may_leave disk.new)) }
    ensures usable { OnOk result (IsTrue (D.Disk.is_usable disk.new)) }
    ensures clean { D.Disk.is_clean disk.new ≡ D.Disk.is_clean disk.old }
    ensures calm { OnOk result (D.Disk.faults disk.new ≡ D.Disk.faults disk.old) }
    ensures failed { IfErr result (λ _. MoreFaults (D.Disk.faults disk.old) (D.Disk.faults disk.new)) }
{
    disk.set_len(size)?;
    disk.sync()?;
    Ok(())
}

/// Writes the first mark into a file that has no more bytes than a mark.
pub(crate) fn write_first_mark<D: Disk>(disk: &mut D) -> io::Result<()>
    requires durable { Only (D.Disk.seen disk.old) (D.Disk.may_leave disk.old) }
    requires usable { IsTrue (D.Disk.is_usable disk.old) }
    ensures file { OnOk result (IsUnbegun (D.Disk.seen disk.old) → D.Disk.seen disk.new ≡ shut_mark) }
    ensures any_moment { IsUnbegun (D.Disk.seen disk.old) → (c : List ℕ) → D.Disk.may_leave disk.new c → Keeps c [] }
    ensures durable { OnOk result (Only (D.Disk.seen disk.new) (D.Disk.may_leave disk.new)) }
    ensures usable { OnOk result (IsTrue (D.Disk.is_usable disk.new)) }
    ensures clean { D.Disk.is_clean disk.new ≡ D.Disk.is_clean disk.old }
    ensures calm { OnOk result (D.Disk.faults disk.new ≡ D.Disk.faults disk.old) }
    ensures failed { IfErr result (λ _. MoreFaults (D.Disk.faults disk.old) (D.Disk.faults disk.new)) }
{
    disk.write_at(0, SHUT)?;
    disk.sync()?;
    Ok(())
}
