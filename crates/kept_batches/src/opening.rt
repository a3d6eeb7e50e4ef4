// The mark of a whole last batch, opened again in two halves. One half is not shut at any moment, so no crash loses the batch.

ghost use Rattle.std.specs.Prelude.{◌≡◌, ◌+◌, ◌<◌, ◌^◌, length, IsTrue, OnOk, IfErr};
ghost use Rattle.sqlite_disk.specs.Disk.{Only, MoreFaults};
ghost use Rattle.kept_batches.specs.Inner.Writes.{Overwrites, OverwritesAtAnyMoment, OpensAgain, OpensAgainAtAnyMoment};

use sqlite_disk::Disk;
use std::io;

fn overwrite<D: Disk>(disk: &mut D, at: usize, text: &[u8]) -> io::Result<()>
    requires durable { Only (D.Disk.seen disk.old) (D.Disk.may_leave disk.old) }
    requires usable { IsTrue (D.Disk.is_usable disk.old) }
    requires some { 0 < length text.now }
    ensures file { OnOk result (Overwrites (D.Disk.seen disk.old) at text.now (D.Disk.seen disk.new)) }
    ensures any_moment { OverwritesAtAnyMoment (D.Disk.seen disk.old) at (length text.now) (D.Disk.may_leave disk.new) }
    ensures durable { OnOk result (Only (D.Disk.seen disk.new) (D.Disk.may_leave disk.new)) }
    ensures usable { OnOk result (IsTrue (D.Disk.is_usable disk.new)) }
    ensures clean { D.Disk.is_clean disk.new ≡ D.Disk.is_clean disk.old }
    ensures calm { OnOk result (D.Disk.faults disk.new ≡ D.Disk.faults disk.old) }
    ensures failed { IfErr result (λ _. MoreFaults (D.Disk.faults disk.old) (D.Disk.faults disk.new)) }
{
    disk.write_at(at, text)?;
    disk.sync()?;
    Ok(())
}

/// Opens the mark at `end`, which is neither open nor shut: first the half whose other half is not shut.
pub(crate) fn open_again<D: Disk>(disk: &mut D, end: usize, first_is_shut: bool) -> io::Result<()>
    requires durable { Only (D.Disk.seen disk.old) (D.Disk.may_leave disk.old) }
    requires usable { IsTrue (D.Disk.is_usable disk.old) }
    requires fits { end + 2 < 2 ^ 64 }
    ensures file { OnOk result (OpensAgain (D.Disk.seen disk.old) end first_is_shut (D.Disk.seen disk.new)) }
    ensures any_moment { OpensAgainAtAnyMoment (D.Disk.seen disk.old) end first_is_shut (D.Disk.may_leave disk.new) }
    ensures durable { OnOk result (Only (D.Disk.seen disk.new) (D.Disk.may_leave disk.new)) }
    ensures usable { OnOk result (IsTrue (D.Disk.is_usable disk.new)) }
    ensures clean { D.Disk.is_clean disk.new ≡ D.Disk.is_clean disk.old }
    ensures calm { OnOk result (D.Disk.faults disk.new ≡ D.Disk.faults disk.old) }
    ensures failed { IfErr result (λ _. MoreFaults (D.Disk.faults disk.old) (D.Disk.faults disk.new)) }
{
    if first_is_shut {
        overwrite(disk, end, b"ke")?;
        overwrite(disk, end + 2, b"pt")?;
        return Ok(());
    }
    overwrite(disk, end + 2, b"pt")?;
    overwrite(disk, end, b"ke")?;
    Ok(())
}
