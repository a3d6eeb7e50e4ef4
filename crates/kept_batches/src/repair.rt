// The repair of a file's end. Each content that a crash may leave at any moment keeps the same lines.
ghost use Rattle.std.specs.Prelude.{◌≡◌, IsTrue, OnOk, IfErr};
ghost use Rattle.sqlite_disk.specs.Disk.{Only, MoreFaults};
ghost use Rattle.kept_batches.specs.Inner.State.{IsRepaired, KeepsTheSame, MarkFits};

use crate::end::End;
use crate::opening::open_again;
use crate::writes::{cut_torn, write_first_mark};
use sqlite_disk::Disk;
use std::io;

/// Makes a file whole whose batches end at `place`.
pub(crate) fn repair<D: Disk>(disk: &mut D, end: End, place: usize) -> io::Result<()>
    requires durable { Only (D.Disk.seen disk.old) (D.Disk.may_leave disk.old) }
    requires usable { IsTrue (D.Disk.is_usable disk.old) }
    requires mark_fits { MarkFits end place }
    ensures file { OnOk result (IsRepaired end (D.Disk.seen disk.old) place (D.Disk.seen disk.new)) }
    ensures any_moment { KeepsTheSame end (D.Disk.seen disk.old) place (D.Disk.may_leave disk.new) }
    ensures durable { OnOk result (Only (D.Disk.seen disk.new) (D.Disk.may_leave disk.new)) }
    ensures usable { OnOk result (IsTrue (D.Disk.is_usable disk.new)) }
    ensures clean { D.Disk.is_clean disk.new ≡ D.Disk.is_clean disk.old }
    ensures calm { OnOk result (D.Disk.faults disk.new ≡ D.Disk.faults disk.old) }
    ensures failed { IfErr result (λ _. MoreFaults (D.Disk.faults disk.old) (D.Disk.faults disk.new)) }
{
    match end {
        End::Whole => Ok(()),
        End::Torn => cut_torn(disk, place + 4),
        End::Unmarked {
            mark,
            first_is_shut,
        } => open_again(disk, mark, first_is_shut),
        End::Unbegun => write_first_mark(disk),
    }
}
