ghost use Rattle.std.specs.Prelude.{◌≡◌, ◌+◌, ◌<◌, ◌≤◌, ◌^◌, ◌∷◌, [], ℕ, length, drop, take, IsTrue, IfOk, OnOk, OnErr, IfErr, IsErrOf, IfSome, IsNone, false};
ghost use Rattle.sqlite_disk.specs.Disk.{Only, MoreFaults};
ghost use Rattle.kept_lines.specs.File.{BeginsTooLong, MayEnd, kept_in};
ghost use Rattle.kept_lines.specs.Reading.{IsDiskError, IsFrontOf, OnlyReads};
ghost use Rattle.kept_lines.specs.Inner.Window.{IsWindow, IsPlace, BeginsLine, BeginsNoLine};

use crate::KeepError;
use crate::marks::{begins_too_long, line_length, may_end};
use crate::window::{file_length, read_window};
use sqlite_disk::Disk;
use std::alloc::Global;

// The number of bytes of a read. If the next line has more, a read takes these beside the longest line.
const CHUNK: usize = 1 << 16;

/// Reads the lines of a file that a crash may have left, one after another. It changes nothing, and it
/// needs memory for a chunk and the longest line, however long the file is.
#[derive(Drop)]
pub struct Recovery<D: Disk> {
    disk: D,
    // A part of the file, where it begins there, and where the next line begins in it.
    window: Vec<u8>,
    begin: usize,
    next: usize,
    limit: usize,
    // Where the line begins and ends in the window that `next_line` went to.
    line: usize,
    line_end: usize,
    ghost usable: { IsTrue (D.Disk.is_usable disk) },
    ghost durable: { Only (D.Disk.seen disk) (D.Disk.may_leave disk) },
    ghost window_is: { IsTrue (D.Disk.is_clean disk) → IsWindow (D.Disk.seen disk) begin window.items },
    ghost place: { IsTrue (D.Disk.is_clean disk) → IsPlace (D.Disk.seen disk) (begin + next) },
    ghost within: { next ≤ length window.items },
    ghost line_is: { (line ≤ line_end) × (line_end ≤ length window.items) },
    ghost fits: { begin + length window.items < 2 ^ 64 },
    ghost bounded: { length window.items ≤ limit + 65536 },
}

impl<D: Disk> Recovery<D> {
    ghost use Rattle.kept_lines.specs.Recovery.{IsAtEnd, disk_of, limit_of, line_of, lines_left, place_of, shown, unread};

    /// Begins at the first line of a file. A line may have `limit` bytes.
    pub fn new(alloc: Global, disk: D, limit: usize) -> Recovery<D>
        requires usable { IsTrue (D.Disk.is_usable disk) }
        // After a restart, what is read is what is on the disk.
        requires durable { Only (D.Disk.seen disk) (D.Disk.may_leave disk) }
        ensures disk { disk_of result ≡ disk }
        ensures limit { limit_of result ≡ limit }
        ensures lines { lines_left result ≡ kept_in (D.Disk.seen disk) }
        ensures unread { unread result ≡ D.Disk.seen disk }
    {
        Recovery {
            disk,
            window: Vec::new(alloc),
            begin: 0,
            next: 0,
            limit,
            line: 0,
            line_end: 0,
        }
    }

    /// Goes back to the first line.
    pub fn rewind(&mut self)
        ensures disk { disk_of self.new ≡ disk_of self.old }
        ensures limit { limit_of self.new ≡ limit_of self.old }
        ensures lines { lines_left self.new ≡ kept_in (D.Disk.seen (disk_of self.old)) }
    {
        self.window.clear();
        self.begin = 0;
        self.next = 0;
        self.line = 0;
        self.line_end = 0;
    }

    /// The disk, which is as before.
    pub fn into_disk(self) -> D
        ensures { result ≡ disk_of self }
    {
        self.disk
    }

    /// Goes to the next line. Returns whether there was one, and at an error stays where it was.
    pub fn next_line(&mut self) -> Result<bool, KeepError>
        ensures line { IfOk result (λ is_line. IsTrue is_line → IsTrue (D.Disk.is_clean (disk_of self.new)) → lines_left self.old ≡ line_of self.new ∷ lines_left self.new) }
        ensures end { IfOk result (λ is_line. is_line ≡ false → IsTrue (D.Disk.is_clean (disk_of self.new)) → IsAtEnd self.old self.new) }
        ensures stays { OnErr result (place_of self.new ≡ place_of self.old) }
        ensures within { IfOk result (λ is_line. IsTrue is_line → length (line_of self.new) ≤ limit_of self.old) }
        ensures progress { IfOk result (λ is_line. IsTrue is_line → (place_of self.old < place_of self.new) × (place_of self.new < 2 ^ 64)) }
        ensures limit { limit_of self.new ≡ limit_of self.old }

        ensures reads { OnlyReads D.Disk (disk_of self.old) (disk_of self.new) }

        // It fails for these causes only, and if an allocation fails.
        ensures calm { OnOk result (D.Disk.faults (disk_of self.new) ≡ D.Disk.faults (disk_of self.old)) }
        ensures failed { IfErr result (λ e. IsDiskError e → MoreFaults (D.Disk.faults (disk_of self.old)) (D.Disk.faults (disk_of self.new))) }
        ensures too_long { IsErrOf result KeepError.TooLong → IsTrue (D.Disk.is_clean (disk_of self.new)) → BeginsTooLong (limit_of self.old) (unread self.old) }
        ensures damaged { (at : ℕ) → IsErrOf result (KeepError.Damaged at) → IsTrue (D.Disk.is_clean (disk_of self.new))
            → (at ≡ place_of self.old) × (lines_left self.old ≡ []) × (MayEnd (unread self.old) → ⊥) }
    {
        let Some(count) = self.find()? else {
            if begins_too_long(&self.window[self.next..], self.limit) {
                return Err(KeepError::TooLong);
            }
            self.check_end()?;
            return Ok(false);
        };
        if count > self.limit {
            return Err(KeepError::TooLong);
        }
        self.line = self.next + 1;
        self.line_end = self.line + count;
        self.next = self.line_end + 1;
        Ok(true)
    }

    /// The line to which `next_line` went.
    pub fn line(&self) -> &[u8]
        ensures { result.now ≡ line_of self.now }
    {
        &self.window[self.line..self.line_end]
    }

    // Refuses what the window shows, and no line begins, unless a file may end so.
    fn check_end(&mut self) -> Result<(), KeepError>
        requires { IsTrue (D.Disk.is_clean (disk_of self.old)) → IsFrontOf (limit_of self.old) (unread self.old) (shown self.old) }
        ensures intact { OnOk result (IsTrue (D.Disk.is_clean (disk_of self.new)) → MayEnd (unread self.old)) }
        ensures damaged { (at : ℕ) → IsErrOf result (KeepError.Damaged at) → IsTrue (D.Disk.is_clean (disk_of self.new))
            → (at ≡ place_of self.old) × (MayEnd (unread self.old) → ⊥) }
        ensures shown { shown self.new ≡ shown self.old }
        ensures place { place_of self.new ≡ place_of self.old }
        ensures limit { limit_of self.new ≡ limit_of self.old }
        ensures reads { OnlyReads D.Disk (disk_of self.old) (disk_of self.new) }
        ensures calm { OnOk result (D.Disk.faults (disk_of self.new) ≡ D.Disk.faults (disk_of self.old)) }
        ensures failed { IfErr result (λ e. IsDiskError e → MoreFaults (D.Disk.faults (disk_of self.old)) (D.Disk.faults (disk_of self.new))) }
        ensures too_long { IsErrOf result KeepError.TooLong → ⊥ }
    {
        let place = self.begin + self.next;
        let length = file_length(&mut self.disk)?;
        if may_end(&self.window[self.next..], length.saturating_sub(place)) {
            Ok(())
        } else {
            Err(KeepError::Damaged(place))
        }
    }

    // The number of bytes of the next line, which is then whole in the window.
    fn find(&mut self) -> Result<Option<usize>, KeepError>
        ensures some { IfOk result (λ found. IfSome found (BeginsLine (drop self.new.next self.new.window.items))) }
        ensures none { IfOk result (λ found. IsNone found → BeginsNoLine (drop self.new.next self.new.window.items)) }
        ensures front { IfOk result (λ found. IsNone found → IsTrue (D.Disk.is_clean (disk_of self.new)) → IsFrontOf (limit_of self.old) (unread self.new) (drop self.new.next self.new.window.items)) }
        ensures place { place_of self.new ≡ place_of self.old }
        ensures limit { limit_of self.new ≡ limit_of self.old }
        ensures reads { OnlyReads D.Disk (disk_of self.old) (disk_of self.new) }
        ensures calm { OnOk result (D.Disk.faults (disk_of self.new) ≡ D.Disk.faults (disk_of self.old)) }
        ensures failed { IfErr result (λ e. IsDiskError e → MoreFaults (D.Disk.faults (disk_of self.old)) (D.Disk.faults (disk_of self.new))) }
        ensures too_long { IsErrOf result KeepError.TooLong → ⊥ }
        ensures damaged { (at : ℕ) → IsErrOf result (KeepError.Damaged at) → ⊥ }
    {
        if let Some(count) = line_length(&self.window[self.next..]) {
            return Ok(Some(count));
        }
        self.read(CHUNK)?;
        if let Some(count) = line_length(&self.window[self.next..]) {
            return Ok(Some(count));
        }
        self.fill()?;
        Ok(line_length(&self.window[self.next..]))
    }

    // Reads at most `most` bytes into the window, from the next line on.
    fn read(&mut self, most: usize) -> Result<(), KeepError>
        requires { most ≤ limit_of self.old + 65536 }
        ensures taken { OnOk result (IsTrue (D.Disk.is_clean (disk_of self.new)) → drop self.new.next self.new.window.items ≡ take most (unread self.new)) }
        ensures place { place_of self.new ≡ place_of self.old }
        ensures limit { limit_of self.new ≡ limit_of self.old }
        ensures reads { OnlyReads D.Disk (disk_of self.old) (disk_of self.new) }
        ensures calm { OnOk result (D.Disk.faults (disk_of self.new) ≡ D.Disk.faults (disk_of self.old)) }
        ensures failed { IfErr result (λ e. IsDiskError e → MoreFaults (D.Disk.faults (disk_of self.old)) (D.Disk.faults (disk_of self.new))) }
        ensures too_long { IsErrOf result KeepError.TooLong → ⊥ }
        ensures damaged { (at : ℕ) → IsErrOf result (KeepError.Damaged at) → ⊥ }
    {
        self.begin += self.next;
        self.next = 0;
        self.line = 0;
        self.line_end = 0;
        read_window(&mut self.disk, self.begin, most, &mut self.window)
    }

    // Reads the window again, from the next line on.
    fn fill(&mut self) -> Result<(), KeepError>
        ensures front { OnOk result (IsTrue (D.Disk.is_clean (disk_of self.new)) → IsFrontOf (limit_of self.old) (unread self.new) (drop self.new.next self.new.window.items)) }
        ensures place { place_of self.new ≡ place_of self.old }
        ensures limit { limit_of self.new ≡ limit_of self.old }
        ensures reads { OnlyReads D.Disk (disk_of self.old) (disk_of self.new) }
        ensures calm { OnOk result (D.Disk.faults (disk_of self.new) ≡ D.Disk.faults (disk_of self.old)) }
        ensures failed { IfErr result (λ e. IsDiskError e → MoreFaults (D.Disk.faults (disk_of self.old)) (D.Disk.faults (disk_of self.new))) }
        ensures too_long { IsErrOf result KeepError.TooLong → ⊥ }
        ensures damaged { (at : ℕ) → IsErrOf result (KeepError.Damaged at) → ⊥ }
    {
        self.read(self.limit.saturating_add(CHUNK))
    }
}
