ghost use Rattle.std.specs.Prelude.{◌≡◌, ◌↔◌, ◌+◌, ◌-◌, ◌<◌, ◌≤◌, ◌^◌, ◌∷◌, [], ℕ, List, None, Some, length, drop, take, IsTrue, IfOk, OnOk, OnErr, IfErr, IsErrOf, IfSome, IsNone, MatchResult, false};
ghost use Rattle.sqlite_disk.specs.Disk.{Only, MoreFaults};
ghost use Rattle.kept_batches.specs.Text.{lines_in, marked};
ghost use Rattle.kept_batches.specs.Heads.{head};
ghost use Rattle.kept_batches.specs.Verdict.{verdict, readable, damage_in};
ghost use Rattle.kept_batches.specs.Reading.{OnlyReads, AreFoundAlike, IsHeadAt, HasFewer, IsTornAt, IsNotTorn};
ghost use Rattle.kept_batches.specs.Log.{IsSettled, IsDiskError};
ghost use Rattle.kept_batches.specs.Inner.Window.{IsWindow, IsShown};
ghost use Rattle.kept_batches.specs.Inner.State.{IsState, EndFits};
ghost use Rattle.kept_batches.specs.Inner.Finding.{IsMarked, IsUnmarkedLast, IsShutEnd};
ghost use Rattle.kept_batches.specs.File.{shut_mark};

use crate::end::End;
use crate::finding::Found;
use crate::heads::{first_head, next_head};
use crate::lines::line_length;
use crate::looking::{Look, find_marked, look_on};
use crate::repair::repair;
use crate::window::read_window;
use crate::writes::SHUT;
use crate::{KeepError, Log};
use sqlite_disk::Disk;
use std::alloc::Global;

// The number of bytes of a read, unless the next batch has more.
const CHUNK: usize = 1 << 16;

/// With its marks, a batch has no more bytes; one more tells whether the file ends there.
pub const MOST_WINDOW: usize = 16_777_300;

/// Reads the lines of a file that a crash may have left, one after another. It compares a batch with
/// its head before it lends a line of it. It changes nothing until `finish`, and it needs memory for
/// the longest batch, however long the file is.
#[derive(Drop)]
pub struct Recovery<D: Disk> {
    disk: D,
    // A part of the file, where it begins there, and where in it the next line of the batch begins,
    // and the mark after the batch.
    window: Vec<u8>,
    begin: usize,
    next: usize,
    stop: usize,
    // The number of lines that were lent, the head after the batch, and what comes after it, if that
    // is known and no batch.
    lent: usize,
    head: [u8; 32],
    end: Option<End>,
    // Where the line begins and ends in the window that `next_line` went to.
    line: usize,
    line_end: usize,
    ghost usable: { IsTrue (D.Disk.is_usable disk) },
    ghost durable: { Only (D.Disk.seen disk) (D.Disk.may_leave disk) },
    ghost window_is: { IsTrue (D.Disk.is_clean disk) → IsWindow (D.Disk.seen disk) begin window.items },
    ghost shown: { IsTrue (D.Disk.is_clean disk) → IsShown end (D.Disk.seen disk) begin window.items },
    ghost within: { (next ≤ stop) × (stop ≤ length window.items) },
    ghost line_is: { (line ≤ line_end) × (line_end ≤ length window.items) },
    ghost fits: { begin + length window.items < 2 ^ 64 },
    ghost bounded: { length window.items ≤ 16777300 },
    ghost few: { lent ≤ begin + next },
    ghost mark_fits: { ∥ EndFits end (begin + stop) ∥₁ },
    ghost pending: { take (stop - next) (drop next window.items) ≡ marked (lines_in (take (stop - next) (drop next window.items))) },
    ghost state: { IsTrue (D.Disk.is_clean disk) → ∥ IsState end (D.Disk.seen disk) (begin + stop) head lent (lines_in (take (stop - next) (drop next window.items))) ∥₁ },
}

/// Why a recovery failed, and its disk.
#[derive(Drop)]
pub struct Unrecovered<D: Disk> {
    pub disk: D,
    pub cause: KeepError,
}

impl<D: Disk> Recovery<D> {
    ghost use Rattle.kept_batches.specs.Recovery.{IsAtEnd, disk_of, line_of, place_of, lines_left, count_of, head_of, torn_of};
    ghost use Rattle.kept_batches.specs.Inner.Pending.{pending_of};

    /// Begins at the first line of a file.
    pub fn new(alloc: Global, disk: D) -> Recovery<D>
        requires usable { IsTrue (D.Disk.is_usable disk) }
        // After a restart, what is read is what is on the disk.
        requires durable { Only (D.Disk.seen disk) (D.Disk.may_leave disk) }
        ensures disk { disk_of result ≡ disk }
        ensures count { count_of result ≡ 0 }
        ensures head { head_of result ≡ head [] }
        ensures lines { lines_left result ≡ readable (verdict (D.Disk.seen disk)) }
    {
        let head = first_head();
        Recovery {
            disk,
            window: Vec::new(alloc),
            begin: 0,
            next: 0,
            stop: 0,
            lent: 0,
            head,
            end: None,
            line: 0,
            line_end: 0,
        }
    }

    /// Goes back to the first line.
    pub fn rewind(&mut self)
        ensures disk { disk_of self.new ≡ disk_of self.old }
        ensures count { count_of self.new ≡ 0 }
        ensures head { head_of self.new ≡ head [] }
        ensures lines { lines_left self.new ≡ readable (verdict (D.Disk.seen (disk_of self.old))) }
    {
        let head = first_head();
        self.window.clear();
        self.begin = 0;
        self.next = 0;
        self.stop = 0;
        self.lent = 0;
        self.head = head;
        self.end = None;
        self.line = 0;
        self.line_end = 0;
    }

    /// The disk, which is as before.
    pub fn into_disk(self) -> D
        ensures { result ≡ disk_of self }
    {
        self.disk
    }

    /// The number of lines that were lent.
    pub fn count(&self) -> usize
        ensures { result ≡ count_of self.now }
    {
        self.lent
    }

    /// The head after all lines of the batches that were read: after the last line, that of the file.
    pub fn head(&self) -> &[u8; 32]
        ensures { result.now ≡ head_of self.now }
    {
        &self.head
    }

    /// Goes to the next line. Returns whether there was one, and at an error stays where it was.
    pub fn next_line(&mut self) -> Result<bool, KeepError>
        ensures line { IfOk result (λ is_line. IsTrue is_line → IsTrue (D.Disk.is_clean (disk_of self.new)) → lines_left self.old ≡ line_of self.new ∷ lines_left self.new) }
        ensures end { IfOk result (λ is_line. is_line ≡ false → IsTrue (D.Disk.is_clean (disk_of self.new)) → IsAtEnd self.old self.new) }
        ensures damaged { (at : ℕ) → IsErrOf result (KeepError.Damaged at) → IsTrue (D.Disk.is_clean (disk_of self.new)) → damage_in (D.Disk.seen (disk_of self.old)) ≡ Some at }
        ensures spent { (at : ℕ) → IsErrOf result (KeepError.Damaged at) → IsTrue (D.Disk.is_clean (disk_of self.new)) → lines_left self.new ≡ [] }
        ensures count { MatchResult result (λ is_line. IsTrue is_line → count_of self.new ≡ count_of self.old + 1) (λ _. count_of self.new ≡ count_of self.old) }
        ensures within { IfOk result (λ is_line. IsTrue is_line → length (line_of self.new) ≤ 2 ^ 24 + 84) }
        ensures progress { IfOk result (λ is_line. IsTrue is_line → (place_of self.old < place_of self.new) × (place_of self.new < 2 ^ 64)) }

        ensures reads { OnlyReads D.Disk (disk_of self.old) (disk_of self.new) }

        // It fails for these causes only, and if an allocation fails.
        ensures calm { OnOk result (D.Disk.faults (disk_of self.new) ≡ D.Disk.faults (disk_of self.old)) }
        ensures failed { IfErr result (λ e. IsDiskError e → MoreFaults (D.Disk.faults (disk_of self.old)) (D.Disk.faults (disk_of self.new))) }
        ensures full { IsErrOf result KeepError.Full → ⊥ }
    {
        if self.go_on()?.is_some() {
            return Ok(false);
        }
        self.lend();
        Ok(true)
    }

    /// The line to which `next_line` went.
    pub fn line(&self) -> &[u8]
        ensures { result.now ≡ line_of self.now }
    {
        &self.window[self.line..self.line_end]
    }

    /// The head after the first `count` lines, or `None` if the file has fewer. It goes back to the first
    /// line, and then on to the last of these.
    pub fn head_at(&mut self, count: usize) -> Result<Option<[u8; 32]>, KeepError>
        ensures some { IfOk result (λ found. IfSome found (λ last. IsTrue (D.Disk.is_clean (disk_of self.new)) → IsHeadAt (D.Disk.seen (disk_of self.old)) count last)) }
        ensures none { IfOk result (λ found. IsNone found → IsTrue (D.Disk.is_clean (disk_of self.new)) → HasFewer (D.Disk.seen (disk_of self.old)) count) }
        ensures damaged { (at : ℕ) → IsErrOf result (KeepError.Damaged at) → IsTrue (D.Disk.is_clean (disk_of self.new)) → damage_in (D.Disk.seen (disk_of self.old)) ≡ Some at }

        ensures reads { OnlyReads D.Disk (disk_of self.old) (disk_of self.new) }

        // It fails for these causes only, and if an allocation fails.
        ensures calm { OnOk result (D.Disk.faults (disk_of self.new) ≡ D.Disk.faults (disk_of self.old)) }
        ensures failed { IfErr result (λ e. IsDiskError e → MoreFaults (D.Disk.faults (disk_of self.old)) (D.Disk.faults (disk_of self.new))) }
        ensures full { IsErrOf result KeepError.Full → ⊥ }
    {
        self.rewind();
        let mut head = first_head();
        while self.lent < count {
            if !self.next_line()? {
                return Ok(None);
            }
            head = next_head(&head, self.line());
        }
        Ok(Some(head))
    }

    // Lends the next line of the batch.
    fn lend(&mut self)
        requires { self.old.next < self.old.stop }
        ensures line { pending_of self.old ≡ line_of self.new ∷ pending_of self.new }
        ensures count { count_of self.new ≡ count_of self.old + 1 }
        ensures disk { disk_of self.new ≡ disk_of self.old }
        ensures progress { (place_of self.old < place_of self.new) × (place_of self.new < 2 ^ 64) }
    {
        let Some(count) = line_length(&self.window[self.next..self.stop]) else {
            return;
        };
        self.line = self.next + 1;
        self.line_end = self.line + count;
        self.next = self.line_end + 1;
        self.lent += 1;
    }

    // Goes on to a batch with a line that was not lent, or to what comes after the last one.
    fn go_on(&mut self) -> Result<Option<End>, KeepError>
        ensures batch { IfOk result (λ found. IsNone found → self.new.next < self.new.stop) }
        ensures end { IfOk result (λ found. IfSome found (λ _. (self.new.end ≡ found) × (self.new.next ≡ self.new.stop))) }
        ensures damaged { (at : ℕ) → IsErrOf result (KeepError.Damaged at) → IsTrue (D.Disk.is_clean (disk_of self.new)) → damage_in (D.Disk.seen (disk_of self.old)) ≡ Some at }
        ensures spent { (at : ℕ) → IsErrOf result (KeepError.Damaged at) → IsTrue (D.Disk.is_clean (disk_of self.new)) → lines_left self.new ≡ [] }
        ensures count { count_of self.new ≡ count_of self.old }
        ensures stays { place_of self.old ≤ place_of self.new }
        ensures reads { OnlyReads D.Disk (disk_of self.old) (disk_of self.new) }
        ensures calm { OnOk result (D.Disk.faults (disk_of self.new) ≡ D.Disk.faults (disk_of self.old)) }
        ensures failed { IfErr result (λ e. IsDiskError e → MoreFaults (D.Disk.faults (disk_of self.old)) (D.Disk.faults (disk_of self.new))) }
        ensures full { IsErrOf result KeepError.Full → ⊥ }
    {
        while self.next == self.stop {
            let found = self.next_batch()?;
            if found.is_some() {
                return Ok(found);
            }
        }
        Ok(None)
    }

    // Goes on to the next batch, or to what comes after the last one, once all lines of this one are lent.
    fn next_batch(&mut self) -> Result<Option<End>, KeepError>
        requires lent { self.old.next ≡ self.old.stop }
        ensures batch { IfOk result (λ found. IsNone found → place_of self.old < place_of self.new) }
        ensures end { IfOk result (λ found. IfSome found (λ _. (self.new.end ≡ found) × (self.new.next ≡ self.new.stop))) }
        ensures damaged { (at : ℕ) → IsErrOf result (KeepError.Damaged at) → IsTrue (D.Disk.is_clean (disk_of self.new)) → damage_in (D.Disk.seen (disk_of self.old)) ≡ Some at }
        ensures spent { (at : ℕ) → IsErrOf result (KeepError.Damaged at) → IsTrue (D.Disk.is_clean (disk_of self.new)) → lines_left self.new ≡ [] }
        ensures count { count_of self.new ≡ count_of self.old }
        ensures stays { place_of self.old ≤ place_of self.new }
        ensures reads { OnlyReads D.Disk (disk_of self.old) (disk_of self.new) }
        ensures calm { OnOk result (D.Disk.faults (disk_of self.new) ≡ D.Disk.faults (disk_of self.old)) }
        ensures failed { IfErr result (λ e. IsDiskError e → MoreFaults (D.Disk.faults (disk_of self.old)) (D.Disk.faults (disk_of self.new))) }
        ensures full { IsErrOf result KeepError.Full → ⊥ }
    {
        if self.end.is_some() {
            return Ok(self.end);
        }
        if self.takes_marked() {
            return Ok(None);
        }
        self.read(CHUNK)?;
        if self.takes_marked() {
            return Ok(None);
        }
        self.read(MOST_WINDOW)?;
        self.take_next()
    }

    // Takes a batch that comes next and is in the window. Returns whether there is one.
    fn takes_marked(&mut self) -> bool
        requires lent { self.old.next ≡ self.old.stop }
        requires end { self.old.end ≡ None }
        ensures batch { IsTrue result → place_of self.old < place_of self.new }
        ensures none { result ≡ false → (self.new.next ≡ self.new.stop) × (self.new.end ≡ None) × (place_of self.new ≡ place_of self.old) }
        ensures count { count_of self.new ≡ count_of self.old }
        ensures disk { disk_of self.new ≡ disk_of self.old }
    {
        let Some(found) = find_marked(&self.head, &self.window[self.stop..]) else {
            return false;
        };
        self.take_marked(found);
        true
    }

    fn take_marked(&mut self, found: Found)
        requires lent { self.old.next ≡ self.old.stop }
        requires end { self.old.end ≡ None }
        requires batch { IsMarked self.old.head (drop self.old.stop self.old.window.items) found.size found.head }
        ensures progress { place_of self.old < place_of self.new }
        ensures count { count_of self.new ≡ count_of self.old }
        ensures disk { disk_of self.new ≡ disk_of self.old }
    {
        let head = found.head;
        self.next = self.stop + 79;
        self.stop = self.next + found.size;
        self.head = head;
    }

    // Reads at most `most` bytes into the window, from the next mark on.
    fn read(&mut self, most: usize) -> Result<(), KeepError>
        requires lent { self.old.next ≡ self.old.stop }
        requires end { self.old.end ≡ None }
        requires bounded { most ≤ 16777300 }
        ensures taken { OnOk result (IsTrue (D.Disk.is_clean (disk_of self.new)) → self.new.window.items ≡ take most (drop self.new.begin (D.Disk.seen (disk_of self.old)))) }
        ensures start { (self.new.next ≡ 0) × (self.new.stop ≡ 0) × (self.new.end ≡ None) }
        ensures place { place_of self.new ≡ place_of self.old }
        ensures count { count_of self.new ≡ count_of self.old }
        ensures reads { OnlyReads D.Disk (disk_of self.old) (disk_of self.new) }
        ensures calm { OnOk result (D.Disk.faults (disk_of self.new) ≡ D.Disk.faults (disk_of self.old)) }
        ensures failed { IfErr result (λ e. IsDiskError e → MoreFaults (D.Disk.faults (disk_of self.old)) (D.Disk.faults (disk_of self.new))) }
        ensures full { IsErrOf result KeepError.Full → ⊥ }
        ensures damaged { (at : ℕ) → IsErrOf result (KeepError.Damaged at) → ⊥ }
    {
        self.begin += self.stop;
        self.next = 0;
        self.stop = 0;
        self.line = 0;
        self.line_end = 0;
        read_window(&mut self.disk, self.begin, most, &mut self.window)
    }

    // Takes what comes next. All of it is in the window, unless it is damage.
    fn take_next(&mut self) -> Result<Option<End>, KeepError>
        requires start { (self.old.next ≡ 0) × (self.old.stop ≡ 0) × (self.old.end ≡ None) }
        requires window { IsTrue (D.Disk.is_clean (disk_of self.old)) → self.old.window.items ≡ take 16777300 (drop self.old.begin (D.Disk.seen (disk_of self.old))) }
        ensures batch { IfOk result (λ found. IsNone found → place_of self.old < place_of self.new) }
        ensures end { IfOk result (λ found. IfSome found (λ _. (self.new.end ≡ found) × (self.new.next ≡ self.new.stop))) }
        ensures stays { place_of self.old ≤ place_of self.new }
        ensures count { count_of self.new ≡ count_of self.old }
        ensures disk { disk_of self.new ≡ disk_of self.old }
        ensures damaged { (at : ℕ) → IsErrOf result (KeepError.Damaged at) → IsTrue (D.Disk.is_clean (disk_of self.new)) → damage_in (D.Disk.seen (disk_of self.old)) ≡ Some at }
        ensures spent { (at : ℕ) → IsErrOf result (KeepError.Damaged at) → IsTrue (D.Disk.is_clean (disk_of self.new)) → lines_left self.new ≡ [] }
        ensures only_damaged { IfErr result (λ e. (IsDiskError e → ⊥) × (e ≡ KeepError.Full → ⊥)) }
    {
        if is_short(self.begin, self.window.len()) {
            return Ok(Some(self.take_short()));
        }
        match look_on(&self.head, &self.window) {
            Look::Batch(found) => {
                self.take_marked(found);
                Ok(None)
            }
            Look::Unmarked(found) => {
                self.take_unmarked(found);
                Ok(None)
            }
            Look::Shut => Ok(Some(self.take_shut())),
            Look::Damaged => Err(KeepError::Damaged(self.begin)),
        }
    }

    fn take_unmarked(&mut self, found: Found)
        requires start { (self.old.next ≡ 0) × (self.old.stop ≡ 0) × (self.old.end ≡ None) }
        requires window { IsTrue (D.Disk.is_clean (disk_of self.old)) → self.old.window.items ≡ take 16777300 (drop self.old.begin (D.Disk.seen (disk_of self.old))) }
        requires batch { IsUnmarkedLast self.old.head self.old.window.items found.size found.head }
        ensures progress { place_of self.old < place_of self.new }
        ensures count { count_of self.new ≡ count_of self.old }
        ensures disk { disk_of self.new ≡ disk_of self.old }
    {
        self.end = Some(End::Unmarked {
            mark: self.begin,
            first_is_shut: begins_shut(&self.window),
        });
        let head = found.head;
        self.next = 79;
        self.stop = 79 + found.size;
        self.head = head;
    }

    fn take_shut(&mut self) -> End
        requires start { (self.old.next ≡ 0) × (self.old.stop ≡ 0) × (self.old.end ≡ None) }
        requires window { IsTrue (D.Disk.is_clean (disk_of self.old)) → self.old.window.items ≡ take 16777300 (drop self.old.begin (D.Disk.seen (disk_of self.old))) }
        requires shut { IsShutEnd self.old.window.items }
        ensures end { (self.new.end ≡ Some result) × (self.new.next ≡ self.new.stop) }
        ensures place { place_of self.new ≡ place_of self.old }
        ensures count { count_of self.new ≡ count_of self.old }
        ensures disk { disk_of self.new ≡ disk_of self.old }
    {
        if self.window.len() == 4 {
            self.end = Some(End::Whole);
            return End::Whole;
        }
        self.end = Some(End::Torn);
        End::Torn
    }

    fn take_short(&mut self) -> End
        requires start { (self.old.next ≡ 0) × (self.old.stop ≡ 0) × (self.old.end ≡ None) }
        requires window { IsTrue (D.Disk.is_clean (disk_of self.old)) → self.old.window.items ≡ take 16777300 (drop self.old.begin (D.Disk.seen (disk_of self.old))) }
        requires short { (self.old.begin ≡ 0) × (length self.old.window.items ≤ 4) }
        ensures end { (self.new.end ≡ Some result) × (self.new.next ≡ self.new.stop) }
        ensures place { place_of self.new ≡ place_of self.old }
        ensures count { count_of self.new ≡ count_of self.old }
        ensures disk { disk_of self.new ≡ disk_of self.old }
    {
        if is_shut(&self.window) {
            self.end = Some(End::Whole);
            return End::Whole;
        }
        self.end = Some(End::Unbegun);
        End::Unbegun
    }

    // Reads on to what comes after the last batch.
    fn skip(&mut self) -> Result<End, KeepError>
        ensures end { IfOk result (λ end. (self.new.end ≡ Some end) × (self.new.next ≡ self.new.stop)) }
        ensures damaged { (at : ℕ) → IsErrOf result (KeepError.Damaged at) → IsTrue (D.Disk.is_clean (disk_of self.new)) → damage_in (D.Disk.seen (disk_of self.old)) ≡ Some at }
        ensures reads { OnlyReads D.Disk (disk_of self.old) (disk_of self.new) }
        ensures calm { OnOk result (D.Disk.faults (disk_of self.new) ≡ D.Disk.faults (disk_of self.old)) }
        ensures failed { IfErr result (λ e. IsDiskError e → MoreFaults (D.Disk.faults (disk_of self.old)) (D.Disk.faults (disk_of self.new))) }
        ensures full { IsErrOf result KeepError.Full → ⊥ }
    {
        loop {
            if let Some(end) = self.go_on()? {
                return Ok(end);
            }
            self.lend();
        }
    }

    /// Reads on to the end of the file. Returns where it has bytes that were never acknowledged, if it
    /// has any: `finish` removes them. `torn` then lends them.
    pub fn torn_end(&mut self) -> Result<Option<usize>, KeepError>
        ensures some { IfOk result (λ torn. IfSome torn (λ at. IsTrue (D.Disk.is_clean (disk_of self.new)) → ∥ IsTornAt (D.Disk.seen (disk_of self.old)) at (torn_of self.new) ∥₁)) }
        ensures none { IfOk result (λ torn. IsNone torn → IsTrue (D.Disk.is_clean (disk_of self.new)) → IsNotTorn (D.Disk.seen (disk_of self.old))) }
        ensures damaged { (at : ℕ) → IsErrOf result (KeepError.Damaged at) → IsTrue (D.Disk.is_clean (disk_of self.new)) → damage_in (D.Disk.seen (disk_of self.old)) ≡ Some at }

        ensures reads { OnlyReads D.Disk (disk_of self.old) (disk_of self.new) }

        // It fails for these causes only, and if an allocation fails.
        ensures calm { OnOk result (D.Disk.faults (disk_of self.new) ≡ D.Disk.faults (disk_of self.old)) }
        ensures failed { IfErr result (λ e. IsDiskError e → MoreFaults (D.Disk.faults (disk_of self.old)) (D.Disk.faults (disk_of self.new))) }
        ensures full { IsErrOf result KeepError.Full → ⊥ }
    {
        match self.skip()? {
            End::Torn => Ok(Some(self.begin + self.stop + 4)),
            End::Whole | End::Unmarked { .. } | End::Unbegun => Ok(None),
        }
    }

    /// The bytes after the mark where `torn_end` found a torn end.
    pub fn torn(&self) -> &[u8]
        ensures { result.now ≡ torn_of self.now }
    {
        let start = self.window.len().min(self.stop + 4);
        &self.window[start..]
    }

    /// Reads on to the end of the file, repairs what a crash left there, and returns the log of its
    /// lines. This may be cut short at any moment, and recovered again. A damaged file stays as it is.
    pub fn finish(mut self) -> Result<Log<D>, Unrecovered<D>>
        ensures settled { IfOk result (λ log. IsSettled D.Disk log) }
        ensures lines { IfOk result (λ log. IsTrue (D.Disk.is_clean log.disk) → AreFoundAlike (D.Disk.seen log.disk) (D.Disk.seen (disk_of self))) }
        ensures whole { IfOk result (λ log. IsTrue (D.Disk.is_clean log.disk) → damage_in (D.Disk.seen (disk_of self)) ≡ None) }

        // A disk may stop at any of its calls, so this covers a crash at any moment of this call.
        ensures any_moment { IfErr result (λ e. IsTrue (D.Disk.is_clean e.disk) → (c : List ℕ) → D.Disk.may_leave e.disk c → AreFoundAlike c (D.Disk.seen (disk_of self))) }

        ensures clean { MatchResult result (λ log. IsTrue (D.Disk.is_clean log.disk) → IsTrue (D.Disk.is_clean (disk_of self)))
            (λ e. IsTrue (D.Disk.is_clean e.disk) → IsTrue (D.Disk.is_clean (disk_of self))) }

        // It fails for these causes only, and if an allocation fails.
        ensures calm { IfOk result (λ log. D.Disk.faults log.disk ≡ D.Disk.faults (disk_of self)) }
        ensures failed { IfErr result (λ e. IsDiskError e.cause → MoreFaults (D.Disk.faults (disk_of self)) (D.Disk.faults e.disk)) }
        ensures damaged { IfErr result (λ e. (at : ℕ) → e.cause ≡ KeepError.Damaged at → IsTrue (D.Disk.is_clean e.disk) → damage_in (D.Disk.seen (disk_of self)) ≡ Some at) }
        ensures untouched { IfErr result (λ e. (IsDiskError e.cause → ⊥) → OnlyReads D.Disk (disk_of self) e.disk) }
        ensures full { IfErr result (λ e. e.cause ≡ KeepError.Full → ⊥) }
    {
        let read = self.skip();
        let place = self.begin + self.stop;
        let head = self.head;
        let mut disk = self.disk;
        let end = match read {
            Ok(end) => end,
            Err(cause) => return Err(Unrecovered { disk, cause }),
        };
        match repair(&mut disk, end, place) {
            Ok(()) => Ok(Log {
                disk,
                end: place,
                head,
            }),
            Err(error) => Err(Unrecovered {
                disk,
                cause: KeepError::Disk(error),
            }),
        }
    }
}

fn is_short(begin: usize, len: usize) -> bool
    ensures { IsTrue result ↔ (begin ≡ 0) × (len ≤ 4) }
{
    begin == 0 && len <= 4
}

fn is_shut(text: &[u8]) -> bool
    ensures { IsTrue result ↔ (text.now ≡ shut_mark) }
{
    text == SHUT.as_slice()
}

// Whether the first half of a mark is that of a shut one.
fn begins_shut(text: &[u8]) -> bool
    ensures { IsTrue result ↔ (take 2 text.now ≡ 45 ∷ 45 ∷ []) }
{
    is_half(&text[..text.len().min(2)])
}

fn is_half(text: &[u8]) -> bool
    ensures { IsTrue result ↔ (text.now ≡ 45 ∷ 45 ∷ []) }
{
    text == b"--".as_slice()
}
