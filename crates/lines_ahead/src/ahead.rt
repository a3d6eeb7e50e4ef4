//! Lines that threads read while earlier lines are answered.

ghost use Rattle.std.specs.Prelude.{◌≡◌, ◌<◌, ◌≤◌, length, true, false, All, Err, IfErr, IfOk, IfSome, Ok};
ghost use Rattle.cdr_checks.specs.Admission.{IsAdmitted};
ghost use Rattle.plain_house.specs.Replies.{is_refusal_no_memory};
ghost use Rattle.request_lines.specs.Script.{command_in};
ghost use Rattle.lines_ahead.specs.Inner.Left.{AreLeft};

use crate::batches::{Batch, batch_end};
use crate::begun::Begun;
use crate::idle_tariffs::IdleTariffs;
use crate::left::Left;
use crate::reading::read_batch;
use cdr_checks::Command;
use ocpi_types::{Config, Refusal, Shared};
use request_lines::{LineRoom, command_of};
use std::alloc::{AllocError, Global};
use std::collections::VecDeque;
use std::thread::Threads;

/// The lines of a read call: those of the first batch that is left, then the batches that are read or that threads read, then the bytes of
/// which no batch is begun.
#[derive(Drop)]
pub struct ReadAhead {
    pub alloc: Global,
    pub config: Shared<Config>,
    /// How many threads read at once.
    pub threads: usize,
    pub left: Left,
    pub begun: VecDeque<Begun>,

    /// Where the bytes begin of which no batch is begun.
    pub next: usize,
    pub idle: IdleTariffs,

    /// The room in which lines are read that were not read before.
    pub room: LineRoom,
    pub ghost are_left: { AreLeft config left },
    pub ghost begun_under: { All (λ it. it.under.value ≡ config) begun.items },
}

impl ReadAhead {
    /// Returns no lines. So many threads are to read at once.
    ///
    /// # Errors
    ///
    /// `AllocError` if an allocation fails.
    pub fn new(
        alloc: Global,
        config: Shared<Config>,
        threads: usize,
    ) -> Result<ReadAhead, AllocError>
        ensures { IfOk result (λ ahead. ahead.config ≡ config) }
    {
        let left = Left::none(alloc)?;
        Ok(ReadAhead {
            alloc,
            config,
            threads,
            left,
            begun: VecDeque::new(alloc),
            next: 0,
            idle: IdleTariffs::new(alloc),
            room: LineRoom::new(alloc),
        })
    }

    /// Returns the next batch, which is then begun, or `None` if there is none.
    fn next_batch(&mut self) -> Option<Batch>
        ensures config { self.new.config ≡ self.old.config }
        ensures left { self.new.left ≡ self.old.left }
        ensures next { self.old.next ≤ self.new.next }
        ensures more { IfSome result (λ _. self.old.next < self.new.next) }
        ensures bound { IfSome result (λ _. self.new.next ≤ length self.new.left.bytes.value.items) }
    {
        let bytes = self.left.share_bytes().ok()?;
        let start = self.next;
        let end = batch_end(bytes.as_slice(), start, self.threads)?;
        self.next = end;
        Some(Batch {
            bytes,
            start,
            end,
            tariffs: self.idle.take(),
        })
    }

    /// Leaves out the bytes of which no batch is begun.
    fn skip_rest(&mut self)
        ensures config { self.new.config ≡ self.old.config }
        ensures left { self.new.left ≡ self.old.left }
        ensures next { self.old.next ≤ self.new.next }
    {
        self.next = self.next.max(self.left.byte_count());
    }

    /// Keeps a batch that is begun. If an allocation fails, it is left out, and no batch is begun any longer.
    fn push(&mut self, begun: Begun)
        requires { begun.under.value ≡ self.old.config }
        ensures config { self.new.config ≡ self.old.config }
        ensures left { self.new.left ≡ self.old.left }
        ensures next { self.old.next ≤ self.new.next }
    {
        if self.begun.push_back(begun).is_err() {
            self.skip_rest();
        }
    }

    /// Starts a thread for the next batch. If that fails, no batch is begun any longer.
    fn start_next<R: Threads>(&mut self, rt: &R)
        ensures config { self.new.config ≡ self.old.config }
        ensures left { self.new.left ≡ self.old.left }
        ensures next { self.old.next ≤ self.new.next }
    {
        let Some(batch) = self.next_batch() else {
            return;
        };
        match Begun::start(rt, self.alloc, &self.config, batch) {
            Ok(begun) => self.push(begun),
            Err(AllocError) => self.skip_rest(),
        }
    }

    /// How many threads read.
    fn reading(&self) -> usize {
        let mut reading = 0;
        for begun in self.begun.iter() {
            if !begun.is_read() && reading < self.threads {
                reading += 1;
            }
        }
        reading
    }

    /// Starts threads for the next batches, as long as fewer read than may.
    fn start<R: Threads>(&mut self, rt: &R)
        ensures config { self.new.config ≡ self.old.config }
        ensures left { self.new.left ≡ self.old.left }
        ensures next { self.old.next ≤ self.new.next }
    {
        for _ in self.reading()..self.threads {
            self.start_next(rt);
        }
    }

    /// Takes the lines of the first batch that is begun, and waits for its thread; returns false if none is begun.
    fn take_first<R: Threads>(&mut self, rt: &R) -> bool
        ensures config { self.new.config ≡ self.old.config }
        ensures begun { result ≡ true → length self.new.begun.items < length self.old.begun.items }
    {
        let Some(begun) = self.begun.pop_front() else {
            return false;
        };
        let (left, tariffs) = Left::of(begun.read(rt));
        self.left = left;
        self.idle.keep(tariffs);
        true
    }

    /// Waits for all threads, and leaves out what is read and what is not begun.
    pub fn finish<R: Threads>(&mut self, rt: &R)
        ensures { self.new.config ≡ self.old.config }
    {
        while self.take_first(rt) {}
        self.left.clear(self.alloc);
        self.skip_rest();
    }

    /// Starts to read the lines of these bytes, in the place of those that were left.
    pub fn begin<R: Threads>(&mut self, rt: &R, bytes: &[u8])
        ensures { self.new.config ≡ self.old.config }
    {
        self.finish(rt);
        if self.left.renew(self.alloc, bytes).is_ok() {
            self.next = 0;
            self.start(rt);
        }
    }

    /// Whether the first batch is read, or none is begun.
    fn is_ready(&self) -> bool {
        match self.begun.front() {
            Some(begun) => begun.is_read(),
            None => true,
        }
    }

    /// Reads the next batch; returns false if there is none.
    fn read_next(&mut self) -> bool
        ensures config { self.new.config ≡ self.old.config }
        ensures left { self.new.left ≡ self.old.left }
        ensures next { result ≡ true → self.old.next < self.new.next }
        ensures bound { result ≡ true → self.old.next < length self.old.left.bytes.value.items }
    {
        let Some(batch) = self.next_batch() else {
            return false;
        };
        let read = read_batch(self.alloc, &self.config, batch);
        let begun = Begun::here(&self.config, read);
        self.push(begun);
        true
    }

    /// Reads the next batches, until the first one that is begun is read or all are begun.
    fn help<R: Threads>(&mut self, rt: &R)
        ensures { self.new.config ≡ self.old.config }
    {
        while !self.is_ready() {
            self.start(rt);
            if !self.read_next() {
                return;
            }
        }
    }

    /// Takes the lines of the first batch that is begun, if there is one, and has threads read the next ones.
    fn take_batch<R: Threads>(&mut self, rt: &R)
        ensures { self.new.config ≡ self.old.config }
    {
        self.help(rt);
        if self.take_first(rt) {
            self.start(rt);
        }
    }

    /// Returns the command of a line, or why it is refused before a house is asked, if the next line that is read is this one.
    fn read_before<R: Threads>(&mut self, rt: &R, line: &[u8]) -> Option<Result<Command, Refusal>>
        ensures config { self.new.config ≡ self.old.config }
        ensures command { IfSome result (λ command. command_in self.old.config line.now ≡ command) }
    {
        if self.left.is_empty() {
            self.take_batch(rt);
        }
        self.left.command(line)
    }

    /// Returns the command of a line, or why it is refused before a house is asked: as it was read before if the next line that is read is
    /// this one, and else as it is read now. The refusal is `NoMemory` if an allocation fails.
    pub fn command<R: Threads>(&mut self, rt: &R, line: &[u8]) -> Result<Command, Refusal>
        ensures config { self.new.config ≡ self.old.config }
        ensures command { IfOk result (λ command. command_in self.old.config line.now ≡ Ok command) }
        ensures admitted { IfOk result (λ command. IsAdmitted self.old.config command) }
        ensures refusal { IfErr result (λ refusal. is_refusal_no_memory refusal ≡ false → command_in self.old.config line.now ≡ Err refusal) }
    {
        match self.read_before(rt, line) {
            Some(command) => command,
            None => command_of(self.alloc, &mut self.room, &self.config, line),
        }
    }
}
