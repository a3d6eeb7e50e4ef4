//! A thread that reads the lines of a batch.

ghost use Rattle.std.specs.Prelude.{◌≡◌, IfOk};
ghost use Rattle.lines_ahead.specs.ReadLines.{AreRead};

use crate::batches::Batch;
use crate::read_batch::ReadBatch;
use crate::reading::read_batch;
use ocpi_types::{Config, Shared};
use std::alloc::{AllocError, Global};
use std::snapshot::Snapshot;
use std::sync::Arc;
use std::sync::atomic::{AtomicBool, Ordering};
use std::thread;
use std::thread::{Promise, PromisedHandle, Threads};

/// The promise of what is read under a configuration.
#[derive(Drop)]
pub struct ReadUnder(pub Snapshot<Config>);

impl Promise<ReadBatch> for ReadUnder {
    ghost kept_by = { λ promise batch. AreRead promise.0.value batch };
}

/// What a thread needs to read a batch, and what it sets when it has read it.
#[derive(Drop)]
struct Reader {
    alloc: Global,
    config: Shared<Config>,
    batch: Batch,
    is_read: Arc<AtomicBool>,
}

impl Reader {
    /// Reads the lines.
    fn read(self) -> ReadBatch
        ensures { AreRead self.config result }
    {
        let Reader {
            alloc,
            config,
            batch,
            is_read,
        } = self;
        let batch = read_batch(alloc, &config, batch);
        is_read.store(true, Ordering::SeqCst);
        batch
    }
}

/// A thread that reads a batch.
#[derive(Drop)]
pub struct Reading {
    thread: PromisedHandle<ReadBatch, ReadUnder>,
    is_read: Arc<AtomicBool>,
}

impl Reading {
    /// Starts a thread that reads the lines of a batch.
    ///
    /// # Errors
    ///
    /// `AllocError` if an allocation fails or no thread can be made.
    pub fn start<R: Threads>(
        rt: &R,
        alloc: Global,
        config: &Shared<Config>,
        batch: Batch,
    ) -> Result<Reading, AllocError>
        ensures { IfOk result (λ reading. reading.thread.promise.0.value ≡ config.now) }
    {
        let is_read = Arc::new(alloc, AtomicBool::new(false))?;
        let reader = Reader {
            alloc,
            config: config.share()?,
            batch,
            is_read: Arc::try_clone(&is_read)?,
        };
        let promise = ReadUnder(Snapshot::of(&**config));
        let thread = thread::spawn_with(rt, promise, move || reader.read())?;
        Ok(Reading { thread, is_read })
    }

    /// Whether the thread has read its lines, so that joining it hardly waits.
    pub fn is_read(&self) -> bool {
        self.is_read.load(Ordering::SeqCst)
    }

    /// Waits for the thread, and returns what it read.
    pub fn join<R: Threads>(self, rt: &R) -> ReadBatch
        ensures { AreRead self.thread.promise.0.value result }
    {
        let Reading { thread, is_read: _ } = self;
        thread.join(rt)
    }
}
