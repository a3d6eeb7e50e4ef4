//! Batches that are read, or that threads read.

ghost use Rattle.std.specs.Prelude.{◌≡◌, IfOk};
ghost use Rattle.lines_ahead.specs.Inner.Work.{IsUnder};
ghost use Rattle.lines_ahead.specs.ReadLines.{AreRead};

use crate::batches::Batch;
use crate::read_batch::ReadBatch;
use crate::reader::Reading;
use ocpi_types::{Config, Shared};
use std::alloc::{AllocError, Global};
use std::snapshot::Snapshot;
use std::thread::Threads;

/// What is read of a batch, or the thread that reads it.
#[derive(Drop)]
pub enum Work {
    Read(ReadBatch),
    Reading(Reading),
}

/// A batch that is read under a configuration, or that a thread reads.
#[derive(Drop)]
pub struct Begun {
    pub under: Snapshot<Config>,
    pub work: Work,
    pub ghost is_under: { IsUnder under.value work },
}

impl Begun {
    /// Returns a batch that is read.
    pub fn here(config: &Config, batch: ReadBatch) -> Begun
        requires { AreRead config.now batch }
        ensures { result.under.value ≡ config.now }
    {
        Begun {
            under: Snapshot::of(config),
            work: Work::Read(batch),
        }
    }

    /// Starts a thread that reads the lines of a batch.
    ///
    /// # Errors
    ///
    /// `AllocError` if an allocation fails or no thread can be made.
    pub fn start<R: Threads>(
        rt: &R,
        alloc: Global,
        config: &Shared<Config>,
        batch: Batch,
    ) -> Result<Begun, AllocError>
        ensures { IfOk result (λ begun. begun.under.value ≡ config.now) }
    {
        let reading = Reading::start(rt, alloc, config, batch)?;
        Ok(Begun {
            under: Snapshot::of(&**config),
            work: Work::Reading(reading),
        })
    }

    /// Whether the lines are read, so that `read` hardly waits.
    pub fn is_read(&self) -> bool {
        match &self.work {
            Work::Read(_) => true,
            Work::Reading(reading) => reading.is_read(),
        }
    }

    /// Returns what is read. It waits for the thread if there is one.
    pub fn read<R: Threads>(self, rt: &R) -> ReadBatch
        ensures { AreRead self.under.value result }
    {
        let Begun { under: _, work } = self;
        match work {
            Work::Read(batch) => batch,
            Work::Reading(reading) => reading.join(rt),
        }
    }
}
