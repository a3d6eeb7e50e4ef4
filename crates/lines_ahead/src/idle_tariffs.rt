//! What is remembered of tariffs while no thread uses it.

use ocpi_types::KnownTariffs;
use std::alloc::Global;

/// How many are kept at most.
const MOST_IDLE: usize = 32;

/// The tariffs that batches before had, for the batches that are read next.
#[derive(Drop)]
pub struct IdleTariffs {
    alloc: Global,
    idle: Vec<KnownTariffs>,
}

impl IdleTariffs {
    /// Returns none.
    pub fn new(alloc: Global) -> IdleTariffs {
        IdleTariffs {
            alloc,
            idle: Vec::new(alloc),
        }
    }

    /// Takes those that were kept last, or returns new ones that remember nothing yet.
    pub fn take(&mut self) -> KnownTariffs {
        match self.idle.pop() {
            Some(tariffs) => tariffs,
            None => KnownTariffs::new(self.alloc),
        }
    }

    /// Keeps them for a next batch, unless there are enough or an allocation fails.
    pub fn keep(&mut self, tariffs: KnownTariffs) {
        if self.idle.len() < MOST_IDLE {
            let _ = self.idle.push(tariffs);
        }
    }
}
