//! The room in which lines are read.

use ocpi_json::Room;
use ocpi_types::KnownTariffs;
use std::alloc::Global;

/// The room in which lines are read, and the tariffs that were read in it. One that is lent to many lines reads each of their tariffs
/// once.
#[derive(Drop)]
pub struct LineRoom {
    pub room: Room,
    pub tariffs: KnownTariffs,
}

impl LineRoom {
    pub fn new(alloc: Global) -> LineRoom {
        LineRoom {
            room: Room::new(alloc),
            tariffs: KnownTariffs::new(alloc),
        }
    }

    /// Returns a room with tariffs that were read in another one.
    pub fn with_tariffs(alloc: Global, tariffs: KnownTariffs) -> LineRoom {
        LineRoom {
            room: Room::new(alloc),
            tariffs,
        }
    }
}
