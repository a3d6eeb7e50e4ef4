//! Bytes whose lines are read before they are answered.

use cdr_checks::Command;
use ocpi_types::{KnownTariffs, Refusal};
use std::sync::Arc;

/// Where a line begins in some bytes, how many bytes it has, and its command or why it is refused before a house is asked.
#[derive(Drop)]
pub struct ReadLine {
    pub start: usize,
    pub length: usize,
    pub command: Result<Command, Refusal>,
}

/// The bytes of a read call, lines of them that are read, in order, and what is remembered of tariffs after them.
#[derive(Drop)]
pub struct ReadBatch {
    pub bytes: Arc<Vec<u8>>,
    pub lines: Vec<ReadLine>,
    pub tariffs: KnownTariffs,
}
