//! How far a call is.

use crate::collection::Collection;
use cdr_checks::Command;
use netting_positions::{Positions, StatementTable};
use ocpi_types::Refusal;
use plain_house::{Answer, Event};

/// What was decided, until its entries are put.
#[derive(Drop)]
pub struct Carried {
    /// The number of events before it.
    pub point: u64,
    /// The period that is current there.
    pub period: u64,
    pub reply: Result<Answer, Refusal>,
    pub event: Option<Event>,
}

/// What is collected from all books of a period.
#[derive(Drop)]
pub struct Netting {
    pub point: u64,
    pub period: u64,
    pub collection: Collection<Positions>,
}

/// What is collected from all books for a statement of a period.
#[derive(Drop)]
pub struct Stating {
    pub point: u64,
    pub period: u64,
    pub collection: Collection<StatementTable>,
}

/// How far a call is.
#[derive(Drop)]
pub enum Stage {
    /// It has not begun.
    Waiting(Command),
    /// It has no place in the order yet.
    Begun(Command),
    /// It has, and puts its entries.
    Ordered(Carried),
    /// It has closed its period, and collects net positions.
    Netting(Netting),
    /// It collects the rows of its statement.
    Stating(Stating),
    Ended,
}
