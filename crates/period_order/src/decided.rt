use cdr_checks::StatementOf;
use ocpi_types::Refusal;
use plain_house::{Answer, Event};

/// What a command comes to at its place in the order.
#[derive(Drop)]
pub struct Decided {
    /// The number of events before it.
    pub point: u64,
    /// The period that is current there: the number of closes before it.
    pub period: u64,
    pub outcome: Outcome,
}

/// What is left to do once a command has its place in the order.
#[derive(Drop)]
pub enum Outcome {
    /// Nothing but to put the event that is added, if any.
    Replied {
        reply: Result<Answer, Refusal>,
        event: Option<Event>,
    },
    /// The period is closed: its net positions are to be collected from all books.
    Closed {
        period: u64,
    },
    /// The rows of the statement are to be collected from all books.
    Stated {
        ask: StatementOf,
    },
}
