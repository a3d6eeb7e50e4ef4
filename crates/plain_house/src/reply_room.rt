//! Room for a reply, made before there is one.

ghost use Rattle.std.specs.Prelude.{◌≡◌, ◌≤◌, [], length, vec_capacity};
ghost use Rattle.plain_house.specs.Laws.{rows_in};

use super::answer::{Answer, Refused, Replied};
use netting_positions::{NetPosition, StatementRow};
use ocpi_json::sequence::Sequence;
use ocpi_types::Config;
use std::alloc::{AllocError, Global};
use std::marker::Model;

/// Memory for a copy of whatever a house replies under a configuration.
#[derive(Drop)]
pub struct ReplyRoom {
    most: usize,
    positions: Vec<NetPosition>,
    rows: Vec<StatementRow>,
}

impl Model for ReplyRoom {
    ghost use Rattle.std.specs.Prelude.{◌≡◌, ◌≤◌, [], ℕ, vec_capacity};

    ghost Value = { ℕ };

    ghost view = { λ room. room.most };

    ghost invariant = { λ room. (room.positions.items ≡ []) × (room.most ≤ vec_capacity room.positions)
        × (room.rows.items ≡ []) × (room.most ≤ vec_capacity room.rows) };
}

// The items again, in a list without items that has places for them.
fn filled<T: Copy + Drop>(mut places: Vec<T>, items: &[T]) -> Sequence<T>
    requires empty { places.items ≡ [] }
    requires room { length items.now ≤ vec_capacity places }
    ensures { result ≡ items.now }
{
    places.extend_from_slice(items).unwrap();
    Sequence::from_vec(places)
}

impl ReplyRoom {
    ghost use Rattle.std.specs.Prelude.{IfOk};
    ghost use Rattle.plain_house.specs.Laws.{most_rows};
    ghost use Rattle.plain_house.specs.ReplyRoom.{FitsIn};

    /// Room for each reply that a house of the configuration can give.
    pub fn new(alloc: Global, config: &Config) -> Result<ReplyRoom, AllocError>
        ensures { IfOk result (λ room. most_rows config.now ≤ room) }
    {
        let parties = config.operators.as_slice().len() + config.providers.as_slice().len();
        let most = config.currencies.as_slice().len() * parties;
        Ok(ReplyRoom {
            most,
            positions: Vec::with_capacity(alloc, most)?,
            rows: Vec::with_capacity(alloc, most)?,
        })
    }

    fn fill_answer(self, answer: &Answer) -> Answer
        requires { rows_in answer.now ≤ self }
        ensures { result ≡ answer.now }
    {
        match answer {
            Answer::Stored => Answer::Stored,
            Answer::Unchanged => Answer::Unchanged,
            Answer::Allowed { reference } => Answer::Allowed {
                reference: *reference,
            },
            Answer::Blocked => Answer::Blocked,
            Answer::NoCredit(over) => Answer::NoCredit(*over),
            Answer::Released { amount } => Answer::Released { amount: *amount },
            Answer::Accepted { amount, period } => Answer::Accepted {
                amount: *amount,
                period: *period,
            },
            Answer::Repeated { amount, period } => Answer::Repeated {
                amount: *amount,
                period: *period,
            },
            Answer::Closed { period, positions } => Answer::Closed {
                period: *period,
                positions: filled(self.positions, positions.as_slice()),
            },
            Answer::Settled { amount } => Answer::Settled { amount: *amount },
            Answer::Exposure {
                holds,
                debts,
                limit,
            } => Answer::Exposure {
                holds: *holds,
                debts: *debts,
                limit: *limit,
            },
            Answer::Found {
                amount,
                period,
                credited,
            } => Answer::Found {
                amount: *amount,
                period: *period,
                credited: *credited,
            },
            Answer::Statement { rows } => Answer::Statement {
                rows: filled(self.rows, rows.as_slice()),
            },
        }
    }

    /// The same reply again, without taking memory.
    pub fn fill(self, reply: &Result<Replied, Refused>) -> Result<Replied, Refused>
        requires { FitsIn self reply.now }
        ensures { result ≡ reply.now }
    {
        match reply {
            Ok(replied) => Ok(Replied {
                at: replied.at,
                answer: self.fill_answer(&replied.answer),
            }),
            Err(refused) => Err(*refused),
        }
    }
}
