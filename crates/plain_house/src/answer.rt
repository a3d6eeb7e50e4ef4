use crate::over_limit::OverLimit;
use exact_money::Amount;
use netting_positions::{NetPosition, StatementRow};
use ocpi_json::ci_text::CiText;
use ocpi_json::sequence::Sequence;
use ocpi_types::{Refusal, TryCopy, copied};
use std::alloc::{AllocError, Global};
use std::fmt;
use thiserror::Error;

/// What an accepted command is answered.
#[derive(Drop)]
pub enum Answer {
    Stored,
    /// The tariff version stands already, with the same content.
    Unchanged,
    /// The authorisation stands under this reference.
    Allowed {
        reference: CiText<36>,
    },
    /// The token is not valid.
    Blocked,
    /// With the hold, this exposure would be above its limit.
    NoCredit(OverLimit),
    /// The hold of this amount is given back.
    Released {
        amount: Amount,
    },
    /// The CDR is booked at this amount, in this period.
    Accepted {
        amount: Amount,
        period: u64,
    },
    /// The same CDR was booked before, at this amount and in this period.
    Repeated {
        amount: Amount,
        period: u64,
    },
    /// The period is closed; all parties have these net positions in it.
    Closed {
        period: u64,
        positions: Sequence<NetPosition>,
    },
    /// The debt of this amount is paid.
    Settled {
        amount: Amount,
    },
    Exposure {
        holds: Amount,
        debts: Amount,
        limit: Amount,
    },
    /// The CDR stands at this amount in this period.
    Found {
        amount: Amount,
        period: u64,
        credited: bool,
    },
    /// What the party and its counterparts owe each other.
    Statement {
        rows: Sequence<StatementRow>,
    },
}

impl TryCopy for Answer {
    fn copy(&self, alloc: Global) -> Result<Answer, AllocError> {
        match self {
            Answer::Stored => Ok(Answer::Stored),
            Answer::Unchanged => Ok(Answer::Unchanged),
            Answer::Allowed { reference } => Ok(Answer::Allowed {
                reference: *reference,
            }),
            Answer::Blocked => Ok(Answer::Blocked),
            Answer::NoCredit(over) => Ok(Answer::NoCredit(*over)),
            Answer::Released { amount } => Ok(Answer::Released { amount: *amount }),
            Answer::Accepted { amount, period } => Ok(Answer::Accepted {
                amount: *amount,
                period: *period,
            }),
            Answer::Repeated { amount, period } => Ok(Answer::Repeated {
                amount: *amount,
                period: *period,
            }),
            Answer::Closed { period, positions } => Ok(Answer::Closed {
                period: *period,
                positions: copied(alloc, positions)?,
            }),
            Answer::Settled { amount } => Ok(Answer::Settled { amount: *amount }),
            Answer::Exposure {
                holds,
                debts,
                limit,
            } => Ok(Answer::Exposure {
                holds: *holds,
                debts: *debts,
                limit: *limit,
            }),
            Answer::Found {
                amount,
                period,
                credited,
            } => Ok(Answer::Found {
                amount: *amount,
                period: *period,
                credited: *credited,
            }),
            Answer::Statement { rows } => Ok(Answer::Statement {
                rows: copied(alloc, rows)?,
            }),
        }
    }
}

/// An answer, and the number of events before it.
#[derive(Drop)]
pub struct Replied {
    pub at: u64,
    pub answer: Answer,
}

/// A refusal, and the number of events before it where the house refuses.
#[derive(Clone, Copy, Debug, PartialEq, Eq, Error)]
pub struct Refused {
    pub at: Option<u64>,
    pub refusal: Refusal,
}

/// Writes the refusal, and then the number of events if there is one: `NotCurrent current 1 at 6`.
impl fmt::Display for Refused {
    ghost use Rattle.std.specs.Prelude.{Some};
    ghost use Rattle.plain_house.specs.Replies.{refused_text};

    ghost output = { λ refused. Some (refused_text refused) };

    fn fmt<W: fmt::Write>(&self, f: &mut fmt::Formatter<W>) -> fmt::Result {
        let refusal = self.refusal;
        match self.at {
            Some(at) => write!(f, "{refusal} at {at}"),
            None => write!(f, "{refusal}"),
        }
    }
}
