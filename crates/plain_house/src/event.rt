use super::booked_amount::BookedAmount;
use cdr_checks::{Release, Settlement};
use ocpi_json::ci_text::CiText;
use ocpi_types::config::HoldAmount;
use ocpi_types::{Cdr, Cost, Currency, Party, Shared, Tariff, Token, TryCopy};
use std::alloc::{AllocError, Global};

/// What an allowed authorisation holds of its provider's credit.
#[derive(Clone, Copy)]
pub struct Hold {
    pub operator: Party,
    pub provider: Party,
    pub currency: Currency,
    pub amount: HoldAmount,
    pub reference: CiText<36>,
}

/// What has happened in a house.
#[derive(Drop)]
pub enum Event {
    Tariff(Shared<Tariff>),
    Token(Token),
    Authorised(Hold),
    Released(Release),
    /// A CDR that is no Credit CDR, booked at what its session costs.
    Cdr {
        cdr: Shared<Cdr>,
        cost: Cost,
    },
    /// A Credit CDR, booked at the negated amount of the CDR that it credits.
    Credit {
        cdr: Shared<Cdr>,
        amount: BookedAmount,
    },
    Settled(Settlement),
    Closed {
        period: u64,
    },
}

impl TryCopy for Event {
    fn copy(&self, alloc: Global) -> Result<Event, AllocError> {
        match self {
            Event::Tariff(tariff) => Ok(Event::Tariff(tariff.copy(alloc)?)),
            Event::Token(token) => Ok(Event::Token(*token)),
            Event::Authorised(hold) => Ok(Event::Authorised(*hold)),
            Event::Released(release) => Ok(Event::Released(*release)),
            Event::Cdr { cdr, cost } => Ok(Event::Cdr {
                cdr: cdr.copy(alloc)?,
                cost: *cost,
            }),
            Event::Credit { cdr, amount } => Ok(Event::Credit {
                cdr: cdr.copy(alloc)?,
                amount: *amount,
            }),
            Event::Settled(settlement) => Ok(Event::Settled(*settlement)),
            Event::Closed { period } => Ok(Event::Closed { period: *period }),
        }
    }
}
