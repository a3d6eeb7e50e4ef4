ghost use Rattle.std.specs.Prelude.{◌≡◌};
ghost use Rattle.plain_house.specs.Entries.{charge_of, credit_of};

use super::booked_amount::BookedAmount;
use super::event::Hold;
use cdr_checks::{Release, Settlement};
use ocpi_json::ci_text::CiText;
use ocpi_types::{Cdr, Cost, Currency, Party, Shared, Tariff, Token};

/// What an operator's book keeps of an event. CDRs and Credit CDRs keep the period in which they were booked.
#[derive(Drop)]
pub enum BookEntry {
    Tariff(Shared<Tariff>),
    Cdr {
        cdr: Shared<Cdr>,
        cost: Cost,
        period: u64,
    },
    Credit {
        cdr: Shared<Cdr>,
        amount: BookedAmount,
        period: u64,
    },
}

/// What a CDR adds to its provider's debts.
#[derive(Clone, Copy)]
pub struct Charge {
    pub operator: Party,
    pub provider: Party,
    pub currency: Currency,
    pub cdr: CiText<39>,
    pub cost: Cost,
    pub period: u64,
    /// The hold that it uses up, where it names one.
    pub hold: Option<CiText<36>>,
}

/// What a Credit CDR takes from its provider's debts: the charge of the CDR that it credits.
#[derive(Clone, Copy)]
pub struct Credit {
    pub operator: Party,
    pub provider: Party,
    pub currency: Currency,
    pub original: Option<CiText<39>>,
    /// The amount at which the Credit CDR is booked.
    pub amount: BookedAmount,
    pub period: u64,
}

/// What a provider's account keeps of an event. Charges and credits keep the period in which they were booked.
#[derive(Clone, Copy)]
pub enum AccountEntry {
    Token(Token),
    Hold(Hold),
    Release(Release),
    Charge(Charge),
    Credit(Credit),
    Settlement(Settlement),
}

/// What a CDR of this cost, booked in this period, adds to its provider's debts.
pub fn charge_of(cdr: &Cdr, cost: Cost, period: u64) -> Charge
    ensures { result ≡ charge_of cdr.now cost period }
{
    Charge {
        operator: cdr.operator,
        provider: cdr.cdr_token.provider,
        currency: cdr.currency,
        cdr: cdr.id,
        cost,
        period,
        hold: cdr.authorization_reference,
    }
}

/// What a Credit CDR of this amount, booked in this period, takes from its provider's debts.
pub fn credit_of(cdr: &Cdr, amount: BookedAmount, period: u64) -> Credit
    ensures { result ≡ credit_of cdr.now amount period }
{
    Credit {
        operator: cdr.operator,
        provider: cdr.cdr_token.provider,
        currency: cdr.currency,
        original: cdr.credit,
        amount,
        period,
    }
}
