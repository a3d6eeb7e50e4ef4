//! The configuration of a house.

use super::bounded::AtMost;
use super::currency::Currency;
use super::different::Distinct;
use super::party::Party;
use super::zone::Zone;
use ocpi_json::ci_text::CiText;
use ocpi_json::sequence::Sequence;

mod alike;
mod copies;
mod lookups;
mod parts;
mod reading;

pub use reading::ConfigFault;

/// How far a declared cost may differ, in ten-thousandths of the currency unit.
pub type Tolerance = AtMost<1_000_000_000_000>;

/// A credit limit in ten-thousandths of the currency unit.
pub type CreditLimit = AtMost<1_000_000_000_000_000>;

/// What an authorisation holds, in ten-thousandths of the currency unit.
pub type HoldAmount = AtMost<1_000_000_000_000>;

/// What a session costs, in ten-thousandths of the currency unit.
pub type Cost = AtMost<1_000_000_000_000>;

/// An operator and its time zone.
#[derive(Drop)]
pub struct Operator {
    pub party: Party,
    pub zone: Zone,
}

/// A provider's credit limit and hold in one currency.
#[derive(Clone, Copy)]
pub struct ProviderLimit {
    pub currency: Currency,
    pub limit: CreditLimit,
    pub hold: HoldAmount,
}

/// A provider and its limits, at most one a currency.
#[derive(Drop)]
pub struct Provider {
    pub party: Party,
    pub limits: Sequence<ProviderLimit>,
}

/// A platform and the parties that it acts for.
#[derive(Drop)]
pub struct Platform {
    pub name: CiText<36>,
    pub parties: Sequence<Party>,
    pub hub: bool,
}

/// How many of each the house keeps.
#[derive(Clone, Copy, PartialEq, Eq)]
pub struct Limits {
    /// CDRs of an operator.
    pub cdrs: AtMost<100_000>,
    /// Tariff versions of an operator.
    pub tariffs: AtMost<10_000>,
    /// Entries of a provider's account.
    pub entries: AtMost<10_000_000>,
    /// Entries of the order.
    pub order: AtMost<10_000_000>,
    /// Closed periods.
    pub periods: AtMost<10_000>,
}

/// A provider's credit limit with one operator in one currency.
#[derive(Clone, Copy)]
pub struct PairLimit {
    pub operator: Party,
    pub provider: Party,
    pub currency: Currency,
    pub limit: CreditLimit,
}

/// The configuration of a house.
pub struct Config {
    pub tolerance: Tolerance,
    pub currencies: Distinct<Currency, 16>,
    pub operators: Distinct<Operator, 64>,
    pub providers: Distinct<Provider, 64>,
    pub platforms: Distinct<Platform, 128>,
    pub limits: Limits,
    pub pair_limits: Distinct<PairLimit, 4096>,
    /// How many periods after its original's period a Credit CDR may come; none is no bound.
    pub credit_window: Option<AtMost<10_000>>,
}

// Not derived: what is derived is proved anew in each crate that drops one.
impl Drop for Config {
    fn drop(self) {
        let Config {
            tolerance: _,
            currencies: _,
            operators: _,
            providers: _,
            platforms: _,
            limits: _,
            pair_limits: _,
            credit_window: _,
        } = self;
    }
}
