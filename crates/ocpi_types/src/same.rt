//! Parties, tokens, tariffs, CDRs and refusals compared exactly: parties and ids as they are written.

use super::bounded::AtMost;
use super::cdr::Cdr;
use super::cdr_token::{AuthMethod, CdrToken};
use super::charging_period::ChargingPeriod;
use super::component::{ComponentKind, PriceComponent};
use super::currency::Currency;
use super::day_of_week::DayOfWeek;
use super::dimension::{Dimension, DimensionKind, KindText};
use super::element::Element;
use super::party::Party;
use super::refusal::{Refusal, Store};
use super::restrictions::{ElectricBounds, Restrictions};
use super::tariff::Tariff;
use super::token::{Token, TokenKind};
use super::up_to::UpTo;
use ocpi_json::same::{Same, are_same};

impl<const MOST: u64> Same for AtMost<MOST> {
    fn is_same(&self, other: &AtMost<MOST>) -> bool {
        self.get() == other.get()
    }
}

impl<T: Same + Drop, const MOST: usize> Same for UpTo<T, MOST> {
    fn is_same(&self, other: &UpTo<T, MOST>) -> bool {
        are_same(self.as_slice(), other.as_slice())
    }
}

impl Same for Currency {
    fn is_same(&self, other: &Currency) -> bool {
        self.as_str() == other.as_str()
    }
}

impl Same for Party {
    fn is_same(&self, other: &Party) -> bool {
        self.country_code.is_same(&other.country_code) && self.party_id.is_same(&other.party_id)
    }
}

impl Same for TokenKind {
    fn is_same(&self, other: &TokenKind) -> bool {
        *self == *other
    }
}

impl Same for Token {
    fn is_same(&self, other: &Token) -> bool {
        self.provider.is_same(&other.provider)
            && self.uid.is_same(&other.uid)
            && self.kind.is_same(&other.kind)
            && self.contract_id.is_same(&other.contract_id)
            && self.valid.is_same(&other.valid)
            && self.last_updated.is_same(&other.last_updated)
    }
}

impl Same for DayOfWeek {
    fn is_same(&self, other: &DayOfWeek) -> bool {
        *self == *other
    }
}

impl Same for ComponentKind {
    fn is_same(&self, other: &ComponentKind) -> bool {
        *self == *other
    }
}

impl Same for PriceComponent {
    fn is_same(&self, other: &PriceComponent) -> bool {
        self.kind.is_same(&other.kind)
            && self.price.is_same(&other.price)
            && self.step_size.is_same(&other.step_size)
    }
}

impl Same for ElectricBounds {
    fn is_same(&self, other: &ElectricBounds) -> bool {
        self.min_current.is_same(&other.min_current)
            && self.max_current.is_same(&other.max_current)
            && self.min_power.is_same(&other.min_power)
            && self.max_power.is_same(&other.max_power)
    }
}

impl Same for Element {
    fn is_same(&self, other: &Element) -> bool {
        self.price_components.is_same(&other.price_components)
            && self.restrictions.is_same(&other.restrictions)
    }
}

impl Same for Restrictions {
    fn is_same(&self, other: &Restrictions) -> bool {
        self.start_time.is_same(&other.start_time)
            && self.end_time.is_same(&other.end_time)
            && self.start_date.is_same(&other.start_date)
            && self.end_date.is_same(&other.end_date)
            && self.min_kwh.is_same(&other.min_kwh)
            && self.max_kwh.is_same(&other.max_kwh)
            && self.min_duration.is_same(&other.min_duration)
            && self.max_duration.is_same(&other.max_duration)
            && self.day_of_week.is_same(&other.day_of_week)
            && self.reservation.is_same(&other.reservation)
            && self.electric.is_same(&other.electric)
    }
}

impl Same for Tariff {
    fn is_same(&self, other: &Tariff) -> bool {
        self.operator.is_same(&other.operator)
            && self.id.is_same(&other.id)
            && self.currency.is_same(&other.currency)
            && self.min_price.is_same(&other.min_price)
            && self.max_price.is_same(&other.max_price)
            && self.elements.is_same(&other.elements)
            && self.last_updated.is_same(&other.last_updated)
    }
}

impl Same for AuthMethod {
    fn is_same(&self, other: &AuthMethod) -> bool {
        *self == *other
    }
}

impl Same for CdrToken {
    fn is_same(&self, other: &CdrToken) -> bool {
        self.provider.is_same(&other.provider)
            && self.uid.is_same(&other.uid)
            && self.kind.is_same(&other.kind)
            && self.contract_id.is_same(&other.contract_id)
    }
}

impl Same for KindText<'_> {
    fn is_same(&self, other: &KindText<'_>) -> bool {
        self.as_str() == other.as_str()
    }
}

impl Same for DimensionKind<'_> {
    fn is_same(&self, other: &DimensionKind<'_>) -> bool {
        match (self, other) {
            (DimensionKind::Energy, DimensionKind::Energy) => true,
            (DimensionKind::ParkingTime, DimensionKind::ParkingTime) => true,
            (DimensionKind::ReservationTime, DimensionKind::ReservationTime) => true,
            (DimensionKind::Time, DimensionKind::Time) => true,
            (DimensionKind::Other(ours), DimensionKind::Other(theirs)) => ours.is_same(theirs),
            _ => false,
        }
    }
}

impl Same for Dimension {
    fn is_same(&self, other: &Dimension) -> bool {
        self.kind.is_same(&other.kind) && self.volume.is_same(&other.volume)
    }
}

impl Same for ChargingPeriod {
    fn is_same(&self, other: &ChargingPeriod) -> bool {
        self.start_date_time.is_same(&other.start_date_time)
            && self.dimensions.is_same(&other.dimensions)
            && self.tariff_id.is_same(&other.tariff_id)
    }
}

impl Same for Cdr {
    fn is_same(&self, other: &Cdr) -> bool {
        self.operator.is_same(&other.operator)
            && self.id.is_same(&other.id)
            && self.start_date_time.is_same(&other.start_date_time)
            && self.end_date_time.is_same(&other.end_date_time)
            && self.cdr_token.is_same(&other.cdr_token)
            && self.auth_method.is_same(&other.auth_method)
            && self
                .authorization_reference
                .is_same(&other.authorization_reference)
            && self.currency.is_same(&other.currency)
            && self.tariffs.is_same(&other.tariffs)
            && self.charging_periods.is_same(&other.charging_periods)
            && self.total_cost.is_same(&other.total_cost)
            && self.total_energy.is_same(&other.total_energy)
            && self.total_time.is_same(&other.total_time)
            && self.credit.is_same(&other.credit)
            && self.last_updated.is_same(&other.last_updated)
    }
}

impl Same for Store {
    fn is_same(&self, other: &Store) -> bool {
        *self == *other
    }
}

impl Same for Refusal {
    fn is_same(&self, other: &Refusal) -> bool {
        match (self, other) {
            (Refusal::Field { name: ours }, Refusal::Field { name: theirs }) => ours.is_same(
                theirs,
            ),
            (Refusal::CostMismatch { rated: ours }, Refusal::CostMismatch { rated: theirs }) => {
                ours.is_same(theirs)
            }
            (Refusal::NotCurrent { current: ours }, Refusal::NotCurrent { current: theirs }) => {
                ours.is_same(theirs)
            }
            (Refusal::Full { what: ours }, Refusal::Full { what: theirs }) => ours.is_same(theirs),
            (
                Refusal::OverLimit {
                    exposure,
                    limit,
                    pair,
                },
                Refusal::OverLimit {
                    exposure: their_exposure,
                    limit: their_limit,
                    pair: their_pair,
                },
            ) => {
                exposure.is_same(their_exposure)
                    && limit.is_same(their_limit)
                    && pair.is_same(their_pair)
            }
            (
                Refusal::TooLate { original, current },
                Refusal::TooLate {
                    original: their_original,
                    current: their_current,
                },
            ) => original.is_same(their_original) && current.is_same(their_current),
            (ours, theirs) => ours.number() == theirs.number(),
        }
    }
}
