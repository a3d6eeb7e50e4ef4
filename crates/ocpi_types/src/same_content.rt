//! When two tariffs have the same content.

ghost use Rattle.std.specs.Prelude.{◌≡◌, ◌==◌};
ghost use Rattle.std.specs.Cmp.Lexicographic.{pointwise};
ghost use Rattle.std.specs.Option.{option_eq};
ghost use Rattle.ocpi_types.specs.SameTariff.{same_tariff};

use super::bounded::AtMost;
use super::component::PriceComponent;
use super::day_of_week::DayOfWeek;
use super::element::Element;
use super::restrictions::{ElectricBounds, Restrictions};
use super::tariff::Tariff;
use jiff::Timestamp;
use jiff::civil::{Date, Time};
use ocpi_json::text::Text;

mod cdrs;
mod differences;

pub use cdrs::same_cdr;
pub use differences::{difference_of_cdrs, difference_of_tariffs};

/// Parts of a tariff or of a CDR that may be the same.
trait Part {
    ghost use Rattle.std.specs.Prelude.{◌≡◌, Bool};

    ghost same: { Self → Self → Bool };

    fn is_same(&self, other: &Self) -> bool
        ensures { result ≡ same self.now other.now };
}

fn are_same<T: Part>(a: &[T], b: &[T]) -> bool
    ensures { result ≡ pointwise T.same a.now b.now }
{
    let mut rest = b;
    for item in a {
        let Some((other, after)) = rest.split_first() else {
            return false;
        };
        if !item.is_same(other) {
            return false;
        }
        rest = after;
    }
    rest.is_empty()
}

fn are_same_if_any<T: Part>(a: &Option<T>, b: &Option<T>) -> bool
    ensures { result ≡ option_eq T.same a.now b.now }
{
    match (a, b) {
        (Some(a), Some(b)) => a.is_same(b),
        (None, None) => true,
        _ => false,
    }
}

impl Part for Time {
    ghost use Rattle.ocpi_types.specs.Inner.SameTariff.{same_time};

    ghost same = { same_time };

    fn is_same(&self, other: &Time) -> bool {
        let (ours, theirs) = (self.to_plain(), other.to_plain());
        ours.hour == theirs.hour
            && ours.minute == theirs.minute
            && ours.second == theirs.second
            && ours.subsec_nanosecond == theirs.subsec_nanosecond
    }
}

impl Part for Date {
    ghost use Rattle.ocpi_types.specs.Inner.SameTariff.{same_date};

    ghost same = { same_date };

    fn is_same(&self, other: &Date) -> bool {
        let (ours, theirs) = (self.to_plain(), other.to_plain());
        ours.year == theirs.year && ours.month == theirs.month && ours.day == theirs.day
    }
}

impl Part for Timestamp {
    ghost use Rattle.ocpi_types.specs.Inner.SameTariff.{same_instant};

    ghost same = { same_instant };

    fn is_same(&self, other: &Timestamp) -> bool {
        self.as_nanosecond() == other.as_nanosecond()
    }
}

impl<const MOST: u64> Part for AtMost<MOST> {
    ghost use Rattle.std.specs.Prelude.{◌==◌};

    ghost same = { ◌==◌ };

    fn is_same(&self, other: &AtMost<MOST>) -> bool {
        self.get() == other.get()
    }
}

impl Part for Text {
    ghost use Rattle.std.specs.Str.{bytes_eq};

    ghost same = { bytes_eq };

    fn is_same(&self, other: &Text) -> bool {
        self.as_str() == other.as_str()
    }
}

impl Part for DayOfWeek {
    ghost use Rattle.ocpi_types.specs.DayOfWeek.{same_day};

    ghost same = { same_day };

    fn is_same(&self, other: &DayOfWeek) -> bool {
        *self == *other
    }
}

impl Part for PriceComponent {
    ghost use Rattle.ocpi_types.specs.Inner.SameTariff.{same_component};

    ghost same = { same_component };

    fn is_same(&self, other: &PriceComponent) -> bool {
        self.kind.is(other.kind)
            && self.price.is_same(&other.price)
            && self.step_size.is_same(&other.step_size)
    }
}

impl Part for ElectricBounds {
    ghost use Rattle.ocpi_types.specs.Inner.SameTariff.{same_bounds};

    ghost same = { same_bounds };

    fn is_same(&self, other: &ElectricBounds) -> bool {
        self.min_current == other.min_current
            && self.max_current == other.max_current
            && self.min_power == other.min_power
            && self.max_power == other.max_power
    }
}

impl Part for Restrictions {
    ghost use Rattle.ocpi_types.specs.Inner.SameTariff.{same_restrictions};

    ghost same = { same_restrictions };

    #[tactic(auto, unfolding(crate::specs::Inner::SameTariff::same_restrictions))]
    fn is_same(&self, other: &Restrictions) -> bool {
        are_same_if_any(&self.start_time, &other.start_time)
            && are_same_if_any(&self.end_time, &other.end_time)
            && are_same_if_any(&self.start_date, &other.start_date)
            && are_same_if_any(&self.end_date, &other.end_date)
            && are_same_if_any(&self.min_kwh, &other.min_kwh)
            && are_same_if_any(&self.max_kwh, &other.max_kwh)
            && are_same_if_any(&self.min_duration, &other.min_duration)
            && are_same_if_any(&self.max_duration, &other.max_duration)
            && are_same(self.day_of_week.as_slice(), other.day_of_week.as_slice())
            && are_same_if_any(&self.reservation, &other.reservation)
            && self.electric.is_same(&other.electric)
    }
}

impl Part for Element {
    ghost use Rattle.ocpi_types.specs.Inner.SameTariff.{same_element};

    ghost same = { same_element };

    #[tactic(auto, unfolding(crate::specs::Inner::SameTariff::same_element))]
    fn is_same(&self, other: &Element) -> bool {
        are_same(
            self.price_components.as_slice(),
            other.price_components.as_slice(),
        ) && are_same_if_any(&self.restrictions, &other.restrictions)
    }
}

/// Whether two tariffs have the same content: all members agree, parties and ids with letters folded.
#[tactic(auto, unfolding(crate::specs::Inner::SameTariff::same_tariff))]
pub fn same_tariff(a: &Tariff, b: &Tariff) -> bool
    ensures { result ≡ same_tariff a.now b.now }
{
    a.operator.is(&b.operator)
        && a.id == b.id
        && a.currency.is(&b.currency)
        && are_same_if_any(&a.min_price, &b.min_price)
        && are_same_if_any(&a.max_price, &b.max_price)
        && are_same(a.elements.as_slice(), b.elements.as_slice())
        && a.last_updated.is_same(&b.last_updated)
}
