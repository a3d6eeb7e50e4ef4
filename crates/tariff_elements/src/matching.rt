ghost use Rattle.std.specs.Prelude.{◌≡◌};
ghost use Rattle.tariff_elements.specs.Clock.{has_clock_bound};
ghost use Rattle.tariff_elements.specs.Matching.{matches};

use super::amounts::is_in_bounds;
use super::days::{is_between_dates, is_on_listed_day};
use super::moments::Moment;
use super::windows::is_between_times;
use ocpi_types::Restrictions;

/// Whether the restrictions hold at the moment (OCPI 2.2.1, TariffRestrictions object). Restrictions
/// for a reservation never hold; bounds on current and power are not looked at, since a tariff with
/// them is [`unsupported`](crate::unsupported).
pub fn matches(restrictions: &Restrictions, moment: &Moment) -> bool
    ensures { result ≡ matches restrictions.now moment.now }
{
    let date = moment.local.date();
    restrictions.reservation.is_none()
        && is_in_bounds(restrictions.min_kwh, restrictions.max_kwh, moment.energy)
        && is_in_bounds(
            restrictions.min_duration,
            restrictions.max_duration,
            moment.seconds as u128,
        )
        && is_between_dates(restrictions.start_date, restrictions.end_date, date)
        && is_on_listed_day(restrictions.day_of_week.as_slice(), date)
        && is_between_times(
            restrictions.start_time,
            restrictions.end_time,
            moment.local.time(),
        )
}

/// Whether the restrictions bound the date, the day of the week or the time of day.
pub(crate) fn has_clock_bound(restrictions: &Restrictions) -> bool
    ensures { result ≡ has_clock_bound restrictions.now }
{
    restrictions.start_time.is_some()
        || restrictions.end_time.is_some()
        || restrictions.start_date.is_some()
        || restrictions.end_date.is_some()
        || !restrictions.day_of_week.as_slice().is_empty()
}
