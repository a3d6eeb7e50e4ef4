ghost use Rattle.std.specs.Prelude.{◌≡◌, find};
ghost use Rattle.std.specs.Option.{option_copied};
ghost use Rattle.ocpi_json.specs.Folded.{same_folded};
ghost use Rattle.cdr_rating.specs.Pricing.{lacks_its_tariff, lacks_tariff, seconds_between, tariff_of};

use jiff::Timestamp;
use ocpi_json::ci_text::CiText;
use ocpi_types::{Cdr, ChargingPeriod, Shared, Tariff};

/// Whole seconds from one instant to another, 0 where it is earlier.
pub(crate) fn seconds_between(start: Timestamp, instant: Timestamp) -> u64
    ensures { result ≡ seconds_between start.nanosecond instant.nanosecond }
{
    let start = start.as_nanosecond();
    let instant = instant.as_nanosecond();
    if instant < start {
        0
    } else {
        ((instant - start).unsigned_abs() / 1_000_000_000) as u64
    }
}

fn tariff_among<'a>(tariffs: &'a [Shared<Tariff>], id: &CiText<36>) -> Option<&'a Shared<Tariff>>
    ensures { option_copied result ≡ find (λ tariff. same_folded tariff.id id.now) tariffs.now }
{
    tariffs.iter().find(|tariff| tariff.id == *id)
}

/// The tariff that a period names.
pub(crate) fn tariff_of<'a>(cdr: &'a Cdr, period: &ChargingPeriod) -> Option<&'a Tariff>
    ensures { option_copied result ≡ tariff_of cdr.now period.now }
{
    match period.tariff_id.get() {
        Some(id) => Some(tariff_among(cdr.tariffs.as_slice(), &id)?),
        None => None,
    }
}

/// The period names a tariff that the CDR does not have.
pub fn lacks_its_tariff(cdr: &Cdr, period: &ChargingPeriod) -> bool
    ensures { result ≡ lacks_its_tariff cdr.now period.now }
{
    period.tariff_id.is_some() && tariff_of(cdr, period).is_none()
}

/// A charging period names a tariff that the CDR does not have.
pub fn lacks_tariff(cdr: &Cdr) -> bool
    ensures { result ≡ lacks_tariff cdr.now }
{
    cdr.charging_periods
        .as_slice()
        .iter()
        .any(|period| lacks_its_tariff(cdr, period))
}
