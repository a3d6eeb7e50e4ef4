//! What is asked of a CDR that is no Credit CDR.

ghost use Rattle.std.specs.Prelude.{◌≡◌, ◌^◌, ◌*ℤ◌, ◌≤ℤ◌, neg_ℤ, pos};
ghost use Rattle.cdr_checks.specs.CdrAdmission.{before_preceding, in_other_currency, of_no_tariff, of_other_energy, with_bound, with_reservation};
ghost use Rattle.cdr_checks.specs.CdrConditions.{counts_reservation, has_energy_of_periods, id_not_given, is_within_tolerance, other_currency, out_of_order, reservation, reserved, reserved_in, tariff_not_given, unsupported_tariff};
ghost use Rattle.cdr_checks.specs.Conditions.{is_supported};
ghost use Rattle.cdr_checks.specs.FirstRefusal.{ensure, unless};

use super::cause::{Cause, Reason};
use super::place::Place;
use cdr_rating::{energy_of, lacks_its_tariff};
use exact_money::{Amount, Millionths};
use jiff::Timestamp;
use ocpi_json::ci_text::CiText;
use ocpi_json::name::Name;
use ocpi_types::config::Tolerance;
use ocpi_types::{Cdr, ChargingPeriod, Currency, Dimension, DimensionKind, KeptKind, Tariff};
use tariff_elements::unsupported;

// ---- its tariffs

fn in_other_currency(cdr: &Cdr, index: usize, found: Currency) -> Cause
    ensures { result ≡ in_other_currency cdr.now (index, found) }
{
    Cause {
        place: Place::in_item(Name::Tariffs, index, Name::Currency),
        reason: Reason::OtherCurrency {
            found,
            cdr: cdr.currency,
        },
    }
}

/// Each of its tariffs has its currency.
pub(crate) fn ensure_one_currency(cdr: &Cdr) -> Result<(), Cause>
    ensures { result ≡ unless (other_currency cdr.now) (in_other_currency cdr.now) }
{
    let tariffs = cdr.tariffs.as_slice();
    let mut index = 0;
    for tariff in tariffs {
        if !tariff.currency.is(&cdr.currency) {
            return Err(in_other_currency(cdr, index, tariff.currency));
        }
        index += 1;
    }
    Ok(())
}

fn id_not_given(cdr: &Cdr, period: &ChargingPeriod) -> Option<CiText<36>>
    ensures { result ≡ id_not_given cdr.now period.now }
{
    if lacks_its_tariff(cdr, period) {
        period.tariff_id.get()
    } else {
        None
    }
}

fn of_no_tariff(index: usize, id: CiText<36>) -> Cause
    ensures { result ≡ of_no_tariff (index, id) }
{
    Cause {
        place: Place::in_item(Name::ChargingPeriods, index, Name::TariffId),
        reason: Reason::TariffNotGiven(id),
    }
}

/// It has each tariff that a charging period names.
pub(crate) fn ensure_tariffs_given(cdr: &Cdr) -> Result<(), Cause>
    ensures { result ≡ unless (tariff_not_given cdr.now) of_no_tariff }
{
    let periods = cdr.charging_periods.as_slice();
    let mut index = 0;
    for period in periods {
        if let Some(id) = id_not_given(cdr, period) {
            return Err(of_no_tariff(index, id));
        }
        index += 1;
    }
    Ok(())
}

/// Returns whether no element of a tariff has a bound on current or power. `unsupported` names the first that has one.
pub fn supported(tariff: &Tariff) -> bool
    ensures { result ≡ is_supported tariff.now }
{
    unsupported(tariff).is_none()
}

fn with_bound(tariff: usize, element: usize, bound: Name) -> Cause
    ensures { result ≡ with_bound (tariff, (element, bound)) }
{
    Cause {
        place: Place::restriction_of_cdr(tariff, element, bound),
        reason: Reason::NotSupported,
    }
}

/// Asks that none of a CDR's tariffs has a bound on current or power.
///
/// # Errors
///
/// [`Reason::NotSupported`], at the first such bound.
pub fn ensure_supported(cdr: &Cdr) -> Result<(), Cause>
    ensures { result ≡ unless (unsupported_tariff cdr.now) with_bound }
{
    let tariffs = cdr.tariffs.as_slice();
    let mut index = 0;
    for tariff in tariffs {
        if let Some((element, bound)) = unsupported(tariff) {
            return Err(with_bound(index, element, bound));
        }
        index += 1;
    }
    Ok(())
}

// ---- its moments

fn before_preceding(place: Place, found: Timestamp, preceding: Timestamp) -> Cause
    ensures { result ≡ before_preceding (place, (found, preceding)) }
{
    Cause {
        place,
        reason: Reason::BeforePreceding { found, preceding },
    }
}

/// The session starts no later than its first charging period, each period no later than the next, and the last period no later than
/// the session ends.
pub(crate) fn ensure_dates_in_order(cdr: &Cdr) -> Result<(), Cause>
    ensures { result ≡ unless (out_of_order cdr.now) before_preceding }
{
    let periods = cdr.charging_periods.as_slice();
    let mut latest = cdr.start_date_time;
    let mut index = 0;
    for period in periods {
        let start = period.start_date_time;
        if start < latest {
            let place = Place::in_item(Name::ChargingPeriods, index, Name::StartDateTime);
            return Err(before_preceding(place, start, latest));
        }
        latest = start;
        index += 1;
    }
    if cdr.end_date_time < latest {
        let place = Place::inside(Name::Cdr, Name::EndDateTime);
        return Err(before_preceding(place, cdr.end_date_time, latest));
    }
    Ok(())
}

// ---- its volumes

fn counts_reservation(kind: &KeptKind) -> bool
    ensures { result ≡ counts_reservation kind.now }
{
    match kind.get() {
        DimensionKind::ReservationTime => true,
        DimensionKind::Energy
        | DimensionKind::ParkingTime
        | DimensionKind::Time
        | DimensionKind::Other(_) => false,
    }
}

fn reserved(dimension: &Dimension) -> Option<Millionths>
    ensures { result ≡ reserved dimension.now }
{
    if counts_reservation(&dimension.kind) && 0 < dimension.volume.get() {
        Some(dimension.volume)
    } else {
        None
    }
}

fn reserved_in(period: &ChargingPeriod) -> Option<(usize, Millionths)>
    ensures { result ≡ reserved_in period.now }
{
    let dimensions = period.dimensions.as_slice();
    let mut index = 0;
    for dimension in dimensions {
        if let Some(volume) = reserved(dimension) {
            return Some((index, volume));
        }
        index += 1;
    }
    None
}

fn with_reservation(period: usize, dimension: usize, volume: Millionths) -> Cause
    ensures { result ≡ with_reservation (period, (dimension, volume)) }
{
    Cause {
        place: Place::volume_at(period, dimension),
        reason: Reason::Reserved(volume),
    }
}

/// Asks that a CDR has no volume of reservation time above 0.
///
/// # Errors
///
/// [`Reason::Reserved`] with the first such volume, in millionths.
pub fn ensure_no_reservation(cdr: &Cdr) -> Result<(), Cause>
    ensures { result ≡ unless (reservation cdr.now) with_reservation }
{
    let periods = cdr.charging_periods.as_slice();
    let mut index = 0;
    for period in periods {
        if let Some((dimension, volume)) = reserved_in(period) {
            return Err(with_reservation(index, dimension, volume));
        }
        index += 1;
    }
    Ok(())
}

fn has_energy_of_periods(cdr: &Cdr) -> bool
    ensures { result ≡ has_energy_of_periods cdr.now }
{
    let total = i128::from(cdr.total_energy.get());
    let sum = energy_of(cdr) as i128;
    (total - sum).unsigned_abs() <= 10_000
}

/// At most 0.01 kWh lie between its total energy and the sum of its volumes of energy.
pub(crate) fn ensure_energy_of_periods(cdr: &Cdr) -> Result<(), Cause>
    ensures { result ≡ ensure (has_energy_of_periods cdr.now) (of_other_energy cdr.now) }
{
    if has_energy_of_periods(cdr) {
        return Ok(());
    }
    Err(Cause {
        place: Place::inside(Name::Cdr, Name::TotalEnergy),
        reason: Reason::OtherEnergy {
            found: cdr.total_energy,
            sum: energy_of(cdr),
        },
    })
}

// ---- its cost

// An amount in millionths.
fn millionths_of(amount: Amount) -> i128
    ensures value { result ≡ pos 100 *ℤ amount }
    ensures low { neg_ℤ (pos (10 ^ 21)) ≤ℤ result }
    ensures high { result ≤ℤ pos (10 ^ 21) }
{
    100 * i128::from(amount.ten_thousandths())
}

/// The declared cost is no farther from the amount than the tolerance.
pub fn is_within_tolerance(tolerance: Tolerance, declared: Millionths, amount: Amount) -> bool
    ensures { result ≡ is_within_tolerance tolerance declared amount }
{
    let distance = i128::from(declared.get()) - millionths_of(amount);
    distance.unsigned_abs() <= 100 * u128::from(tolerance.get())
}
