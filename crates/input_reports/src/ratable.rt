//! Of which CDRs an amount says what the session costs.

ghost use Rattle.std.specs.Prelude.{◌≡◌, false};
ghost use Rattle.ocpi_types.specs.Cdr.{is_credit};
ghost use Rattle.input_reports.specs.Ratable.{ratable, rated_price, all_rated};

use cdr_checks::{Cause, ensure_no_reservation, ensure_supported};
use cdr_rating::{lacks_tariff, rate};
use exact_money::Amount;
use ocpi_types::{Cdr, Refusal, Zone};

fn ensure_all_rated(cdr: &Cdr) -> Result<(), Cause>
    ensures { result ≡ all_rated cdr.now }
{
    match ensure_supported(cdr) {
        Ok(()) => ensure_no_reservation(cdr),
        Err(cause) => Err(cause),
    }
}

/// Refuses a CDR whose amount would not be what its session costs.
///
/// # Errors
///
/// `UnsupportedRestriction` if one of its tariffs has a bound on current or power; else `Reservation` if it has a volume of
/// reservation time above 0. A Credit CDR passes, and so does a CDR of which a charging period lacks its tariff: neither has an
/// amount.
pub fn ensure_ratable(cdr: &Cdr) -> Result<(), Refusal>
    ensures { result ≡ ratable cdr.now }
{
    if cdr.is_credit() || lacks_tariff(cdr) {
        return Ok(());
    }
    match ensure_all_rated(cdr) {
        Ok(()) => Ok(()),
        Err(cause) => Err(cause.refusal()),
    }
}

/// What the session of a CDR costs by its tariffs, in the zone of its operator.
///
/// # Errors
///
/// The first of these by its number: `TariffNotGiven`, `UnsupportedRestriction`, `Reservation`, `AmountTooLarge`.
pub fn rated_price(cdr: &Cdr, zone: &Zone) -> Result<Amount, Refusal>
    requires { is_credit cdr.now ≡ false }
    ensures { result ≡ rated_price cdr.now zone.now }
{
    ensure_ratable(cdr)?;
    rate(cdr, zone)
}
