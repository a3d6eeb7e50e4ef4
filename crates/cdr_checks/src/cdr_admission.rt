ghost use Rattle.std.specs.Prelude.{◌≡◌, ◌≤◌, ◌^◌, pos, false, Ok, Err, IfOk, MatchResult, unsigned_abs};
ghost use Rattle.ocpi_types.specs.Cdr.{is_credit};
ghost use Rattle.cdr_rating.specs.Price.{price};
ghost use Rattle.cdr_checks.specs.CdrAdmission.{checked_of, far_from, priced, rated_cost, session_cost, too_large};
ghost use Rattle.cdr_checks.specs.Checked.{IsCostOf};
ghost use Rattle.cdr_checks.specs.HandedBack.{handed_back};

use super::asking::{known_currency, known_provider, may_act, no_operator};
use super::cause::{Cause, Reason};
use super::cdr_conditions::{
    ensure_dates_in_order, ensure_energy_of_periods, ensure_no_reservation, ensure_one_currency,
    ensure_supported, ensure_tariffs_given, is_within_tolerance,
};
use super::checked::Checked;
use super::place::Place;
use cdr_rating::rate;
use exact_money::Amount;
use ocpi_json::ci_text::CiText;
use ocpi_json::name::Name;
use ocpi_types::{AtMost, Cdr, Config, Cost, Refusal, Shared, Zone};

/// What the admission of a CDR finds beside it.
#[derive(Drop)]
struct Findings {
    zone: Zone,
    cost: Option<Cost>,
}

fn cost_of(amount: Amount) -> Cost
    requires { unsigned_abs amount ≤ 10 ^ 12 }
    ensures { result ≡ unsigned_abs amount }
{
    AtMost::new(amount.ten_thousandths().unsigned_abs()).unwrap()
}

fn too_large() -> Cause
    ensures { result ≡ too_large }
{
    let most = Amount::from_ten_thousandths(1_000_000_000_000);
    Cause {
        place: Place::at(Name::Cdr),
        reason: Reason::AmountTooLarge { most },
    }
}

fn far_from(cdr: &Cdr, rated: Amount) -> Cause
    ensures { result ≡ far_from cdr.now rated }
{
    let declared = cdr.total_cost;
    Cause {
        place: Place::declared_cost(),
        reason: Reason::FarFromRated { declared, rated },
    }
}

fn price_of(cdr: &Cdr, zone: &Zone) -> Result<Amount, Refusal>
    requires { is_credit cdr.now ≡ false }
    ensures value { result ≡ price cdr.now zone.now }
    ensures not_negative { IfOk result (λ amount. amount ≡ pos (unsigned_abs amount)) }
    ensures within_limit { IfOk result (λ amount. unsigned_abs amount ≤ 10 ^ 12) }
{
    rate(cdr, zone)
}

fn priced(cdr: &Cdr, zone: &Zone) -> Result<Amount, Cause>
    requires { is_credit cdr.now ≡ false }
    ensures value { result ≡ priced (price cdr.now zone.now) }
    ensures price { IfOk result (λ amount. price cdr.now zone.now ≡ Ok amount) }
    ensures not_negative { IfOk result (λ amount. amount ≡ pos (unsigned_abs amount)) }
    ensures within_limit { IfOk result (λ amount. unsigned_abs amount ≤ 10 ^ 12) }
{
    match price_of(cdr, zone) {
        Ok(amount) => Ok(amount),
        Err(_) => Err(too_large()),
    }
}

#[tactic(auto, unfolding(crate::specs::CdrAdmission::rated_cost))]
fn rated_cost(config: &Config, zone: &Zone, cdr: &Cdr) -> Result<Cost, Cause>
    requires { is_credit cdr.now ≡ false }
    ensures value { result ≡ rated_cost config.now zone.now cdr.now }
    ensures price { IfOk result (λ cost. price cdr.now zone.now ≡ Ok (pos cost)) }
{
    ensure_one_currency(cdr)?;
    ensure_dates_in_order(cdr)?;
    ensure_tariffs_given(cdr)?;
    ensure_supported(cdr)?;
    ensure_no_reservation(cdr)?;
    ensure_energy_of_periods(cdr)?;
    let rated = priced(cdr, zone)?;
    if !is_within_tolerance(config.tolerance, cdr.total_cost, rated) {
        return Err(far_from(cdr, rated));
    }
    Ok(cost_of(rated))
}

fn session_cost(config: &Config, zone: &Zone, cdr: &Cdr) -> Result<Option<Cost>, Cause>
    ensures value { result ≡ session_cost config.now zone.now cdr.now }
    ensures of_session { IfOk result (λ cost. IsCostOf cost cdr.now zone.now) }
{
    if cdr.is_credit() {
        return Ok(None);
    }
    match rated_cost(config, zone, cdr) {
        Ok(cost) => Ok(Some(cost)),
        Err(cause) => Err(cause),
    }
}

#[tactic(auto, unfolding(crate::specs::CdrAdmission::checked_of))]
fn findings_of(config: &Config, platform: &CiText<36>, cdr: &Cdr) -> Result<Findings, Cause>
    ensures checked { MatchResult result
        (λ found. checked_of config.now platform.now cdr.now ≡ Ok (record { cdr = cdr.now; zone = found.zone; cost = found.cost }))
        (λ cause. checked_of config.now platform.now cdr.now ≡ Err cause) }
    ensures of_session { IfOk result (λ found. IsCostOf found.cost cdr.now found.zone) }
{
    let Some(operator) = config.operator(&cdr.operator) else {
        return Err(no_operator(Place::at(Name::Cdr), &cdr.operator));
    };
    let token = Place::inside(Name::Cdr, Name::CdrToken);
    known_provider(config, token, &cdr.cdr_token.provider)?;
    may_act(config, platform, &cdr.operator)?;
    let place = Place::inside(Name::Cdr, Name::Currency);
    known_currency(config, place, &cdr.currency)?;
    let cost = session_cost(config, &operator.zone, cdr)?;
    Ok(Findings {
        zone: operator.zone.clone().unwrap(),
        cost,
    })
}

/// Checks a CDR by its parties, platform and currency and, unless it is a Credit CDR, by its tariffs, dates, energy and cost.
///
/// # Errors
///
/// The CDR as it was, and the cause of the first test that fails.
pub fn check(
    config: &Config,
    platform: &CiText<36>,
    cdr: Shared<Cdr>,
) -> Result<Checked, (Shared<Cdr>, Cause)>
    ensures { result ≡ handed_back cdr (checked_of config.now platform.now cdr) }
{
    match findings_of(config, platform, &cdr) {
        Ok(found) => Ok(Checked::new(cdr, found.zone, found.cost)),
        Err(cause) => Err((cdr, cause)),
    }
}
