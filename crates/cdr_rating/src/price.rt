ghost use Rattle.std.specs.Prelude.{◌≡◌, ◌+◌, ◌*◌, ◌^◌, ◌≤◌, nat_lt, if◌then◌else◌, false, is_none, IfSome};
ghost use Rattle.std.specs.Option.{option_copied};
ghost use Rattle.ocpi_types.specs.Cdr.{is_credit};
ghost use Rattle.cdr_rating.specs.Price.{bounded, first_tariff, flat_cost, lowered, price, raised, rounded, sum_of, within_limit};
ghost use Rattle.cdr_rating.specs.Pricing.{lacks_tariff};
ghost use Rattle.cdr_rating.specs.Inner.Tally.{step_cost_of};

use super::charging::{active_component, tallies_of};
use super::measure::flat;
use super::pricing::tariff_of;
use super::tally::Tally;
use exact_money::{Amount, Exact};
use ocpi_types::members::Quantity;
use ocpi_types::{Cdr, ComponentKind, Refusal, Tariff, Zone};

fn energy_cost(energy: &Tally) -> Exact
    requires { energy.now.cost ≤ 10 ^ 36 }
    ensures value { result ≡ energy.now.cost + step_cost_of energy.now }
    ensures bound { result ≤ 2 * 10 ^ 36 }
{
    energy.cost.add(energy.step_cost())
}

fn time_step_cost(parking: &Tally, time: &Tally) -> Exact
    ensures value { result ≡ (if nat_lt 0 parking.now.volume then step_cost_of parking.now else step_cost_of time.now) }
    ensures bound { result ≤ 10 ^ 33 }
{
    if 0 < parking.volume {
        parking.step_cost()
    } else {
        time.step_cost()
    }
}

fn time_cost(parking: &Tally, time: &Tally) -> Exact
    requires parking { parking.now.cost ≤ 10 ^ 36 }
    requires time { time.now.cost ≤ 10 ^ 36 }
    ensures value { result ≡ parking.now.cost + time.now.cost + (if nat_lt 0 parking.now.volume then step_cost_of parking.now else step_cost_of time.now) }
    ensures bound { result ≤ 3 * 10 ^ 36 }
{
    parking
        .cost
        .add(time.cost)
        .add(time_step_cost(parking, time))
}

/// The flat component that is active where the session begins.
fn flat_cost(cdr: &Cdr, zone: &Zone) -> Exact
    ensures value { result ≡ flat_cost cdr.now zone.now cdr.now.charging_periods }
    ensures bound { result ≤ 10 ^ 22 }
{
    let Some(first) = cdr.charging_periods.as_slice().first() else {
        return Exact::zero();
    };
    match active_component(cdr, zone, ComponentKind::Flat, 0, first) {
        Some(component) => flat(component.price),
        None => Exact::zero(),
    }
}

// `None` where a period names a tariff that the CDR does not have.
fn sum_of(cdr: &Cdr, zone: &Zone) -> Option<Exact>
    ensures lacks { is_none result ≡ lacks_tariff cdr.now }
    ensures value { IfSome result (λ units. units ≡ sum_of cdr.now zone.now) }
{
    match tallies_of(cdr, zone) {
        Some(tallies) => {
            let energy = energy_cost(&tallies.energy);
            let time = time_cost(&tallies.parking, &tallies.time);
            Some(energy.add(time).add(flat_cost(cdr, zone)))
        }
        None => None,
    }
}

/// The tariff of the first period, whose minimum and maximum are those of the session.
pub fn first_tariff(cdr: &Cdr) -> Option<&Tariff>
    ensures { option_copied result ≡ first_tariff cdr.now cdr.now.charging_periods }
{
    match cdr.charging_periods.as_slice().first() {
        Some(first) => tariff_of(cdr, first),
        None => None,
    }
}

fn raised(least: Option<Quantity>, units: Exact) -> Exact
    ensures { result ≡ raised least units }
{
    match least {
        Some(least) => units.max(flat(least)),
        None => units,
    }
}

fn lowered(most: Option<Quantity>, units: Exact) -> Exact
    ensures { result ≡ lowered most units }
{
    match most {
        Some(most) => units.min(flat(most)),
        None => units,
    }
}

fn bounded(tariff: Option<&Tariff>, units: Exact) -> Exact
    ensures { result ≡ bounded (option_copied tariff.entry) units }
{
    match tariff {
        Some(tariff) => lowered(tariff.max_price, raised(tariff.min_price, units)),
        None => units,
    }
}

fn rounded(units: Exact) -> Result<Amount, Refusal>
    ensures { result ≡ within_limit (rounded units) }
{
    match units.round_half_up() {
        Some(amount) => Ok(amount),
        None => Err(Refusal::AmountTooLarge),
    }
}

/// What a session costs by its tariffs, in its operator's zone (OCPI 2.2.1, CDR object, `total_cost`). A Credit CDR is
/// not rated: its volumes may be below 0.
///
/// `TariffNotGiven` is the answer where a charging period names a tariff that the CDR does not have, and
/// `AmountTooLarge` above 10^12 ten-thousandths.
#[tactic(auto, unfolding(crate::specs::Price::price))]
pub fn rate(cdr: &Cdr, zone: &Zone) -> Result<Amount, Refusal>
    requires { is_credit cdr.now ≡ false }
    ensures { result ≡ price cdr.now zone.now }
{
    match sum_of(cdr, zone) {
        Some(units) => rounded(bounded(first_tariff(cdr), units)),
        None => Err(Refusal::TariffNotGiven),
    }
}
