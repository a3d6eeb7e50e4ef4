ghost use Rattle.std.specs.Prelude.{◌≡◌, ◌*◌, ◌≤◌, ◌^◌, false, is_none, IfSome};
ghost use Rattle.std.specs.Option.{option_copied};
ghost use Rattle.tariff_elements.specs.Active.{active};
ghost use Rattle.cdr_rating.specs.Pricing.{active_after, lacks_its_tariff, lacks_tariff, moment_after};
ghost use Rattle.cdr_rating.specs.Inner.Clock.{is_asked, is_asked_in, IsCountedAnyTime, IsSameBut};
ghost use Rattle.cdr_rating.specs.Inner.Counted.{AreOfPeriod};
ghost use Rattle.cdr_rating.specs.Inner.Room.{HasRoom, IsOneMore};
ghost use Rattle.cdr_rating.specs.Inner.Session.{AreOfSession, IsCharged};
ghost use Rattle.cdr_rating.specs.Inner.Tally.{added, most_of};

use super::measure::Measure;
use super::pricing::{seconds_between, tariff_of};
use super::tally::Tally;
use super::volumes::Volumes;
use ocpi_types::{Cdr, ChargingPeriod, ComponentKind, PriceComponent, Tariff, Zone};
use tariff_elements::{Moment, active, asks_clock, moment, moment_without_clock};

/// The sums over a session's energy, parking and charging time.
#[derive(Clone, Copy)]
pub(crate) struct Tallies {
    pub(crate) energy: Tally,
    pub(crate) parking: Tally,
    pub(crate) time: Tally,
}

/// The moment of a period, given the energy before it. What a clock shows is found only where it is asked.
fn moment_of(
    cdr: &Cdr,
    zone: &Zone,
    asks_clock: bool,
    energy: u128,
    period: &ChargingPeriod,
) -> Moment
    ensures { IsSameBut asks_clock result (moment_after cdr.now zone.now energy period.now) }
{
    let start = period.start_date_time;
    let seconds = seconds_between(cdr.start_date_time, start);
    if asks_clock {
        moment(zone, start, energy, seconds)
    } else {
        moment_without_clock(energy, seconds)
    }
}

/// The component of the kind that is active in a period, given the energy of the earlier periods in millionths of a kWh. There is
/// none where the period names no tariff of the CDR.
pub fn active_component<'a>(
    cdr: &'a Cdr,
    zone: &Zone,
    kind: ComponentKind,
    energy: u128,
    period: &ChargingPeriod,
) -> Option<&'a PriceComponent>
    ensures { option_copied result ≡ active_after cdr.now zone.now kind energy period.now }
{
    match tariff_of(cdr, period) {
        Some(tariff) => {
            let asks_clock = asks_clock(tariff, kind);
            let moment = moment_of(cdr, zone, asks_clock, energy, period);
            active(tariff, kind, &moment)
        }
        None => None,
    }
}

// The clock decides what the volume of the kind costs.
fn is_asked(tariff: &Tariff, kind: ComponentKind, volume: u64) -> bool
    ensures value { result ≡ is_asked tariff.now kind volume }
    ensures any_time { result ≡ false → IsCountedAnyTime tariff.now kind volume }
{
    volume != 0 && asks_clock(tariff, kind)
}

// The clock decides what one of the volumes costs.
fn is_asked_in(tariff: &Tariff, volumes: &Volumes) -> bool
    ensures value { result ≡ is_asked_in tariff.now volumes.now }
    ensures energy { result ≡ false → IsCountedAnyTime tariff.now ComponentKind.Energy volumes.now.energy }
    ensures parking { result ≡ false → IsCountedAnyTime tariff.now ComponentKind.ParkingTime volumes.now.parking }
    ensures time { result ≡ false → IsCountedAnyTime tariff.now ComponentKind.Time volumes.now.time }
{
    is_asked(tariff, ComponentKind::Energy, volumes.energy)
        || is_asked(tariff, ComponentKind::ParkingTime, volumes.parking)
        || is_asked(tariff, ComponentKind::Time, volumes.time)
}

// Where there is no volume, no component is looked for.
#[tactic(auto, using(crate::proofs::Counted::added_nothing))]
fn with_active(
    tally: Tally,
    tariff: &Tariff,
    kind: ComponentKind,
    moment: &Moment,
    volume: u64,
) -> Tally
    requires within_period { volume ≤ most_of tally.measure }
    requires cost { tally.cost ≤ 10 ^ 36 }
    requires volume { tally.volume ≤ 10 ^ 20 }
    ensures value { result ≡ added tally (active tariff.now kind moment.now) volume }
    ensures within { IsOneMore tally result }
{
    if volume == 0 {
        return tally;
    }
    tally.add(active(tariff, kind, moment), u128::from(volume))
}

fn add_active(tallies: Tallies, tariff: &Tariff, moment: &Moment, volumes: &Volumes) -> Tallies
    requires energy { HasRoom Measure.Energy tallies.energy }
    requires parking { HasRoom Measure.Time tallies.parking }
    requires time { HasRoom Measure.Time tallies.time }
    requires energy_volume { volumes.now.energy ≤ 10 ^ 17 }
    requires parking_volume { volumes.now.parking ≤ 4 * 10 ^ 14 }
    requires time_volume { volumes.now.time ≤ 4 * 10 ^ 14 }
    ensures energy { result.energy ≡ added tallies.energy (active tariff.now ComponentKind.Energy moment.now) volumes.now.energy }
    ensures parking { result.parking ≡ added tallies.parking (active tariff.now ComponentKind.ParkingTime moment.now) volumes.now.parking }
    ensures time { result.time ≡ added tallies.time (active tariff.now ComponentKind.Time moment.now) volumes.now.time }
    ensures energy_within { IsOneMore tallies.energy result.energy }
    ensures parking_within { IsOneMore tallies.parking result.parking }
    ensures time_within { IsOneMore tallies.time result.time }
{
    Tallies {
        energy: with_active(
            tallies.energy,
            tariff,
            ComponentKind::Energy,
            moment,
            volumes.energy,
        ),
        parking: with_active(
            tallies.parking,
            tariff,
            ComponentKind::ParkingTime,
            moment,
            volumes.parking,
        ),
        time: with_active(
            tallies.time,
            tariff,
            ComponentKind::Time,
            moment,
            volumes.time,
        ),
    }
}

// `None` where the period names a tariff that the CDR does not have.
fn charge(
    tallies: Tallies,
    cdr: &Cdr,
    zone: &Zone,
    energy: u128,
    period: &ChargingPeriod,
    volumes: &Volumes,
) -> Option<Tallies>
    requires energy { HasRoom Measure.Energy tallies.energy }
    requires parking { HasRoom Measure.Time tallies.parking }
    requires time { HasRoom Measure.Time tallies.time }
    requires volumes { AreOfPeriod period.now volumes.now }
    ensures lacks { is_none result ≡ lacks_its_tariff cdr.now period.now }
    ensures charged { IfSome result (λ after. IsCharged cdr.now zone.now energy period.now tallies after) }
{
    match tariff_of(cdr, period) {
        Some(tariff) => {
            let asks_clock = is_asked_in(tariff, volumes);
            let moment = moment_of(cdr, zone, asks_clock, energy, period);
            Some(add_active(tallies, tariff, &moment, volumes))
        }
        None => {
            if period.tariff_id.is_some() {
                None
            } else {
                Some(tallies)
            }
        }
    }
}

/// The tallies of the whole session; `None` where a period names a tariff that the CDR does not have.
pub(crate) fn tallies_of(cdr: &Cdr, zone: &Zone) -> Option<Tallies>
    ensures lacks { is_none result ≡ lacks_tariff cdr.now }
    ensures whole { IfSome result (λ tallies. AreOfSession cdr.now zone.now tallies) }
{
    let periods = cdr.charging_periods.as_slice();
    let mut tallies = Tallies {
        energy: Tally::new(Measure::Energy),
        parking: Tally::new(Measure::Time),
        time: Tally::new(Measure::Time),
    };
    let mut energy = 0;
    for period in periods {
        let volumes = Volumes::of(period);
        let Some(charged) = charge(tallies, cdr, zone, energy, period, &volumes) else {
            return None;
        };
        tallies = charged;
        energy += u128::from(volumes.energy);
    }
    Some(tallies)
}
