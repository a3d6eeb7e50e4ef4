ghost use Rattle.std.specs.Prelude.{◌≡◌, ◌*◌, ◌^◌, ◌≤◌, ℤ, unsigned_abs};
ghost use Rattle.cdr_rating.specs.Inner.Counted.{millionths_of};
ghost use Rattle.cdr_rating.specs.Volumes.{charges_for, charging_kind, energy_of, millionths_in, most_volume, seconds_of_hours, volume_in};

use ocpi_types::{Cdr, ChargingPeriod, ComponentKind, Dimension, DimensionKind, KeptKind};

// The kind of component that charges for what a dimension counts.
fn charging_kind(counted: &KeptKind) -> Option<ComponentKind>
    ensures { result ≡ charging_kind counted.now }
{
    match counted.get() {
        DimensionKind::Energy => Some(ComponentKind::Energy),
        DimensionKind::ParkingTime => Some(ComponentKind::ParkingTime),
        DimensionKind::Time => Some(ComponentKind::Time),
        DimensionKind::ReservationTime | DimensionKind::Other(_) => None,
    }
}

fn charges_for(kind: ComponentKind, counted: &KeptKind) -> bool
    ensures { result ≡ charges_for kind counted.now }
{
    match charging_kind(counted) {
        Some(charging) => charging.is(kind),
        None => false,
    }
}

fn size_of(dimension: &Dimension) -> u64
    ensures value { result ≡ unsigned_abs dimension.now.volume }
    ensures bound { result ≤ 10 ^ 15 }
{
    dimension.volume.get().unsigned_abs()
}

// What the dimension counts for components of the kind.
fn millionths_of(kind: ComponentKind, dimension: &Dimension) -> u64
    ensures value { result ≡ millionths_of kind dimension.now }
    ensures bound { result ≤ 10 ^ 15 }
{
    if charges_for(kind, &dimension.kind) {
        size_of(dimension)
    } else {
        0
    }
}

fn millionths_in(kind: ComponentKind, period: &ChargingPeriod) -> u64
    ensures value { result ≡ millionths_in kind period.now }
    ensures bound { result ≤ 10 ^ 17 }
{
    let dimensions = period.dimensions.as_slice();
    let mut total = 0;
    for dimension in dimensions {
        if charges_for(kind, &dimension.kind) {
            total += size_of(dimension);
        }
    }
    total
}

// The millionths of a kWh or of an hour in a period, by the kind of component that charges for them.
#[derive(Clone, Copy)]
struct MillionthsByKind {
    energy: u64,
    parking: u64,
    time: u64,
}

fn millionths_by_kind(period: &ChargingPeriod) -> MillionthsByKind
    ensures energy { result.energy ≡ millionths_in ComponentKind.Energy period.now }
    ensures parking { result.parking ≡ millionths_in ComponentKind.ParkingTime period.now }
    ensures time { result.time ≡ millionths_in ComponentKind.Time period.now }
    ensures energy_bound { result.energy ≤ 10 ^ 17 }
    ensures parking_bound { result.parking ≤ 10 ^ 17 }
    ensures time_bound { result.time ≤ 10 ^ 17 }
{
    let dimensions = period.dimensions.as_slice();
    let mut energy = 0;
    let mut parking = 0;
    let mut time = 0;
    for dimension in dimensions {
        energy += millionths_of(ComponentKind::Energy, dimension);
        parking += millionths_of(ComponentKind::ParkingTime, dimension);
        time += millionths_of(ComponentKind::Time, dimension);
    }
    MillionthsByKind {
        energy,
        parking,
        time,
    }
}

// A millionth of an hour is 9 / 2,500 s, and half a second 1,250 / 2,500 s.
#[tactic(auto, using(crate::proofs::Rounding::seconds_reduced))]
fn seconds_of_hours(millionths: u64) -> u64
    requires { millionths ≤ 10 ^ 17 }
    ensures value { result ≡ seconds_of_hours millionths }
    ensures bound { result ≤ 4 * 10 ^ 14 }
{
    (millionths * 9 + 1_250) / 2_500
}

/// What is charged for in a period.
#[derive(Clone, Copy)]
pub(crate) struct Volumes {
    /// In millionths of a kWh.
    pub(crate) energy: u64,
    /// In seconds.
    pub(crate) parking: u64,
    /// In seconds.
    pub(crate) time: u64,
}

impl Volumes {
    ghost use Rattle.cdr_rating.specs.Inner.Counted.{AreOfPeriod};

    /// What the dimensions of a period count.
    pub(crate) fn of(period: &ChargingPeriod) -> Volumes
        ensures { AreOfPeriod period.now result }
    {
        let millionths = millionths_by_kind(period);
        Volumes {
            energy: millionths.energy,
            parking: seconds_of_hours(millionths.parking),
            time: seconds_of_hours(millionths.time),
        }
    }
}

fn energy_in(period: &ChargingPeriod) -> u64
    ensures value { result ≡ volume_in ComponentKind.Energy period.now }
    ensures bound { result ≤ 10 ^ 17 }
{
    millionths_in(ComponentKind::Energy, period)
}

fn parking_in(period: &ChargingPeriod) -> u64
    ensures value { result ≡ volume_in ComponentKind.ParkingTime period.now }
    ensures bound { result ≤ 4 * 10 ^ 14 }
{
    seconds_of_hours(millionths_in(ComponentKind::ParkingTime, period))
}

fn time_in(period: &ChargingPeriod) -> u64
    ensures value { result ≡ volume_in ComponentKind.Time period.now }
    ensures bound { result ≤ 4 * 10 ^ 14 }
{
    seconds_of_hours(millionths_in(ComponentKind::Time, period))
}

/// The volume that a component of the kind charges for in a period: energy in millionths of a kWh, time and parking in seconds,
/// and none where the component is due once.
pub fn volume_in(kind: ComponentKind, period: &ChargingPeriod) -> u128
    ensures value { result ≡ volume_in kind period.now }
    ensures bound { result ≤ most_volume kind }
{
    match kind {
        ComponentKind::Energy => u128::from(energy_in(period)),
        ComponentKind::ParkingTime => u128::from(parking_in(period)),
        ComponentKind::Time => u128::from(time_in(period)),
        ComponentKind::Flat => 0,
    }
}

/// The energy of a session, in millionths of a kWh.
pub fn energy_of(cdr: &Cdr) -> u128
    ensures value { result ≡ energy_of cdr.now.charging_periods }
    ensures bound { result ≤ 10 ^ 20 }
{
    let periods = cdr.charging_periods.as_slice();
    let mut total = 0;
    for period in periods {
        total += u128::from(energy_in(period));
    }
    total
}
