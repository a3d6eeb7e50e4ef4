//! The rows of what a session costs.

ghost use Rattle.std.specs.Prelude.{◌≡◌, ◌*◌, ◌^◌, ◌≤◌};
ghost use Rattle.input_reports.specs.explain_cost.Costs.{factor_of, row_of, units_of};
ghost use Rattle.input_reports.specs.explain_cost.Inner.Bounds.{most_of};

use super::cost::Cost;
use ocpi_types::members::Quantity;
use ocpi_types::{AtMost, ComponentKind, StepSize};

/// What a row is for.
#[derive(Clone, Copy)]
pub enum Source {
    /// A charging period, by its number from 0.
    Period { number: usize },
    /// The rounding of the whole volume up to its step.
    Step,
    /// The session.
    Once,
}

/// Millionths of a kWh, seconds, or 1 of what is due once.
pub type Volume = AtMost<100_000_000_000_000_000>;

/// A volume at its price.
#[derive(Clone, Copy)]
pub struct Row {
    pub kind: ComponentKind,
    pub source: Source,
    /// Per kWh, per hour or once, in millionths of the currency unit.
    pub price: Quantity,
    pub step_size: StepSize,
    pub volume: Volume,
    pub cost: Cost,
}

fn factor_of(kind: ComponentKind) -> u128
    ensures { result ≡ factor_of kind }
{
    match kind {
        ComponentKind::Energy => 9,
        ComponentKind::Flat => 9_000_000,
        ComponentKind::ParkingTime | ComponentKind::Time => 2_500,
    }
}

fn cost_of(kind: ComponentKind, price: Quantity, volume: u128) -> Cost
    requires { volume ≤ most_of kind }
    ensures { result ≡ factor_of kind * price * volume }
{
    Cost::new(factor_of(kind) * u128::from(price.get()) * volume)
}

fn units_of(kind: ComponentKind) -> u128
    ensures { result ≡ units_of kind }
{
    match kind {
        ComponentKind::Energy => 1_000,
        ComponentKind::Flat => 0,
        ComponentKind::ParkingTime | ComponentKind::Time => 1,
    }
}

/// A step in the unit of the volume.
pub fn step_of(kind: ComponentKind, step_size: StepSize) -> u128
    ensures value { result ≡ units_of kind * step_size }
    ensures bound { result ≤ most_of kind }
{
    units_of(kind) * u128::from(step_size.get())
}

/// The row of a volume at its price.
pub fn row_of(
    kind: ComponentKind,
    source: Source,
    price: Quantity,
    step_size: StepSize,
    volume: u128,
) -> Row
    requires { volume ≤ most_of kind }
    ensures { result ≡ row_of kind source price step_size volume }
{
    Row {
        kind,
        source,
        price,
        step_size,
        volume: Volume::new(volume as u64).unwrap(),
        cost: cost_of(kind, price, volume),
    }
}
