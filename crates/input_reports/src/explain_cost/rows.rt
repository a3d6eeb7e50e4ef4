//! All rows of a session.

ghost use Rattle.std.specs.Prelude.{◌≡◌, ◌+◌, ◌++◌, ◌≤◌, length, if◌then◌else◌, IfOk, OnOk};
ghost use Rattle.std.specs.Option.{option_copied, option_to_list};
ghost use Rattle.cdr_rating.specs.Pricing.{active_after};
ghost use Rattle.cdr_rating.specs.Volumes.{volume_in};
ghost use Rattle.input_reports.specs.explain_cost.Costs.{cost_rows, flat_rows, last_above_zero, row_at, step_rows, stepped_rows, time_rows, volume_rows, whole_volume};

use super::row::{Row, Source, row_of, step_of};
use cdr_rating::{active_component, up_to_step, volume_in};
use ocpi_types::{Cdr, ChargingPeriod, ComponentKind, Zone};
use std::alloc::{AllocError, Global};

// The row of a period, given the energy of the earlier ones, if a component of the kind is active.
fn period_row(
    cdr: &Cdr,
    zone: &Zone,
    kind: ComponentKind,
    number: usize,
    energy: u128,
    period: &ChargingPeriod,
) -> Option<Row>
    ensures { option_to_list result ≡ row_at kind (Source.Period number) (active_after cdr.now zone.now kind energy period.now) (volume_in kind period.now) }
{
    let component = active_component(cdr, zone, kind, energy, period)?;
    Some(row_of(
        kind,
        Source::Period { number },
        component.price,
        component.step_size,
        volume_in(kind, period),
    ))
}

fn push_if_any(rows: &mut Vec<Row>, row: Option<Row>) -> Result<(), AllocError>
    ensures rows { OnOk result (rows.new.items ≡ rows.old.items ++ option_to_list row) }
    ensures few { OnOk result (length rows.new.items ≤ length rows.old.items + 1) }
{
    if let Some(row) = row {
        rows.push(row)?;
    }
    Ok(())
}

// A row for each period where a component of the kind is active.
fn volume_rows(
    alloc: Global,
    cdr: &Cdr,
    zone: &Zone,
    kind: ComponentKind,
) -> Result<Vec<Row>, AllocError>
    ensures rows { IfOk result (λ rows. rows.items ≡ volume_rows cdr.now zone.now kind) }
    ensures few { IfOk result (λ rows. length rows.items ≤ 1000) }
{
    let periods = cdr.charging_periods.as_slice();
    let mut rows = Vec::new(alloc);
    let mut energy = 0;
    for (number, period) in periods.iter().enumerate() {
        let row = period_row(cdr, zone, kind, number, energy, period);
        push_if_any(&mut rows, row)?;
        energy += volume_in(ComponentKind::Energy, period);
    }
    Ok(rows)
}

fn whole_volume(rows: &[Row]) -> u128
    requires { length rows.now ≤ 1000 }
    ensures { result ≡ whole_volume rows.now }
{
    let mut volume = 0;
    for row in rows {
        volume += u128::from(row.volume.get());
    }
    volume
}

fn last_above_zero(rows: &[Row]) -> Option<Row>
    ensures { result ≡ last_above_zero rows.now }
{
    rows.iter().rev().copied().find(|row| 0 < row.volume.get())
}

// What rounds the whole volume of the rows up to its step.
fn step_row(kind: ComponentKind, rows: &[Row]) -> Option<Row>
    requires { length rows.now ≤ 1000 }
    ensures { option_to_list result ≡ step_rows kind rows.now }
{
    let last = last_above_zero(rows)?;
    let step = step_of(kind, last.step_size);
    let volume = up_to_step(step, whole_volume(rows));
    Some(row_of(kind, Source::Step, last.price, last.step_size, volume))
}

// The rows of a kind, and what rounds their whole volume up.
fn with_step(kind: ComponentKind, mut rows: Vec<Row>) -> Result<Vec<Row>, AllocError>
    requires { length rows.items ≤ 1000 }
    ensures rows { IfOk result (λ stepped. stepped.items ≡ rows.items ++ step_rows kind rows.items) }
    ensures few { IfOk result (λ stepped. length stepped.items ≤ 1001) }
{
    let step = step_row(kind, rows.as_slice());
    push_if_any(&mut rows, step)?;
    Ok(rows)
}

fn time_rows(
    alloc: Global,
    cdr: &Cdr,
    zone: &Zone,
    has_parking: bool,
) -> Result<Vec<Row>, AllocError>
    ensures rows { IfOk result (λ rows. rows.items ≡ (if has_parking then volume_rows cdr.now zone.now ComponentKind.Time else stepped_rows cdr.now zone.now ComponentKind.Time)) }
    ensures few { IfOk result (λ rows. length rows.items ≤ 1001) }
{
    let rows = volume_rows(alloc, cdr, zone, ComponentKind::Time)?;
    if has_parking {
        Ok(rows)
    } else {
        with_step(ComponentKind::Time, rows)
    }
}

// The rows of parking and of charging time.
fn both_time_rows(alloc: Global, cdr: &Cdr, zone: &Zone) -> Result<Vec<Row>, AllocError>
    ensures rows { IfOk result (λ rows. rows.items ≡ stepped_rows cdr.now zone.now ComponentKind.ParkingTime ++ time_rows cdr.now zone.now) }
    ensures few { IfOk result (λ rows. length rows.items ≤ 2002) }
{
    let parking = volume_rows(alloc, cdr, zone, ComponentKind::ParkingTime)?;
    let has_parking = 0 < whole_volume(parking.as_slice());
    let mut rows = with_step(ComponentKind::ParkingTime, parking)?;
    let time = time_rows(alloc, cdr, zone, has_parking)?;
    rows.extend_from_slice(time.as_slice())?;
    Ok(rows)
}

// The flat component that is active where the session begins.
fn flat_row(cdr: &Cdr, zone: &Zone) -> Option<Row>
    ensures { option_to_list result ≡ flat_rows cdr.now zone.now cdr.now.charging_periods }
{
    let first = cdr.charging_periods.as_slice().first()?;
    let component = active_component(cdr, zone, ComponentKind::Flat, 0, first)?;
    Some(row_of(
        ComponentKind::Flat,
        Source::Once,
        component.price,
        component.step_size,
        1,
    ))
}

/// The rows of energy, of parking, of charging time, and of what is due once.
pub fn cost_rows(alloc: Global, cdr: &Cdr, zone: &Zone) -> Result<Vec<Row>, AllocError>
    ensures rows { IfOk result (λ rows. rows.items ≡ cost_rows cdr.now zone.now) }
    ensures few { IfOk result (λ rows. length rows.items ≤ 3004) }
{
    let energy = volume_rows(alloc, cdr, zone, ComponentKind::Energy)?;
    let mut rows = with_step(ComponentKind::Energy, energy)?;
    let time = both_time_rows(alloc, cdr, zone)?;
    rows.extend_from_slice(time.as_slice())?;
    push_if_any(&mut rows, flat_row(cdr, zone))?;
    Ok(rows)
}
