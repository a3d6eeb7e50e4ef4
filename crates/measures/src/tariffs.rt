//! Judging a tariff: local time, restrictions and the active component.

use super::asked::Asked;
use jiff::Timestamp;
use ocpi_json::Room;
use ocpi_json::objects::FromNodeIn;
use ocpi_types::{ComponentKind, Element, Tariff, Zone};
use std::alloc::Global;
use std::io;
use tariff_elements::{Moment, active, matches, moment};

// How many moments the rounds without local time go over, an hour apart.
const MOMENTS: u64 = 168;

// Rounds of a part where no word gives their number.
const FEW: u64 = 1000;

fn tariff_text() -> &'static str {
    "{\"country_code\":\"NL\",\"party_id\":\"CPA\",\"id\":\"G1\",\"currency\":\"EUR\",\"elements\":[\
     {\"price_components\":[{\"type\":\"ENERGY\",\"price\":0.1,\"step_size\":1}],\
     \"restrictions\":{\"start_time\":\"22:00\",\"end_time\":\"06:00\",\"day_of_week\":[\"SATURDAY\",\"SUNDAY\"]}},\
     {\"price_components\":[{\"type\":\"ENERGY\",\"price\":0.2,\"step_size\":1}],\
     \"restrictions\":{\"max_kwh\":20,\"start_date\":\"2024-01-01\",\"end_date\":\"2024-07-05\"}},\
     {\"price_components\":[{\"type\":\"ENERGY\",\"price\":0.3,\"step_size\":1}],\
     \"restrictions\":{\"min_duration\":0,\"day_of_week\":[\"MONDAY\",\"TUESDAY\",\"WEDNESDAY\"]}}],\
     \"last_updated\":\"2024-06-01T00:00:00Z\"}"
}

fn read_tariff(alloc: Global) -> Option<Tariff> {
    let mut room = Room::new(alloc);
    let line = room.read(tariff_text().as_bytes()).ok()?;
    Tariff::from_node_in(alloc, &line.value()).ok()
}

// The moment so many hours after 2024-07-01T00:00:00Z.
fn moment_after(zone: &Zone, hours: u64) -> Option<Moment> {
    let hours = (hours % 1_000_000) as i64;
    let instant = Timestamp::from_second(1_719_792_000 + hours * 3600).ok()?;
    Some(moment(zone, instant, 10_000_000, 600))
}

fn moments(alloc: Global, zone: &Zone) -> Option<Vec<Moment>> {
    let mut moments = Vec::new(alloc);
    for hours in 0..MOMENTS {
        moments.push(moment_after(zone, hours)?).ok()?;
    }
    Some(moments)
}

// The element's restrictions hold, or it has none.
fn applies(element: &Element, moment: &Moment) -> bool {
    match &element.restrictions {
        Some(restrictions) => matches(restrictions, moment),
        None => true,
    }
}

// In how many rounds the first element applies, each at a moment made anew.
fn count_at_new_moments(zone: &Zone, tariff: &Tariff, rounds: u64) -> u64 {
    let Some(element) = tariff.elements.as_slice().first() else {
        return 0;
    };
    let mut count = 0u64;
    for round in 0..rounds {
        if let Some(moment) = moment_after(zone, round)
            && applies(element, &moment)
        {
            count = count.wrapping_add(1);
        }
    }
    count
}

// In how many rounds the first element applies.
fn count_applying(tariff: &Tariff, moments: &[Moment], rounds: u64) -> u64 {
    let Some(element) = tariff.elements.as_slice().first() else {
        return 0;
    };
    let mut count = 0u64;
    for round in 0..rounds {
        if let Some(moment) = moments.get((round % MOMENTS) as usize)
            && applies(element, moment)
        {
            count = count.wrapping_add(1);
        }
    }
    count
}

// In how many rounds an energy component is active.
fn count_active(tariff: &Tariff, moments: &[Moment], rounds: u64) -> u64 {
    let mut count = 0u64;
    for round in 0..rounds {
        if let Some(moment) = moments.get((round % MOMENTS) as usize)
            && active(tariff, ComponentKind::Energy, moment).is_some()
        {
            count = count.wrapping_add(1);
        }
    }
    count
}

fn count_parts(
    rt: &HostRuntime,
    zone: &Zone,
    asked: &Asked<'_>,
    tariff: &Tariff,
    moments: &[Moment],
) -> io::Result<()> {
    let rounds = asked.rounds_or(FEW);
    if asked.names_part("moments") {
        let count = count_at_new_moments(zone, tariff, rounds);
        println!(rt; "tariffs moments: {count}")?;
    }
    if asked.names_part("restrictions") {
        let count = count_applying(tariff, moments, rounds);
        println!(rt; "tariffs restrictions: {count}")?;
    }
    if asked.names_part("components") {
        let count = count_active(tariff, moments, rounds);
        println!(rt; "tariffs components: {count}")?;
    }
    Ok(())
}

/// Judges a tariff of three elements.
pub fn work(rt: &HostRuntime, zone: &Zone, asked: &Asked<'_>) -> io::Result<()> {
    let Some(tariff) = read_tariff(rt.alloc()) else {
        return println!(rt; "tariffs: no tariff");
    };
    let Some(moments) = moments(rt.alloc(), zone) else {
        return println!(rt; "tariffs: no moments");
    };
    count_parts(rt, zone, asked, &tariff, moments.as_slice())
}
