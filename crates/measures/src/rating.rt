//! Rating a CDR, by its number of charging periods.

use super::asked::Asked;
use cdr_rating::rate;
use ocpi_json::Room;
use ocpi_json::objects::FromNodeIn;
use ocpi_types::{Cdr, Shared, Zone};
use std::alloc::{AllocError, Global};
use std::io;

// Rounds of a part where no word gives their number.
const FEW: u64 = 10;

// A CDR as far as its charging periods; its tariff has three elements with restrictions.
fn beginning() -> &'static str {
    r#"{"country_code":"NL","party_id":"CPA","id":"S1","start_date_time":"2024-07-01T10:00:00Z","end_date_time":"2024-07-01T11:00:00Z","cdr_token":{"country_code":"NL","party_id":"MSA","uid":"U1","type":"RFID","contract_id":"NL-MSA-C1"},"auth_method":"WHITELIST","currency":"EUR","tariffs":[{"country_code":"NL","party_id":"CPA","id":"G1","currency":"EUR","elements":[{"price_components":[{"type":"ENERGY","price":0.1,"step_size":1}],"restrictions":{"start_time":"22:00","end_time":"06:00"}},{"price_components":[{"type":"ENERGY","price":0.2,"step_size":1}],"restrictions":{"max_kwh":2,"end_date":"2025-01-01"}},{"price_components":[{"type":"ENERGY","price":0.3,"step_size":1},{"type":"PARKING_TIME","price":1.2,"step_size":300}],"restrictions":{"min_kwh":0,"day_of_week":["MONDAY","TUESDAY"]}}],"last_updated":"2024-06-01T00:00:00Z"}],"charging_periods":["#
}

fn period() -> &'static str {
    r#"{"start_date_time":"2024-07-01T10:00:00Z","dimensions":[{"type":"ENERGY","volume":0.5},{"type":"TIME","volume":0.01},{"type":"PARKING_TIME","volume":0.001}],"tariff_id":"G1"}"#
}

fn end() -> &'static str {
    r#"],"total_cost":{"excl_vat":1},"total_energy":1,"total_time":1,"last_updated":"2024-07-01T11:05:00Z"}"#
}

/// A CDR as JSON, with so many charging periods.
pub fn cdr_text(alloc: Global, periods: usize) -> Result<String, AllocError> {
    let mut text = String::from_str(alloc, beginning())?;
    for place in 0..periods {
        if 0 < place {
            text.push(',')?;
        }
        text.push_str(period())?;
    }
    text.push_str(end())?;
    Ok(text)
}

/// That CDR.
pub fn cdr(alloc: Global, periods: usize) -> Option<Shared<Cdr>> {
    let text = cdr_text(alloc, periods).ok()?;
    let mut room = Room::new(alloc);
    let line = room.read(text.as_bytes()).ok()?;
    Shared::from_node_in(alloc, &line.value()).ok()
}

/// What the CDR costs in ten-thousandths; 0 where it has no amount.
pub fn rated_once(cdr: &Cdr, zone: &Zone) -> i64 {
    if cdr.is_credit() {
        return 0;
    }
    match rate(cdr, zone) {
        Ok(amount) => amount.ten_thousandths(),
        Err(_) => 0,
    }
}

// The amounts of so many ratings of the CDR, added.
fn rated(cdr: &Cdr, zone: &Zone, rounds: u64) -> i64 {
    let mut sum = 0i64;
    for _ in 0..rounds {
        sum = sum.wrapping_add(rated_once(cdr, zone));
    }
    sum
}

fn rate_periods(rt: &HostRuntime, zone: &Zone, periods: usize, rounds: u64) -> io::Result<()> {
    let Some(cdr) = cdr(rt.alloc(), periods) else {
        return println!(rt; "rating {periods}: no CDR");
    };
    let sum = rated(&cdr, zone, rounds);
    println!(rt; "rating {periods}: {sum}")
}

/// Rates CDRs of 5 to 1,000 charging periods.
pub fn work(rt: &HostRuntime, zone: &Zone, asked: &Asked<'_>) -> io::Result<()> {
    let rounds = asked.rounds_or(FEW);
    for (part, periods) in [("5", 5), ("10", 10), ("100", 100), ("1000", 1000)] {
        if asked.names_part(part) {
            rate_periods(rt, zone, periods, rounds)?;
        }
    }
    Ok(())
}
