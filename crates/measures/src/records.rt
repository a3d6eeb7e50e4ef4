//! Re-rating a list of records over all processors.

use super::asked::Asked;
use super::rating::{cdr, rated_once};
use exact_money::Amount;
use ocpi_types::Zone;
use re_rating::{Difference, Record, re_rate};
use std::alloc::Global;
use std::io;
use std::thread::{Threads, available_parallelism};
use std::time::{Duration, Instant};

// How many records there are where no word gives their number.
const FEW: u64 = 500;

// How many charging periods each of their CDRs has.
const PERIODS: usize = 10;

// One record of so many is booked at another amount than it costs.
const AGREEING: u64 = 100;

// So many records of that CDR, each of which has it in a place of its own.
fn records_of(alloc: Global, zone: &Zone, count: u64) -> Option<Vec<Record>> {
    let first = cdr(alloc, PERIODS)?;
    let cost = rated_once(&first, zone);
    let mut records = Vec::new(alloc);
    for place in 0..count {
        let cdr = cdr(alloc, PERIODS)?;
        let booked = if place % AGREEING == 0 { 0 } else { cost };
        let booked = Amount::from_ten_thousandths(booked);
        records.push(Record { cdr, booked }).ok()?;
    }
    Some(records)
}

// The places and the amounts of the differences, added.
fn sum_of(differences: &[Difference]) -> u64 {
    let mut sum = 0u64;
    for difference in differences {
        let rated = difference.rated.map_or(0, |rated| rated.ten_thousandths());
        sum = sum
            .wrapping_add(difference.index)
            .wrapping_add(rated.unsigned_abs());
    }
    sum
}

fn tell_rate(rt: &HostRuntime, processors: usize, count: usize, took: Duration) -> io::Result<()> {
    let micros = took.as_micros().max(1);
    let rate = (count as u128).wrapping_mul(1_000_000) / micros;
    eprintln!(rt; "re_rating: {rate} records a second, {processors} processors, {micros} us")
}

fn re_rate_all(
    rt: &HostRuntime,
    threads: &(impl Threads + Sync),
    zone: &Zone,
    records: &[Record],
) -> io::Result<()> {
    let processors = available_parallelism(threads)?.get();
    let before = Instant::now(rt)?;
    let differences = re_rate(threads, rt.alloc(), records, zone)?;
    let took = before.elapsed(rt)?;
    println!(rt;
        "re_rating {PERIODS}: {} records, {} differences, {}",
        records.len(),
        differences.len(),
        sum_of(differences.as_slice())
    )?;
    tell_rate(rt, processors, records.len(), took)
}

/// Re-rates so many records of CDRs with 10 charging periods.
pub fn work(
    rt: &HostRuntime,
    threads: &(impl Threads + Sync),
    zone: &Zone,
    asked: &Asked<'_>,
) -> io::Result<()> {
    if !asked.names_part("10") {
        return Ok(());
    }
    let Some(records) = records_of(rt.alloc(), zone, asked.rounds_or(FEW)) else {
        return println!(rt; "re_rating: no CDR");
    };
    re_rate_all(rt, threads, zone, records.as_slice())
}
