ghost use Rattle.std.specs.Prelude.{◌≡◌, IfOk};
ghost use Rattle.re_rating.specs.Differences.{differences};
ghost use Rattle.re_rating.specs.Inner.OneDifference.{difference_at};

use super::records::{Difference, Record};
use cdr_rating::{Zone, rate};
use rayon::prelude::*;
use std::alloc::{AllocError, Global};
use std::thread::Threads;

// Fewer records than these are not worth a thread of their own.
const LEAST_PIECE: usize = 32;

fn difference_at(zone: &Zone, place: usize, booking: &Record) -> Option<Difference>
    ensures { result ≡ difference_at zone.now (place, booking.now) }
{
    if booking.cdr.is_credit() {
        return None;
    }
    let rated = rate(&booking.cdr, zone).ok();
    if rated == Some(booking.booked) {
        return None;
    }
    Some(Difference {
        index: place as u64,
        booked: booking.booked,
        rated,
    })
}

/// The records of one operator that are not rated at what was booked, in the order of the list. Credit CDRs are passed
/// over, since they are not rated.
///
/// The records are shared out among threads, at most two for each processor and each with 32 records or more. `AllocError`
/// says that memory for the list was refused. Where a thread cannot be started, its records are rated all the same.
pub fn re_rate(
    rt: &(impl Threads + Sync),
    alloc: Global,
    records: &[Record],
    zone: &Zone,
) -> Result<Vec<Difference>, AllocError>
    ensures { IfOk result (λ found. found.items ≡ differences zone.now records.now) }
{
    records
        .par_iter()
        .with_min_len(LEAST_PIECE)
        .enumerate()
        .filter_map(
            move |p: (usize, &Record)| -> Option<Difference>
                ensures { result ≡ difference_at zone.entry.now (p.entry.0, p.entry.1.now) }
            { difference_at(zone, p.0, p.1) },
        )
        .collect(rt, alloc)
}
