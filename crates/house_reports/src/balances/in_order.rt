//! Bookings period by period.

ghost use Rattle.std.specs.Prelude.{◌≡◌, ◌+◌, ◌≤◌, ◌++◌, length};
ghost use Rattle.house_reports.specs.balances.Inner.InOrder.{AreFrom, leading};
ghost use Rattle.house_reports.specs.balances.Inner.Narrowed.{of_period};

use super::booking::Booking;

// Returns how many bookings are of the period before the first that is not.
fn leading(bookings: &[Booking], period: u64) -> usize
    ensures value { result ≡ leading period bookings.now }
    ensures bound { result ≤ length bookings.now }
{
    let mut count = 0;
    let mut rest = bookings;
    while let Some((booking, later)) = rest.split_first() {
        if booking.period != period {
            return count;
        }
        count += 1;
        rest = later;
    }
    count
}

/// Returns the bookings of a period and those of later periods, if none is of an earlier one.
#[tactic(auto, using(crate::proofs::balances::InOrderLemmas::from_later, crate::proofs::balances::InOrderLemmas::of_first))]
pub fn split_period(bookings: &[Booking], period: u64) -> (&[Booking], &[Booking])
    requires { AreFrom period bookings.now }
    ensures all { result.0.now ++ result.1.now ≡ bookings.now }
    ensures first { result.0.now ≡ of_period period bookings.now }
    ensures later { AreFrom (period + 1) result.1.now }
{
    bookings.split_at(leading(bookings, period))
}
