//! Rows of what providers owe operators.

ghost use Rattle.std.specs.Prelude.{◌≡◌, ◌≤◌, ◌<◌, ◌^◌, ◌-ℤ◌, unsigned_abs, IfOk};
ghost use Rattle.std.specs.Option.{option_to_list};
ghost use Rattle.house_reports.specs.balances.Balances.{owed, row_of, settled, sums_of};
ghost use Rattle.house_reports.specs.balances.Inner.Narrowed.{of_currency, of_operator, of_provider, size};

use super::booking::Booking;
use super::settled::Settlements;
use exact_money::Amount;
use ocpi_types::{Currency, Party};
use std::alloc::{AllocError, Global};

/// The period, the currency and the parties of a row.
#[derive(Clone, Copy)]
pub struct RowKey {
    pub period: u64,
    pub currency: Currency,
    pub operator: Party,
    pub provider: Party,
}

/// The bookings of one key.
#[derive(Clone, Copy)]
pub struct Row {
    pub key: RowKey,
    /// CDRs less Credit CDRs.
    pub owed: Amount,
    /// The part of it that is settled.
    pub settled: Amount,
    /// Owed less settled.
    pub outstanding: Amount,
}

// Returns the CDRs less the Credit CDRs.
fn owed(bookings: &[Booking]) -> i128
    requires { size bookings.now < 2 ^ 63 }
    ensures value { result ≡ owed bookings.now }
    ensures bound { unsigned_abs result ≤ size bookings.now }
{
    let mut total = 0;
    let mut rest = bookings;
    while let Some((booking, later)) = rest.split_first() {
        total += i128::from(booking.amount.amount().ten_thousandths());
        rest = later;
    }
    total
}

// Returns the part of it that is settled.
fn settled(settlements: &Settlements, bookings: &[Booking]) -> i128
    requires { size bookings.now < 2 ^ 63 }
    ensures value { result ≡ settled settlements.now bookings.now }
    ensures bound { unsigned_abs result ≤ size bookings.now }
{
    let mut total = 0;
    let mut rest = bookings;
    while let Some((booking, later)) = rest.split_first() {
        if settlements.is_settled(booking) {
            total += i128::from(booking.amount.amount().ten_thousandths());
        }
        rest = later;
    }
    total
}

fn amount_of(sum: i128) -> Amount
    requires { unsigned_abs sum < 2 ^ 63 }
    ensures { result ≡ sum }
{
    Amount::from_ten_thousandths(sum as i64)
}

fn left_of(owed: i128, settled: i128) -> Amount
    requires owed { unsigned_abs owed < 2 ^ 63 }
    requires settled { unsigned_abs settled < 2 ^ 63 }
    requires left { unsigned_abs (owed -ℤ settled) < 2 ^ 63 }
    ensures { result ≡ owed -ℤ settled }
{
    amount_of(owed - settled)
}

#[tactic(auto, using(crate::proofs::balances::SizeLemmas::open_small))]
fn sums_of(settlements: &Settlements, key: RowKey, bookings: &[Booking]) -> Row
    requires { size bookings.now < 2 ^ 63 }
    ensures { result ≡ sums_of settlements.now key bookings.now }
{
    let owed = owed(bookings);
    let settled = settled(settlements, bookings);
    Row {
        key,
        owed: amount_of(owed),
        settled: amount_of(settled),
        outstanding: left_of(owed, settled),
    }
}

/// Returns the row of the bookings of one key, if there are any.
pub fn row_of(settlements: &Settlements, key: RowKey, bookings: &[Booking]) -> Option<Row>
    requires { size bookings.now < 2 ^ 63 }
    ensures { option_to_list result ≡ row_of settlements.now key bookings.now }
{
    match bookings.split_first() {
        Some(_) => Some(sums_of(settlements, key, bookings)),
        None => None,
    }
}

pub fn of_currency(
    alloc: Global,
    bookings: &[Booking],
    currency: &Currency,
) -> Result<Vec<Booking>, AllocError>
    ensures { IfOk result (λ found. found.items ≡ of_currency currency.now bookings.now) }
{
    let found = bookings.iter().copied();
    found
        .filter(|booking| booking.currency.is(currency))
        .collect(alloc)
}

pub fn of_operator(
    alloc: Global,
    bookings: &[Booking],
    operator: &Party,
) -> Result<Vec<Booking>, AllocError>
    ensures { IfOk result (λ found. found.items ≡ of_operator operator.now bookings.now) }
{
    let found = bookings.iter().copied();
    found
        .filter(|booking| booking.operator.is(operator))
        .collect(alloc)
}

pub fn of_provider(
    alloc: Global,
    bookings: &[Booking],
    provider: &Party,
) -> Result<Vec<Booking>, AllocError>
    ensures { IfOk result (λ found. found.items ≡ of_provider provider.now bookings.now) }
{
    let found = bookings.iter().copied();
    found
        .filter(|booking| booking.provider.is(provider))
        .collect(alloc)
}
