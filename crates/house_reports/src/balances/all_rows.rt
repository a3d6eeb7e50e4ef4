//! The rows of all bookings, by period, currency, operator and provider.

ghost use Rattle.std.specs.Prelude.{◌≡◌, ◌++◌, ◌<◌, ◌^◌, ℕ, IfOk, OnOk};
ghost use Rattle.netting_positions.specs.Netting.{total_size};
ghost use Rattle.plain_house.specs.Entries.{book_entries, period_of};
ghost use Rattle.plain_house.specs.Obligations.{obligations};
ghost use Rattle.house_reports.specs.balances.Balances.{operators, providers, rows};
ghost use Rattle.house_reports.specs.balances.Bookings.{bookings, settlements};
ghost use Rattle.house_reports.specs.balances.Inner.Narrowed.{rows_of_currency, rows_of_operator, rows_of_period, size};

use super::booking::{Booking, bookings, settlements};
use super::in_order::split_period;
use super::laws::bookings_are_obligations;
use super::row::{Row, RowKey, of_currency, of_operator, of_provider, row_of};
use super::settled::Settlements;
use ocpi_types::{Config, Currency, Party};
use plain_house::{Event, period_of};
use std::alloc::{AllocError, Global};

/// The parties and currencies that have rows, in order, and the settlements.
#[derive(Drop)]
struct Listed {
    currencies: Vec<Currency>,
    operators: Vec<Party>,
    providers: Vec<Party>,
    settlements: Settlements,
}

#[tactic(auto, using(crate::proofs::balances::SizeLemmas::size_filter))]
fn add_operator(
    alloc: Global,
    rows: &mut Vec<Row>,
    listed: &Listed,
    period: u64,
    currency: &Currency,
    operator: &Party,
    bookings: &[Booking],
) -> Result<(), AllocError>
    requires { size bookings.now < 2 ^ 63 }
    ensures { OnOk result (rows.new.items ≡ rows.old.items ++ rows_of_operator listed.now.settlements period currency.now operator.now listed.now.providers.items bookings.now) }
{
    if bookings.is_empty() {
        return Ok(());
    }
    for provider in listed.providers.as_slice() {
        let booked = of_provider(alloc, bookings, provider)?;
        let key = RowKey {
            period,
            currency: *currency,
            operator: *operator,
            provider: *provider,
        };
        if let Some(row) = row_of(&listed.settlements, key, booked.as_slice()) {
            rows.push(row)?;
        }
    }
    Ok(())
}

#[tactic(auto, using(crate::proofs::balances::SizeLemmas::size_filter))]
fn add_currency(
    alloc: Global,
    rows: &mut Vec<Row>,
    listed: &Listed,
    period: u64,
    currency: &Currency,
    bookings: &[Booking],
) -> Result<(), AllocError>
    requires { size bookings.now < 2 ^ 63 }
    ensures { OnOk result (rows.new.items ≡ rows.old.items ++ rows_of_currency listed.now.settlements period currency.now listed.now.operators.items listed.now.providers.items bookings.now) }
{
    if bookings.is_empty() {
        return Ok(());
    }
    for operator in listed.operators.as_slice() {
        let booked = of_operator(alloc, bookings, operator)?;
        add_operator(
            alloc,
            rows,
            listed,
            period,
            currency,
            operator,
            booked.as_slice(),
        )?;
    }
    Ok(())
}

#[tactic(auto, using(crate::proofs::balances::SizeLemmas::size_filter))]
fn add_period(
    alloc: Global,
    rows: &mut Vec<Row>,
    listed: &Listed,
    period: u64,
    bookings: &[Booking],
) -> Result<(), AllocError>
    requires { size bookings.now < 2 ^ 63 }
    ensures { OnOk result (rows.new.items ≡ rows.old.items ++ rows_of_period listed.now.settlements period listed.now.currencies.items listed.now.operators.items listed.now.providers.items bookings.now) }
{
    if bookings.is_empty() {
        return Ok(());
    }
    for currency in listed.currencies.as_slice() {
        let booked = of_currency(alloc, bookings, currency)?;
        add_currency(alloc, rows, listed, period, currency, booked.as_slice())?;
    }
    Ok(())
}

fn operators_of(alloc: Global, config: &Config) -> Result<Vec<Party>, AllocError>
    ensures { IfOk result (λ parties. parties.items ≡ operators config.now) }
{
    let mut parties = Vec::new(alloc);
    for operator in config.operators.as_slice() {
        parties.push(operator.party)?;
    }
    Ok(parties)
}

fn providers_of(alloc: Global, config: &Config) -> Result<Vec<Party>, AllocError>
    ensures { IfOk result (λ parties. parties.items ≡ providers config.now) }
{
    let providers = config.providers.as_slice().iter();
    providers
        .map(|provider| config.as_configured(&provider.party))
        .collect(alloc)
}

fn listed_in(alloc: Global, config: &Config, events: &[Event]) -> Result<Listed, AllocError>
    ensures settlements { IfOk result (λ listed. listed.settlements ≡ settlements events.now) }
    ensures currencies { IfOk result (λ listed. listed.currencies.items ≡ config.now.currencies) }
    ensures operators { IfOk result (λ listed. listed.operators.items ≡ operators config.now) }
    ensures providers { IfOk result (λ listed. listed.providers.items ≡ providers config.now) }
{
    Ok(Listed {
        currencies: config.currencies.as_slice().to_vec(alloc)?,
        operators: operators_of(alloc, config)?,
        providers: providers_of(alloc, config)?,
        settlements: settlements(alloc, events)?,
    })
}

/// Returns the rows, by period, currency, operator and provider.
pub fn rows(alloc: Global, config: &Config, events: &[Event]) -> Result<Vec<Row>, AllocError>
    requires { (period : ℕ) → total_size (obligations period (book_entries events.now)) < 2 ^ 63 }
    ensures { IfOk result (λ found. found.items ≡ rows config.now events.now) }
{
    bookings_are_obligations();
    let listed = listed_in(alloc, config, events)?;
    let bookings = bookings(alloc, events)?;
    let mut rows = Vec::new(alloc);
    let mut rest = bookings.as_slice();
    for period in 0..period_of(events) + 1 {
        let (booked, later) = split_period(rest, period);
        add_period(alloc, &mut rows, &listed, period, booked)?;
        rest = later;
    }
    Ok(rows)
}
