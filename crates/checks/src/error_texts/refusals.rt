//! The texts of refusals, compared with the names, keys and amounts that are proved.

use exact_money::Amount;
use ocpi_json::name::Name;
use ocpi_types::{Refusal, Store};
use std::alloc::{AllocError, Global};
use std::io;

fn without_values() -> [Refusal; 22] {
    [
        Refusal::Syntax,
        Refusal::UnknownParty,
        Refusal::NotYours,
        Refusal::WrongCurrency,
        Refusal::BadDates,
        Refusal::TariffNotGiven,
        Refusal::UnsupportedRestriction,
        Refusal::Reservation,
        Refusal::EnergyMismatch,
        Refusal::AmountTooLarge,
        Refusal::Conflict,
        Refusal::TariffNotRegistered,
        Refusal::UnknownToken,
        Refusal::UnknownHold,
        Refusal::UnknownOriginal,
        Refusal::CreditOfCredit,
        Refusal::AlreadyCredited,
        Refusal::CreditDiffers,
        Refusal::PeriodOpen,
        Refusal::AlreadySettled,
        Refusal::UnknownCdr,
        Refusal::NoMemory,
    ]
}

fn over_limit(exposure: i64, limit: i64, pair: bool) -> Refusal {
    Refusal::OverLimit {
        exposure: Amount::from_ten_thousandths(exposure),
        limit: Amount::from_ten_thousandths(limit),
        pair,
    }
}

fn with_values() -> [Refusal; 11] {
    [
        Refusal::Field { name: Name::Volume },
        Refusal::CostMismatch {
            rated: Amount::from_ten_thousandths(50_000),
        },
        Refusal::NotCurrent { current: 1 },
        Refusal::Full { what: Store::Cdrs },
        Refusal::Full {
            what: Store::Tariffs,
        },
        Refusal::Full {
            what: Store::Account,
        },
        Refusal::Full { what: Store::Order },
        Refusal::Full {
            what: Store::Periods,
        },
        over_limit(1_002_500, 1_000_000, false),
        over_limit(302_500, 300_000, true),
        Refusal::TooLate {
            original: 0,
            current: 1,
        },
    ]
}

fn add(text: &mut Vec<u8>, before: &str, value: &str) -> Result<(), AllocError> {
    text.extend_from_slice(before.as_bytes())?;
    text.extend_from_slice(value.as_bytes())
}

fn add_number(text: &mut Vec<u8>, before: &str, value: u64) -> Result<(), AllocError> {
    let digits = value.to_string(*text.allocator())?;
    add(text, before, digits.as_str())
}

fn add_amount(text: &mut Vec<u8>, before: &str, value: Amount) -> Result<(), AllocError> {
    text.extend_from_slice(before.as_bytes())?;
    value.write(text)
}

fn add_values(text: &mut Vec<u8>, refusal: &Refusal) -> Result<(), AllocError> {
    match *refusal {
        Refusal::Field { name } => add(text, " ", name.key()),
        Refusal::CostMismatch { rated } => add_amount(text, " rated ", rated),
        Refusal::NotCurrent { current } => add_number(text, " current ", current),
        Refusal::Full { what } => add(text, " ", what.name()),
        Refusal::OverLimit {
            exposure,
            limit,
            pair,
        } => {
            add_amount(text, " exposure ", exposure)?;
            add_amount(text, " limit ", limit)?;
            add(text, "", if pair { " pair" } else { "" })
        }
        Refusal::TooLate { original, current } => {
            add_number(text, " original ", original)?;
            add_number(text, " current ", current)
        }
        _ => Ok(()),
    }
}

// The name, and the values as an answer line has them.
fn proved_text(alloc: Global, refusal: &Refusal) -> Result<Vec<u8>, AllocError> {
    let mut text = Vec::new(alloc);
    add(&mut text, refusal.name(), "")?;
    add_values(&mut text, refusal)?;
    Ok(text)
}

fn is_same(alloc: Global, refusal: &Refusal) -> Result<bool, AllocError> {
    let proved = proved_text(alloc, refusal)?;
    let displayed = refusal.to_string(alloc)?;
    Ok(displayed.as_bytes() == proved.as_slice())
}

// Whether all texts are the proved ones.
fn tell_each(rt: &HostRuntime, refusals: &[Refusal]) -> io::Result<bool> {
    let mut are_same = true;
    for refusal in refusals {
        let same = is_same(rt.alloc(), refusal)?;
        println!(rt;
            "Refusal: {refusal}: {}",
            if same { "same" } else { "differs" }
        )?;
        are_same = are_same && same;
    }
    Ok(are_same)
}

/// Tells the rows of all refusals, and whether each text is the proved one.
pub fn tell(rt: &HostRuntime) -> io::Result<bool> {
    let are_plain_same = tell_each(rt, &without_values())?;
    let are_others_same = tell_each(rt, &with_values())?;
    Ok(are_plain_same && are_others_same)
}
