//! A line of standard input as a record.

ghost use Rattle.std.specs.Prelude.{◌≡◌, ◌≤◌, length, IfOk, IfErr, Ok, Err, false};
ghost use Rattle.std.specs.List.{before_first, after_first, position_or_len};
ghost use Rattle.input_reports.specs.CdrText.{is_no_memory};
ghost use Rattle.input_reports.specs.re_rate.Line.{amount_of, is_space, ratable_cdr_of, record_of};

use crate::cdr_text::read_cdr;
use crate::ratable::ensure_ratable;
use crate::rating_fault::{RatingFault, refused};
use exact_money::{Amount, Millionths};
use ocpi_json::Room;
use ocpi_types::{Cdr, Shared};
use re_rating::Record;
use std::alloc::{AllocError, Global};

#[tactic(auto, unfolding(crate::specs::re_rate::Line::amount_of))]
fn amount_of(text: &[u8]) -> Option<Amount>
    ensures { result ≡ amount_of text.now }
{
    let millionths = Millionths::read(text)?.get();
    if millionths % 100 != 0 {
        return None;
    }
    Some(Amount::from_ten_thousandths(millionths / 100))
}

// The place of the first space, or the length of the line.
fn space_in(line: &[u8]) -> usize
    ensures in_range { result ≤ length line.now }
    ensures first { result ≡ position_or_len is_space line.now }
{
    for (index, byte) in line.iter().enumerate() {
        if *byte == b' ' {
            return index;
        }
    }
    line.len()
}

fn cut_at_space(line: &[u8]) -> (&[u8], &[u8])
    ensures before { result.0.now ≡ before_first is_space line.now }
    ensures behind { result.1.now ≡ after_first is_space line.now }
{
    let (before, rest) = line.split_at(space_in(line));
    match rest.split_first() {
        Some((_, behind)) => (before, behind),
        None => (before, rest),
    }
}

#[tactic(auto, unfolding(crate::specs::re_rate::Line::ratable_cdr_of))]
fn read_ratable_cdr(alloc: Global, room: &mut Room, text: &[u8]) -> Result<Cdr, RatingFault>
    ensures cdr { IfOk result (λ cdr. ratable_cdr_of text.now ≡ Ok cdr) }
    ensures fault { IfErr result (λ fault. is_no_memory fault ≡ false → ratable_cdr_of text.now ≡ Err fault) }
{
    let cdr = read_cdr(alloc, room, text)?;
    match ensure_ratable(&cdr) {
        Ok(()) => Ok(cdr),
        Err(refusal) => Err(refused(refusal)),
    }
}

/// The record that a line is, without its newline: what was booked, a space, and the CDR as JSON.
///
/// # Errors
///
/// `NoAmount` where no decimal number of up to 9 digits stands before the first space, or one that is not a whole number
/// of ten-thousandths after rounding to millionths; for what stands behind it the faults of `read_cdr`, and of a CDR that
/// would be rated and has a charging period for each tariff that it names, `UnsupportedRestriction` and `Reservation` as
/// `ensure_ratable` has them; `NoMemory` if an allocation fails.
#[tactic(auto, unfolding(crate::specs::re_rate::Line::record_of))]
pub fn read_record(alloc: Global, room: &mut Room, line: &[u8]) -> Result<Record, RatingFault>
    ensures record_of_line { IfOk result (λ found. record_of line.now ≡ Ok found) }
    ensures fault { IfErr result (λ fault. is_no_memory fault ≡ false → record_of line.now ≡ Err fault) }
{
    let (amount, text) = cut_at_space(line);
    let Some(booked) = amount_of(amount) else {
        return Err(RatingFault::NoAmount);
    };
    match read_ratable_cdr(alloc, room, text) {
        Ok(cdr) => match Shared::new(alloc, cdr) {
            Ok(cdr) => Ok(Record { cdr, booked }),
            Err(AllocError) => Err(RatingFault::NoMemory),
        },
        Err(fault) => Err(fault),
    }
}
