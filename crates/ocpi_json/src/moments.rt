//! Reading moments, dates and times of day.

ghost use Rattle.std.specs.Prelude.{◌≡◌, ◌<◌, ◌≤◌, ◌-◌, ◌*◌, IfSome};
ghost use Rattle.jiff.specs.Words.{civil_nanos};
ghost use Rattle.ocpi_json.specs.Inner.MomentReading as reading;
ghost use Rattle.ocpi_json.specs.MomentText as spec;
ghost use Rattle.ocpi_json.specs.MomentText.{DatesAreSpelled, ClocksAreSpelled, InstantsAreSpelled};

use crate::expected::Expected;
use crate::objects::FromText;
use jiff::Timestamp;
use jiff::civil::{Date, DateTime, Time};
use jiff::tz::Offset;

#[tactic(auto, unfolding(crate::specs::Inner::MomentReading::read_digit))]
fn read_digit(text: &[u8]) -> Option<(u8, &[u8])>
    ensures value { reading.read_view result ≡ reading.read_digit text.now }
    ensures bound { IfSome result (λ p. p.0 < 10) }
{
    match text {
        [digit @ b'0'..=b'9', rest @ ..] => Some((*digit - b'0', rest)),
        _ => None,
    }
}

#[tactic(auto, unfolding(crate::specs::Inner::MomentReading::read_two))]
fn read_two(text: &[u8]) -> Option<(u8, &[u8])>
    ensures value { reading.read_view result ≡ reading.read_two text.now }
    ensures bound { IfSome result (λ p. p.0 < 100) }
{
    let (tens, rest) = read_digit(text)?;
    let (ones, rest) = read_digit(rest)?;
    Some((tens * 10 + ones, rest))
}

#[tactic(auto, unfolding(crate::specs::Inner::MomentReading::read_four))]
fn read_four(text: &[u8]) -> Option<(u16, &[u8])>
    ensures value { reading.read_view result ≡ reading.read_four text.now }
    ensures bound { IfSome result (λ p. p.0 < 10_000) }
{
    let (high, rest) = read_two(text)?;
    let (low, rest) = read_two(rest)?;
    Some((high as u16 * 100 + low as u16, rest))
}

#[tactic(auto, unfolding(crate::specs::Inner::MomentReading::read_two_after))]
fn read_two_after(text: &[u8], mark: u8) -> Option<(u8, &[u8])>
    ensures value { reading.read_view result ≡ reading.read_two_after text.now mark }
    ensures bound { IfSome result (λ p. p.0 < 100) }
{
    match text {
        [first, rest @ ..] if *first == mark => read_two(rest),
        _ => None,
    }
}

// The day of a year of four digits.
fn date_at(year: u16, month: u8, day: u8) -> Option<Date>
    requires year_in { year < 10_000 }
    requires month_in { month < 100 }
    requires day_in { day < 100 }
    ensures { result ≡ reading.date_at year month day }
{
    Date::new(year as i16, month as i8, day as i8).ok()
}

#[tactic(auto, unfolding(crate::specs::Inner::MomentReading::read_date))]
fn read_date(text: &[u8]) -> Option<(Date, &[u8])>
    ensures { reading.read_view result ≡ reading.read_date text.now }
{
    let (year, rest) = read_four(text)?;
    let (month, rest) = read_two_after(rest, b'-')?;
    let (day, rest) = read_two_after(rest, b'-')?;
    let date = date_at(year, month, day)?;
    Some((date, rest))
}

/// The date that a text is: `YYYY-MM-DD`, of the proleptic Gregorian calendar.
#[tactic(auto, unfolding(crate::specs::Inner::MomentReading::date_of))]
pub fn date_of(text: &[u8]) -> Option<Date>
    ensures { result ≡ spec.date_of text.now }
{
    match read_date(text) {
        Some((date, [])) => Some(date),
        _ => None,
    }
}

// A time of day, of parts of two digits and a fraction of nine.
fn time_at(hour: u8, minute: u8, second: u8, nanos: u32) -> Option<Time>
    requires hour_in { hour < 100 }
    requires minute_in { minute < 100 }
    requires second_in { second < 100 }
    requires nanos_in { nanos < 1_000_000_000 }
    ensures { result ≡ reading.time_at hour minute second nanos }
{
    Time::new(hour as i8, minute as i8, second as i8, nanos as i32).ok()
}

/// The time of day that a text is: `HH:MM`, from `00:00` to `23:59`.
#[tactic(auto, unfolding(crate::specs::Inner::MomentReading::clock_of))]
pub fn clock_of(text: &[u8]) -> Option<Time>
    ensures { result ≡ spec.clock_of text.now }
{
    let (hour, rest) = read_two(text)?;
    let (minute, rest) = read_two_after(rest, b':')?;
    let time = time_at(hour, minute, 0, 0)?;
    if rest.is_empty() { Some(time) } else { None }
}

// The nanoseconds of digits behind a point, of which the first counts `weight`.
#[tactic(auto, unfolding(crate::specs::Inner::MomentReading::digits_from))]
fn digits_from(text: &[u8], weight: u32) -> (u32, &[u8])
    requires { weight ≤ 100_000_000 }
    ensures value { (result.0, result.1.now) ≡ reading.digits_from weight text.now }
    ensures bound { result.0 ≤ weight * 10 - 1 }
{
    match text {
        [digit @ b'0'..=b'9', rest @ ..] if weight > 0 => {
            let (low, rest) = digits_from(rest, weight / 10);
            ((*digit - b'0') as u32 * weight + low, rest)
        }
        _ => (0, text),
    }
}

// The fraction of a second, in nanoseconds.
#[tactic(auto, unfolding(crate::specs::Inner::MomentReading::read_fraction))]
fn read_fraction(text: &[u8]) -> Option<(u32, &[u8])>
    ensures value { reading.read_view result ≡ reading.read_fraction text.now }
    ensures bound { IfSome result (λ p. p.0 < 1_000_000_000) }
{
    match text {
        [b'.', rest @ ..] => {
            read_digit(rest)?;
            Some(digits_from(rest, 100_000_000))
        }
        _ => Some((0, text)),
    }
}

#[tactic(auto, unfolding(crate::specs::Inner::MomentReading::read_time))]
fn read_time(text: &[u8]) -> Option<(Time, &[u8])>
    ensures { reading.read_view result ≡ reading.read_time text.now }
{
    let (hour, rest) = read_two(text)?;
    let (minute, rest) = read_two_after(rest, b':')?;
    let (second, rest) = read_two_after(rest, b':')?;
    let (nanos, rest) = read_fraction(rest)?;
    let time = time_at(hour, minute, second, nanos)?;
    Some((time, rest))
}

#[tactic(auto, unfolding(crate::specs::Inner::MomentReading::read_datetime, crate::specs::Inner::MomentReading::after_mark))]
fn read_datetime(text: &[u8]) -> Option<(DateTime, &[u8])>
    ensures { reading.read_view result ≡ reading.read_datetime text.now }
{
    let Some((date, rest)) = read_date(text) else {
        return None;
    };
    let [b'T', rest @ ..] = rest else {
        return None;
    };
    let Some((time, rest)) = read_time(rest) else {
        return None;
    };
    Some((date.to_datetime(time), rest))
}

// The instant at which a clock in UTC shows this.
fn instant_at(shown: DateTime) -> Option<Timestamp>
    ensures { result ≡ reading.instant_at (civil_nanos shown) }
{
    Offset::UTC.to_timestamp(shown).ok()
}

/// The instant that a text names: `YYYY-MM-DDTHH:MM:SS` in UTC, then a point and 1 to 9 digits or
/// neither, then nothing, `Z` or `+00:00`.
#[tactic(auto, unfolding(crate::specs::Inner::MomentReading::instant_of))]
pub fn instant_of(text: &[u8]) -> Option<Timestamp>
    ensures { result ≡ spec.instant_of text.now }
{
    let Some((shown, rest)) = read_datetime(text) else {
        return None;
    };
    match rest {
        b"" | b"Z" | b"+00:00" => instant_at(shown),
        _ => None,
    }
}

/// Laws: each reading gives what its text spells, and nothing where the text spells nothing.
pub fn moments_are_spelled()
    ensures dates { DatesAreSpelled }
    ensures clocks { ClocksAreSpelled }
    ensures instants { InstantsAreSpelled }
{}

impl FromText for Timestamp {
    ghost use Rattle.ocpi_json.specs.MomentText.{instant_of};
    ghost use Rattle.ocpi_json.specs.declared.expected.Expected.TheVariants as expected;

    ghost of_text = { instant_of };

    ghost expects = { expected.Moment };

    fn from_text(text: &str) -> Option<Timestamp> {
        instant_of(text.as_bytes())
    }

    fn expected() -> Expected {
        Expected::Moment
    }
}

impl FromText for Date {
    ghost use Rattle.ocpi_json.specs.MomentText.{date_of};
    ghost use Rattle.ocpi_json.specs.declared.expected.Expected.TheVariants as expected;

    ghost of_text = { date_of };

    ghost expects = { expected.Date };

    fn from_text(text: &str) -> Option<Date> {
        date_of(text.as_bytes())
    }

    fn expected() -> Expected {
        Expected::Date
    }
}

impl FromText for Time {
    ghost use Rattle.ocpi_json.specs.MomentText.{clock_of};
    ghost use Rattle.ocpi_json.specs.declared.expected.Expected.TheVariants as expected;

    ghost of_text = { clock_of };

    ghost expects = { expected.Clock };

    fn from_text(text: &str) -> Option<Time> {
        clock_of(text.as_bytes())
    }

    fn expected() -> Expected {
        Expected::Clock
    }
}
