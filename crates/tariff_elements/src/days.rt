ghost use Rattle.std.specs.Prelude.{◌≡◌, true, int_le, int_lt};
ghost use Rattle.std.specs.List.{list_any};
ghost use Rattle.std.specs.Option.{option_map_or};
ghost use Rattle.jiff.specs.Words.{epoch_day};
ghost use Rattle.tariff_elements.specs.Matching.{falls_on, is_between_dates, is_on_listed_day};

use jiff::civil::Date;
use ocpi_types::DayOfWeek;

fn is_on_or_after(start: Option<Date>, date: Date) -> bool
    ensures { result ≡ option_map_or (λ first. int_le (epoch_day first) (epoch_day date)) start true }
{
    match start {
        Some(first) => first <= date,
        None => true,
    }
}

fn is_before(end: Option<Date>, date: Date) -> bool
    ensures { result ≡ option_map_or (λ bound. int_lt (epoch_day date) (epoch_day bound)) end true }
{
    match end {
        Some(end) => date < end,
        None => true,
    }
}

/// Whether the date lies from the start, included, to the end, excluded.
pub(crate) fn is_between_dates(start: Option<Date>, end: Option<Date>, date: Date) -> bool
    ensures { result ≡ is_between_dates start end (epoch_day date) }
{
    is_on_or_after(start, date) && is_before(end, date)
}

fn falls_on(date: Date, weekday: DayOfWeek) -> bool
    ensures { result ≡ falls_on (epoch_day date) weekday }
{
    weekday.days_after_monday() == date.weekday().to_monday_zero_offset()
}

fn is_listed(weekdays: &[DayOfWeek], date: Date) -> bool
    ensures { result ≡ list_any (λ weekday. falls_on (epoch_day date) weekday) weekdays.now }
{
    weekdays.iter().any(|weekday| falls_on(date, *weekday))
}

/// Whether the date's day of the week is listed, or none is.
pub(crate) fn is_on_listed_day(weekdays: &[DayOfWeek], date: Date) -> bool
    ensures { result ≡ is_on_listed_day weekdays.now (epoch_day date) }
{
    weekdays.is_empty() || is_listed(weekdays, date)
}
