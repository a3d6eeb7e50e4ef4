//! The clocks of two time zones, compared.

ghost use Rattle.std.specs.Prelude.{◌≡◌, ◌↔◌, ◌<◌, true};
ghost use Rattle.jiff.specs.Words.{offset_at};
ghost use Rattle.kept_house.specs.Clocks.{ShowSame, fifth_hour};

use jiff::Timestamp;
use ocpi_types::Zone;

/// The number of every fifth hour of the years 2024 to 2030 in UTC.
const FIFTH_HOURS: u64 = 12_274;

/// The beginning of 2024 in UTC, in seconds since 1970.
const FIRST_SECOND: i64 = 1_704_067_200;

/// The seconds of five hours.
const STEP: i64 = 18_000;

/// Returns the instant at which the fifth hour of this number begins.
fn fifth_hour(number: u64) -> Timestamp
    requires { number < 12_274 }
    ensures { result.nanosecond ≡ fifth_hour number }
{
    Timestamp::from_second(FIRST_SECOND + STEP * number as i64).unwrap()
}

/// Returns whether clocks in both zones show the same at an instant.
fn show_same_at(ours: &Zone, theirs: &Zone, instant: Timestamp) -> bool
    ensures { (result ≡ true) ↔ (offset_at ours.now instant.nanosecond ≡ offset_at theirs.now instant.nanosecond) }
{
    ours.local(instant) == theirs.local(instant)
}

/// Returns whether clocks in both zones show the same at every fifth hour of the years 2024 to 2030.
///
/// A zone does not tell its rule. If clocks change an hour apart, the five hours' step meets that hour in one of the seven years.
pub(crate) fn show_same(ours: &Zone, theirs: &Zone) -> bool
    ensures { (result ≡ true) ↔ ShowSame ours.now theirs.now }
{
    for number in 0..FIFTH_HOURS {
        if !show_same_at(ours, theirs, fifth_hour(number)) {
            return false;
        }
    }
    true
}
