//! How far a zone's clocks are ahead of UTC.

ghost use Rattle.std.specs.Prelude.{◌≡◌, pos};
ghost use Rattle.jiff.specs.Words.{offset_at};

use jiff::Timestamp;
use jiff::tz::Offset as UtcOffset;
use ocpi_types::Zone;
use std::fmt;

/// How many seconds a clock is ahead of UTC.
#[derive(Clone, Copy)]
pub struct Offset {
    seconds: i64,
}

fn offset_of(zone: &Zone, instant: Timestamp) -> Offset
    ensures { result.seconds ≡ offset_at zone.now instant.nanosecond }
{
    let ahead = zone.local(instant);
    let duration = ahead.duration_since(UtcOffset::UTC.to_datetime(instant));
    Offset {
        seconds: duration.as_secs(),
    }
}

/// At noon of 15 January 2024.
pub fn in_january(zone: &Zone) -> Offset
    ensures { result.seconds ≡ offset_at zone.now (pos 1_705_320_000_000_000_000) }
{
    offset_of(zone, Timestamp::constant(1_705_320_000, 0))
}

/// At noon of 15 July 2024.
pub fn in_july(zone: &Zone) -> Offset
    ensures { result.seconds ≡ offset_at zone.now (pos 1_721_044_800_000_000_000) }
{
    offset_of(zone, Timestamp::constant(1_721_044_800, 0))
}

impl fmt::Display for Offset {
    fn fmt<W: fmt::Write>(&self, f: &mut fmt::Formatter<W>) -> fmt::Result {
        let sign = if self.seconds < 0 { "-" } else { "+" };
        let size = self.seconds.unsigned_abs();
        let (hours, minutes, seconds) = (size / 3600, size / 60 % 60, size % 60);
        write!(f, "{sign}{hours:02}:{minutes:02}")?;
        if seconds != 0 {
            write!(f, ":{seconds:02}")?;
        }
        Ok(())
    }
}
