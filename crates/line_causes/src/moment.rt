//! Moments in UTC.

ghost use Rattle.std.specs.Fmt.{WritesOnOk};
ghost use Rattle.line_causes.specs.MomentText.{moment_text};

use jiff::Timestamp;
use jiff::tz::Offset;
use std::fmt;

/// Writes what a clock in UTC shows, as `2024-07-01T10:00:00Z`, with as many decimals of a second as the moment has.
pub fn write_moment<W: fmt::Write>(f: &mut fmt::Formatter<W>, moment: Timestamp) -> fmt::Result
    ensures { WritesOnOk W.write_str_gives f.old result (moment_text moment) f.new }
{
    let shown = Offset::UTC.to_datetime(moment);
    write!(f, "{shown}Z")
}
