ghost use Rattle.std.specs.Prelude.{◌≡◌};
ghost use Rattle.jiff.specs.Words.{time_nanos};
ghost use Rattle.tariff_elements.specs.Window.{in_window, is_between_times};

use jiff::civil::Time;

fn is_in_window(start: Time, end: Time, time: Time) -> bool
    ensures { result ≡ in_window (time_nanos start) (time_nanos end) (time_nanos time) }
{
    if start == end {
        true
    } else if start < end {
        start <= time && time < end
    } else {
        start <= time || time < end
    }
}

/// Whether the time lies in the window from `start_time` to `end_time`.
pub(crate) fn is_between_times(start: Option<Time>, end: Option<Time>, time: Time) -> bool
    ensures { result ≡ is_between_times start end (time_nanos time) }
{
    let start = start.unwrap_or(Time::midnight());
    let end = end.unwrap_or(Time::midnight());
    is_in_window(start, end, time)
}
