ghost use Rattle.std.specs.Prelude.{◌≡◌};
ghost use Rattle.tariff_elements.specs.LocalTime.{moment_at};

use super::moments::Moment;
use jiff::Timestamp;
use jiff::civil::DateTime;
use ocpi_types::Zone;

/// The moment of an instant in the operator's zone. The energy (in millionths of a kWh) and the
/// seconds are those of the session so far.
pub fn moment(zone: &Zone, instant: Timestamp, energy: u128, seconds: u64) -> Moment
    ensures { result ≡ moment_at zone.now instant.nanosecond energy seconds }
{
    Moment {
        local: zone.local(instant),
        energy,
        seconds,
    }
}

/// A moment with the energy (in millionths of a kWh) and the seconds of the session so far, whatever its clock shows. It
/// serves tariffs that do not [ask the clock](crate::asks_clock).
pub fn moment_without_clock(energy: u128, seconds: u64) -> Moment
    ensures energy { result.energy ≡ energy }
    ensures seconds { result.seconds ≡ seconds }
{
    let local = DateTime::ZERO;
    Moment {
        local,
        energy,
        seconds,
    }
}
