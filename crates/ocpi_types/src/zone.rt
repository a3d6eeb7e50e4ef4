ghost use Rattle.std.specs.Prelude.{◌≡◌, ◌+ℤ◌, option_map};
ghost use Rattle.jiff.specs.Words.{civil_nanos, nanos_of_seconds, offset_at, plain_zone};
ghost use Rattle.ocpi_types.specs.Zone.{zone_of, fixed_zone_of, rule_zone_of, fixed_seconds, seconds_of, offset_of, nameless};

use jiff::Timestamp;
use jiff::civil::DateTime;
use jiff::tz::{Offset, TimeZone};
use ocpi_json::Expected;
use ocpi_json::objects::FromText;
use std::alloc::AllocError;
use std::marker::Model;

/// The time zone of an operator: a fixed offset from UTC, or a POSIX rule (IEEE 1003.1, Base Definitions, section 8.3).
#[derive(Drop)]
pub struct Zone {
    rules: TimeZone<'static>,
}

// Contracts see a rule without the names of standard and daylight saving time, which decide no offset.
impl Model for Zone {
    ghost use Rattle.jiff.specs.Types.{TimeZone as PlainZone};
    ghost use Rattle.jiff.specs.Words.{plain_zone};
    ghost use Rattle.ocpi_types.specs.Zone.{nameless};

    ghost Value = { PlainZone };

    ghost view = { λ zone. nameless (plain_zone zone.rules) };
}

impl Clone for Zone {
    ghost use Rattle.std.specs.Prelude.{◌≡◌, ⊤};

    ghost is_clone = { λ x y. y ≡ x };

    ghost is_infallible = { λ _. ⊤ };

    fn clone(&self) -> Result<Zone, AllocError> {
        Ok(Zone { rules: self.rules })
    }
}

// The seconds of hours and minutes behind a sign.
fn seconds_of(sign: u8, hours: u8, minutes: u8) -> Option<i32>
    ensures { result ≡ seconds_of sign hours minutes }
{
    if hours >= 24 || minutes >= 60 {
        return None;
    }
    let seconds = (hours as u32 * 3600 + minutes as u32 * 60) as i32;
    match sign {
        b'+' => Some(seconds),
        b'-' => Some(-seconds),
        _ => None,
    }
}

// The seconds of `+HH:MM` or `-HH:MM`.
#[tactic(auto, unfolding(crate::specs::Zone::fixed_seconds))]
fn fixed_seconds(text: &[u8]) -> Option<i32>
    ensures { result ≡ fixed_seconds text.now }
{
    let [
        sign,
        h1 @ b'0'..=b'9',
        h2 @ b'0'..=b'9',
        b':',
        m1 @ b'0'..=b'9',
        m2 @ b'0'..=b'9',
    ] = text
    else {
        return None;
    };
    let hours = (*h1 - b'0') * 10 + (*h2 - b'0');
    let minutes = (*m1 - b'0') * 10 + (*m2 - b'0');
    seconds_of(*sign, hours, minutes)
}

#[tactic(auto, using(crate::proofs::Zones::offset_made))]
fn offset_of(seconds: i32) -> Option<Offset>
    ensures { result ≡ offset_of seconds }
{
    Offset::from_seconds(seconds).ok()
}

#[tactic(auto, unfolding(crate::specs::Zone::fixed_zone_of))]
fn read_fixed(text: &str) -> Option<Zone>
    ensures { result ≡ fixed_zone_of text.now }
{
    let seconds = fixed_seconds(text.as_bytes())?;
    let offset = offset_of(seconds)?;
    Some(Zone {
        rules: TimeZone::fixed(offset),
    })
}

#[tactic(auto, using(crate::proofs::Zones::rule_read, crate::proofs::Zones::no_rule_read))]
fn read_rule(text: &str) -> Option<Zone>
    ensures { result ≡ rule_zone_of text.now }
{
    match TimeZone::posix(text) {
        Ok(rules) => Some(Zone { rules }),
        Err(_) => None,
    }
}

impl Zone {
    /// The zone that a text names: `+HH:MM` or `-HH:MM` with hours to 23 and minutes to 59, or else a POSIX rule, as
    /// `CET-1CEST,M3.5.0,M10.5.0/3`, that `jiff` reads.
    #[tactic(auto, unfolding(crate::specs::Zone::zone_of))]
    pub fn read(text: &str) -> Option<Zone>
        ensures { result ≡ zone_of text.now }
    {
        match read_fixed(text) {
            Some(zone) => Some(zone),
            None => read_rule(text),
        }
    }

    /// What a clock in the zone shows at the instant.
    #[tactic(auto, using(crate::proofs::Zones::offset_without_names))]
    pub fn local(&self, instant: Timestamp) -> DateTime
        ensures { civil_nanos result ≡ instant.nanosecond +ℤ nanos_of_seconds (offset_at self.now instant.nanosecond) }
    {
        self.rules.to_datetime(instant)
    }
}

impl FromText for Zone {
    ghost use Rattle.ocpi_types.specs.Zone.{zone_of};
    ghost use Rattle.ocpi_json.specs.declared.expected.Expected.TheVariants as expected;

    ghost of_text = { zone_of };

    ghost expects = { expected.Zone };

    fn from_text(text: &str) -> Option<Zone> {
        Zone::read(text)
    }

    fn expected() -> Expected {
        Expected::Zone
    }
}
