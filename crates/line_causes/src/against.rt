//! The value that a line's value is compared with.

ghost use Rattle.std.specs.Prelude.{◌≡◌};
ghost use Rattle.line_causes.specs.Against.{against_of, member_against, request_against};

use crate::house_columns::house_against;
use crate::line_cause::LineCause;
use crate::reason_columns::reason_against;
use crate::value::Value;
use house_causes::RequestCause;
use ocpi_json::Expected;

fn request_against(cause: &RequestCause) -> Value
    ensures { result ≡ request_against cause.now }
{
    match cause {
        RequestCause::NotAdmitted(cause) => reason_against(&cause.reason),
        RequestCause::ByHouse(cause) => house_against(&cause.reason),
    }
}

fn member_against(expected: Expected, of_stream: bool) -> Value
    ensures { result ≡ member_against expected of_stream }
{
    match expected {
        Expected::Hub => Value::Nothing,
        Expected::Command if of_stream => Value::StreamCommand,
        other => Value::Expected(other),
    }
}

/// Returns the value that the line's value is compared with.
pub fn against_in(cause: &LineCause) -> Value
    ensures { result ≡ against_of cause.now }
{
    match cause {
        LineCause::Member {
            fault,
            of_stream,
            ..
        } => member_against(fault.expected, *of_stream),
        LineCause::Request(cause) => request_against(cause),
        LineCause::NotUtf8 { .. }
        | LineCause::NotJson { .. }
        | LineCause::ComesOutOtherwise { .. }
        | LineCause::IdOfAnotherLine { .. }
        | LineCause::Unknown => Value::Nothing,
    }
}
