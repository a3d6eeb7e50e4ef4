//! The value in a line that is wrong.

ghost use Rattle.std.specs.Prelude.{◌≡◌};
ghost use Rattle.line_causes.specs.Found.{found_of, member_found, request_found};

use crate::house_columns::house_found;
use crate::line_cause::LineCause;
use crate::reason_columns::reason_found;
use crate::value::Value;
use house_causes::RequestCause;
use ocpi_json::Expected;
use ocpi_json::ci_text::CiText;

fn request_found(cause: &RequestCause) -> Value
    ensures { result ≡ request_found cause.now }
{
    match cause {
        RequestCause::NotAdmitted(cause) => reason_found(&cause.reason),
        RequestCause::ByHouse(cause) => house_found(&cause.reason),
    }
}

fn member_found(expected: Expected, found: Option<CiText<64>>) -> Value
    ensures { result ≡ member_found expected found }
{
    match (expected, found) {
        (Expected::Hub, _) => Value::Nothing,
        (_, Some(text)) => Value::Written(text),
        (_, None) => Value::Absent,
    }
}

/// Returns the value in the line that is wrong.
pub fn found_in(cause: &LineCause) -> Value
    ensures { result ≡ found_of cause.now }
{
    match cause {
        LineCause::Member { fault, found, .. } => member_found(fault.expected, *found),
        LineCause::Request(cause) => request_found(cause),
        LineCause::ComesOutOtherwise { kind, .. } => Value::Written(*kind),
        LineCause::IdOfAnotherLine { id } => Value::Written(*id),
        LineCause::NotUtf8 { .. } | LineCause::NotJson { .. } | LineCause::Unknown => {
            Value::Nothing
        }
    }
}
