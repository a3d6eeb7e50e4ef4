//! The cause of a line in words.

ghost use Rattle.std.specs.Prelude.{◌≡◌};
ghost use Rattle.line_causes.specs.Words.{member_words, request_words, words_of};

use crate::house_columns::house_words;
use crate::line_cause::LineCause;
use crate::reason_columns::reason_words;
use house_causes::RequestCause;
use ocpi_json::Expected;

fn request_words(cause: &RequestCause) -> &'static str
    ensures { result.now ≡ request_words cause.now }
{
    match cause {
        RequestCause::NotAdmitted(cause) => reason_words(&cause.reason),
        RequestCause::ByHouse(cause) => house_words(&cause.reason),
    }
}

// Returns the words for a member, if a value is found in its place or not.
fn member_words(expected: Expected, is_found: bool) -> &'static str
    ensures { result.now ≡ member_words expected is_found }
{
    match expected {
        Expected::Hub => "no hub",
        _ if is_found => "of a wrong kind or out of bounds",
        _ => "missing",
    }
}

/// Returns the cause in words; empty if none is known.
pub fn words_of(cause: &LineCause) -> &'static str
    ensures { result.now ≡ words_of cause.now }
{
    match cause {
        LineCause::NotUtf8 { .. } => "no UTF-8",
        LineCause::NotJson { .. } => "no JSON",
        LineCause::Member { fault, found, .. } => member_words(fault.expected, found.is_some()),
        LineCause::Request(cause) => request_words(cause),
        LineCause::ComesOutOtherwise { .. } => "an event would come out otherwise",
        LineCause::IdOfAnotherLine { .. } => "given to another line",
        LineCause::Unknown => "",
    }
}
