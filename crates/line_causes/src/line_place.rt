//! The place where a line is wrong.

ghost use Rattle.std.specs.Prelude.{◌≡◌};
ghost use Rattle.line_causes.specs.LinePlace.{place_of, place_of_fault, place_of_request};

use crate::line_cause::LineCause;
use cdr_checks::Place;
use house_causes::RequestCause;
use ocpi_json::MemberFault;
use ocpi_json::name::Name;
use std::fmt;

/// The place where a line is wrong.
#[derive(Clone, Copy)]
pub enum LinePlace {
    /// No place in the line.
    Nowhere,
    /// A column, in characters from 1.
    Column(usize),
    /// A member of the line.
    Member(Place),
}

/// Writes the path of the member, as `cdr.charging_periods[3].dimensions[0].volume`, or the column, as `column 17`.
impl fmt::Display for LinePlace {
    ghost use Rattle.std.specs.Prelude.{Some};
    ghost use Rattle.line_causes.specs.LinePlace.{place_text};

    ghost output = { λ place. Some (place_text place) };

    #[tactic(auto, unfolding(crate::specs::LinePlace::place_text))]
    fn fmt<W: fmt::Write>(&self, f: &mut fmt::Formatter<W>) -> fmt::Result {
        match self {
            LinePlace::Nowhere => Ok(()),
            LinePlace::Column(column) => write!(f, "column {column}"),
            LinePlace::Member(Place { around, member }) => write!(f, "{around}{member}"),
        }
    }
}

fn place_of_fault(fault: &MemberFault) -> LinePlace
    ensures { result ≡ place_of_fault fault.now }
{
    LinePlace::Member(Place {
        around: fault.around,
        member: fault.member,
    })
}

fn place_of_request(cause: &RequestCause) -> LinePlace
    ensures { result ≡ place_of_request cause.now }
{
    match cause {
        RequestCause::NotAdmitted(cause) => LinePlace::Member(cause.place),
        RequestCause::ByHouse(cause) => match cause.place {
            Some(place) => LinePlace::Member(place),
            None => LinePlace::Nowhere,
        },
    }
}

/// Returns the place where the line is wrong.
pub fn place_in(cause: &LineCause) -> LinePlace
    ensures { result ≡ place_of cause.now }
{
    match cause {
        LineCause::NotUtf8 { column } | LineCause::NotJson { column } => LinePlace::Column(*column),
        LineCause::Member { fault, .. } => place_of_fault(fault),
        LineCause::Request(cause) => place_of_request(cause),
        LineCause::ComesOutOtherwise { .. } => LinePlace::Member(Place::at(Name::Configuration)),
        LineCause::IdOfAnotherLine { .. } => LinePlace::Member(Place::at(Name::RequestId)),
        LineCause::Unknown => LinePlace::Nowhere,
    }
}
