//! Values compared exactly: texts as they are written, no letters folded.

ghost use Rattle.std.specs.Prelude.{◌≡◌, ◌↔◌, true};

use crate::ci_text::CiText;
use crate::name::Name;
use crate::sequence::Sequence;
use crate::text::Text;
use exact_money::{Amount, Millionths};
use jiff::Timestamp;
use jiff::civil::{Date, Time};

/// Values that can be told apart exactly.
pub trait Same {
    /// They are one value.
    fn is_same(&self, other: &Self) -> bool
        ensures { (result ≡ true) ↔ (self.now ≡ other.now) };
}

impl Same for bool {
    fn is_same(&self, other: &bool) -> bool {
        *self == *other
    }
}

impl Same for i16 {
    fn is_same(&self, other: &i16) -> bool {
        *self == *other
    }
}

impl Same for u64 {
    fn is_same(&self, other: &u64) -> bool {
        *self == *other
    }
}

impl Same for Name {
    fn is_same(&self, other: &Name) -> bool {
        self.key() == other.key()
    }
}

impl Same for Amount {
    fn is_same(&self, other: &Amount) -> bool {
        self.ten_thousandths() == other.ten_thousandths()
    }
}

impl Same for Millionths {
    fn is_same(&self, other: &Millionths) -> bool {
        self.get() == other.get()
    }
}

impl Same for Timestamp {
    #[tactic(auto, using(crate::proofs::MomentsAlike::same_instants))]
    fn is_same(&self, other: &Timestamp) -> bool {
        self.as_nanosecond() == other.as_nanosecond()
    }
}

impl Same for Time {
    #[tactic(auto, using(crate::proofs::MomentsAlike::same_times))]
    fn is_same(&self, other: &Time) -> bool {
        let (ours, theirs) = (self.to_plain(), other.to_plain());
        ours.hour == theirs.hour
            && ours.minute == theirs.minute
            && ours.second == theirs.second
            && ours.subsec_nanosecond == theirs.subsec_nanosecond
    }
}

impl Same for Date {
    #[tactic(auto, using(crate::proofs::MomentsAlike::same_dates))]
    fn is_same(&self, other: &Date) -> bool {
        let (ours, theirs) = (self.to_plain(), other.to_plain());
        if !ours.year.is_same(&theirs.year) {
            return false;
        }
        ours.month == theirs.month && ours.day == theirs.day
    }
}

impl<const MOST: usize> Same for CiText<MOST> {
    fn is_same(&self, other: &CiText<MOST>) -> bool {
        self.is_written_like(other)
    }
}

impl Same for Text {
    fn is_same(&self, other: &Text) -> bool {
        self.as_str() == other.as_str()
    }
}

impl<T: Same> Same for Option<T> {
    fn is_same(&self, other: &Option<T>) -> bool {
        match (self, other) {
            (Some(ours), Some(theirs)) => ours.is_same(theirs),
            (None, None) => true,
            (Some(_), None) | (None, Some(_)) => false,
        }
    }
}

impl<T: Same, E: Same> Same for Result<T, E> {
    fn is_same(&self, other: &Result<T, E>) -> bool {
        match (self, other) {
            (Ok(ours), Ok(theirs)) => ours.is_same(theirs),
            (Err(ours), Err(theirs)) => ours.is_same(theirs),
            (Ok(_), Err(_)) | (Err(_), Ok(_)) => false,
        }
    }
}

/// The items of two lists are the same, one by one.
pub fn are_same<T: Same>(ours: &[T], theirs: &[T]) -> bool
    ensures { (result ≡ true) ↔ (ours.now ≡ theirs.now) }
{
    let mut our_rest = ours;
    let mut their_rest = theirs;
    while let Some((item, our_later)) = our_rest.split_first() {
        let Some((other, their_later)) = their_rest.split_first() else {
            return false;
        };
        if !item.is_same(other) {
            return false;
        }
        our_rest = our_later;
        their_rest = their_later;
    }
    their_rest.is_empty()
}

impl<T: Same> Same for Sequence<T> {
    fn is_same(&self, other: &Sequence<T>) -> bool {
        are_same(self.as_slice(), other.as_slice())
    }
}
