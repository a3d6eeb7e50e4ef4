//! The places of events.

ghost use Rattle.std.specs.Prelude.{◌≡◌, ◌<◌, Some, None, if◌then◌else◌};
ghost use Rattle.std.specs.Option.{option_or};
ghost use Rattle.indexmap.specs.IndexMap.{get, spare};
ghost use Rattle.known_events.specs.Inner.Firsts.{is_key};
ghost use Rattle.known_events.specs.Inner.Lesser.{lesser};

use operator_book::Places;
use std::hash::Hash;

/// Puts the place of an event at its key, if it has one and if no earlier event has that key. It does not allocate.
pub fn put<K: Eq + Hash + Copy + Drop>(places: &mut Places<K>, key: Option<K>, place: usize)
    requires { 0 < spare places.old.firsts }
    ensures { (asked : K) → get K.eq places.new.firsts asked
        ≡ option_or (get K.eq places.old.firsts asked) (if is_key K.eq asked key then Some place else None) }
{
    if let Some(key) = key {
        places.put(key, place);
    }
}

/// Returns the lesser of two places, of those that are there.
pub fn lesser(one: Option<usize>, other: Option<usize>) -> Option<usize>
    ensures { result ≡ lesser one other }
{
    match (one, other) {
        (Some(one), Some(other)) => Some(if other < one { other } else { one }),
        (Some(one), None) => Some(one),
        (None, other) => other,
    }
}
