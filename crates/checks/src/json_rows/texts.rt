//! Texts that are kept: OCPI 2.2.1, chapter Types, says what a CiString is.

use super::rows::Rows;
use indexmap::IndexMap;
use ocpi_json::ci_text::CiText;
use ocpi_json::text::Text;
use std::alloc::Global;
use std::cmp::Ordering;
use std::hash::{DefaultHasher, Hash, Hasher};
use std::io;

// Two texts, and their order with letters folded.
fn pairs() -> [(&'static str, &'static str, &'static str, Ordering); 7] {
    [
        ("letters in other cases", "NLmsa", "nlMSA", Ordering::Equal),
        ("empty texts", "", "", Ordering::Equal),
        ("a before B", "a", "B", Ordering::Less),
        ("B behind a", "B", "a", Ordering::Greater),
        ("a beginning", "Ab", "aBc", Ordering::Less),
        ("brackets", "[", "{", Ordering::Less),
        ("signs around letters", "@", "`", Ordering::Less),
    ]
}

fn hash_of(text: &CiText<6>) -> u64 {
    let mut state = DefaultHasher::new();
    text.hash(&mut state);
    state.finish()
}

// Whether the texts are in this order, and are equal and have one hash where it says so and nowhere else.
fn is_ordered(ours: &str, theirs: &str, order: Ordering) -> bool {
    let (Some(ours), Some(theirs)) = (CiText::<6>::new(ours), CiText::<6>::new(theirs)) else {
        return false;
    };
    let same = order == Ordering::Equal;
    ours.cmp(&theirs) == order
        && (ours == theirs) == same
        && (hash_of(&ours) == hash_of(&theirs)) == same
}

fn tell_order(rows: &mut Rows<'_>) -> io::Result<()> {
    for (what, ours, theirs, order) in pairs() {
        rows.tell("order", what, is_ordered(ours, theirs, order))?;
    }
    Ok(())
}

// Texts, and whether they are printable and fit into nine bytes.
fn printable() -> [(&'static str, &'static str, bool); 7] {
    [
        ("an empty text", "", true),
        ("the first and the last printable character", " ~", true),
        ("nine bytes", "NL*tnm*E1", true),
        ("ten bytes", "NL*tnm*E12", false),
        ("the character behind the last", "a\x7f", false),
        ("the character before the first", "\x1f", false),
        ("a letter beyond ASCII", "é", false),
    ]
}

fn is_kept(text: &str) -> bool {
    match CiText::<9>::new(text) {
        Some(kept) => kept.as_str() == text,
        None => false,
    }
}

fn tell_kept(rows: &mut Rows<'_>) -> io::Result<()> {
    for (what, text, kept) in printable() {
        rows.tell("kept", what, is_kept(text) == kept)?;
    }
    Ok(())
}

// How many places a text has that was put in two spellings, the place by a third, and the place of another text.
fn places_of(alloc: Global) -> Option<(usize, Option<u32>, Option<u32>)> {
    let mut places = IndexMap::new(alloc);
    places.insert(CiText::<6>::new("NL-TNM")?, 1u32).ok()?;
    places.insert(CiText::<6>::new("nl-tnm")?, 3u32).ok()?;
    let found = places.get(&CiText::<6>::new("Nl-Tnm")?).copied();
    let other = places.get(&CiText::<6>::new("NL-TN")?).copied();
    Some((places.len(), found, other))
}

fn is_copied(alloc: Global, text: &str) -> bool {
    let Ok(kept) = Text::new(alloc, text) else {
        return false;
    };
    match kept.copy(alloc) {
        Ok(copy) => copy == kept && copy.as_str() == text,
        Err(_) => false,
    }
}

/// Tells how texts are kept.
pub fn tell(rows: &mut Rows<'_>, alloc: Global) -> io::Result<()> {
    tell_order(rows)?;
    tell_kept(rows)?;
    rows.tell(
        "key",
        "three spellings",
        places_of(alloc) == Some((1, Some(3), None)),
    )?;
    rows.tell("copy", "an empty text", is_copied(alloc, ""))?;
    rows.tell(
        "copy",
        "a letter beyond ASCII",
        is_copied(alloc, "Überlingen\n"),
    )
}
