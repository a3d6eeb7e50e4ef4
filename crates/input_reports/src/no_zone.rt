//! What is said of a word that is no zone.

use ocpi_json::Expected;
use std::alloc::{AllocError, Global};
use strsim::levenshtein;

const UTC: &str = "UTC0";

const LISBON: &str = "WET0WEST,M3.5.0/1,M10.5.0";

const LONDON: &str = "GMT0BST,M3.5.0/1,M10.5.0";

const AMSTERDAM: &str = "CET-1CEST,M3.5.0,M10.5.0/3";

const HELSINKI: &str = "EET-2EEST,M3.5.0/3,M10.5.0/4";

/// How zones are called, and how they are written.
const KNOWN: [(&str, &str); 15] = [
    ("UTC", UTC),
    (UTC, UTC),
    ("WET", LISBON),
    ("Europe/Lisbon", LISBON),
    (LISBON, LISBON),
    ("GMT", LONDON),
    ("Europe/London", LONDON),
    (LONDON, LONDON),
    ("CET", AMSTERDAM),
    ("CET-1CEST", AMSTERDAM),
    ("Europe/Amsterdam", AMSTERDAM),
    (AMSTERDAM, AMSTERDAM),
    ("EET", HELSINKI),
    ("Europe/Helsinki", HELSINKI),
    (HELSINKI, HELSINKI),
];

/// A zone is meant that is called so with at most so many other letters, and not only with others.
const MOST_LETTERS: usize = 2;

/// No word for a zone is so long.
const LONGEST: usize = 64;

// The zone that is called most like the word, if one is.
fn meant(alloc: Global, word: &str) -> Result<Option<&'static str>, AllocError> {
    if LONGEST < word.len() {
        return Ok(None);
    }
    let mut least = MOST_LETTERS + 1;
    let mut found = None;
    for (name, zone) in KNOWN {
        let letters = levenshtein(alloc, name, word)?;
        if letters < least && letters < word.len() {
            least = letters;
            found = Some(zone);
        }
    }
    Ok(found)
}

/// Returns what is said of a word that is no zone: what it has to be, and the zone that may be meant.
///
/// # Errors
///
/// `AllocError` if an allocation fails.
pub fn zone_words(alloc: Global, word: &str) -> Result<String, AllocError> {
    let expected = Expected::Zone;
    let mut text = format!(in alloc; "invalid value {word:?} for '<ZONE>': expected {expected}")?;
    if let Some(zone) = meant(alloc, word)? {
        write!(text, "\n\n  tip: a similar zone exists: '{zone}'")?;
    }
    Ok(text)
}
