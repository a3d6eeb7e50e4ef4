//! The record that begins a store: the format of the store, the version of the program that made it, and the text of the configuration.

ghost use Rattle.std.specs.Prelude.{◌≡◌, ◌⊎◌, ◌++◌, ℕ, List, codes, IfErr, IfOk, IfSome};
ghost use Rattle.kept_house.specs.Record.{HasConfig, HasNoQuote, byte_in_line, first_record, on_one_line};

use crate::fault::{StoreFault, Word};
use kept_answers::KeepFault;
use memchr::memchr;
use ocpi_json::ci_text::CiText;
use std::alloc::{AllocError, Global};
use std::str;

const FORMAT: &str = "{\"format\":";

const START: &str = "{\"format\":1,\"program\":\"";

/// What is between the program and the configuration in a record of version 0.1.0.
const FIRST_MIDDLE: &str = "\",\"config\":";

const STREAM: &str = "\",\"stream\":[";

/// Lines may change the configuration, and may have request ids.
const WORDS: &str = "\"configure\",\"request_id\"";

const CONFIG: &str = "],\"config\":";

/// More words than the list of a record has.
const MOST_WORDS: u64 = 64;

/// A byte of a text on one line.
fn in_line(byte: &u8) -> u8
    ensures { result ≡ byte_in_line byte.now }
{
    if *byte == b'\n' { b' ' } else { *byte }
}

/// Returns a text with a space in the place of each newline.
pub fn on_one_line(alloc: Global, text: &[u8]) -> Result<Vec<u8>, AllocError>
    ensures { IfOk result (λ copy. copy.items ≡ on_one_line text.now) }
{
    text.iter().map(in_line).collect::<Vec<u8>>(alloc)
}

/// The record of a store that begins by this version of the program under this configuration.
pub fn first_record(alloc: Global, program: &str, config: &[u8]) -> Result<Vec<u8>, AllocError>
    ensures { IfOk result (λ line. line.items ≡ first_record program.now config.now) }
{
    let mut line = Vec::new(alloc);
    line.extend_from_slice(START.as_bytes())?;
    line.extend_from_slice(program.as_bytes())?;
    line.extend_from_slice(STREAM.as_bytes())?;
    line.extend_from_slice(WORDS.as_bytes())?;
    line.extend_from_slice(CONFIG.as_bytes())?;
    line.extend_from_slice(on_one_line(alloc, config)?.as_slice())?;
    line.push(b'}')?;
    Ok(line)
}

/// What comes after a text that begins with another.
fn after<'a>(text: &'a [u8], start: &str) -> Option<&'a [u8]>
    ensures { IfSome result (λ rest. text.now ≡ start.now ++ rest.now) }
{
    let (front, rest) = text.split_at_checked(start.len())?;
    if front != start.as_bytes() {
        return None;
    }
    Some(rest)
}

/// A text from its first quotation mark on.
fn from_quote(text: &[u8]) -> Option<&[u8]>
    ensures { IfSome result (λ rest. (before : List ℕ) × HasNoQuote before × (text.now ≡ before ++ rest.now)) }
{
    let (_, rest) = text.split_at_checked(memchr(b'"', text)?)?;
    Some(rest)
}

/// A text that ends with a brace, without it.
fn before_brace(text: &[u8]) -> Option<&[u8]>
    ensures { IfSome result (λ front. text.now ≡ front.now ++ codes "}") }
{
    let (&last, front) = text.split_last()?;
    if last != b'}' {
        return None;
    }
    Some(front)
}

/// What comes after the list of what the lines may be.
fn after_list(text: &[u8]) -> Option<&[u8]>
    ensures { IfSome result (λ rest. text.now ≡ codes "\",\"stream\":[\"configure\",\"request_id\"],\"config\":" ++ rest.now) }
{
    let words = after(text, STREAM)?;
    let end = after(words, WORDS)?;
    after(end, CONFIG)
}

/// The configuration of a record after its first member, if it has the middle of either form.
fn config_after(text: &[u8]) -> Option<&[u8]>
    ensures { IfSome result (λ config. (program : List ℕ) × HasNoQuote program
        × ((text.now ≡ program ++ (codes "\",\"config\":" ++ (config.now ++ codes "}")))
        ⊎ (text.now ≡ program ++ (codes "\",\"stream\":[\"configure\",\"request_id\"],\"config\":" ++ (config.now ++ codes "}"))))) }
{
    let rest = from_quote(text)?;
    if let Some(config) = after_list(rest) {
        return before_brace(config);
    }
    before_brace(after(rest, FIRST_MIDDLE)?)
}

/// The word in quotation marks that a text begins with, and what comes after it.
fn first_word(text: &[u8]) -> Option<(&[u8], &[u8])> {
    let text = after(text, "\"")?;
    let (word, rest) = text.split_at_checked(memchr(b'"', text)?)?;
    Some((word, after(rest, "\"")?))
}

/// The first word of a record's list that this program does not know, if the record has a list, and a word of at most 36 characters.
fn unknown_word(text: &[u8]) -> Option<CiText<36>> {
    let mut rest = after(from_quote(text)?, STREAM)?;
    for number in 0..MOST_WORDS {
        let (word, later) = first_word(rest)?;
        if word != b"configure".as_slice() && word != b"request_id".as_slice() {
            return CiText::new(str::from_utf8(word).ok()?);
        }
        rest = after(later, ",")?;
    }
    None
}

/// The text of the configuration of a record.
///
/// # Errors
///
/// `LaterFormat` if the record has another format, `LaterLines` if the lines of the store may be what this program does not know, `NoStore`
/// if it is no record.
pub fn config_in(line: &[u8]) -> Result<&[u8], StoreFault>
    ensures ok { IfOk result (λ config. HasConfig line.now config.now) }
    ensures damaged { IfErr result (λ fault. (at : ℕ) → fault ≡ StoreFault.Keep (KeepFault.Damaged at) → ⊥) }
{
    let Some(text) = after(line, START) else {
        return Err(if line.starts_with(FORMAT.as_bytes()) {
            StoreFault::LaterFormat
        } else {
            StoreFault::NoStore
        });
    };
    if let Some(config) = config_after(text) {
        return Ok(config);
    }
    match unknown_word(text) {
        Some(word) => Err(StoreFault::LaterLines(Word(word))),
        None => Err(StoreFault::NoStore),
    }
}
