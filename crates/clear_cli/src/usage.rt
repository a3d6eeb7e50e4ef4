//! What is printed of words that ask for nothing that the program does.

use crate::help::{command_or_program, program};
use clap::Error;
use clap::error::ErrorKind;
use input_reports::zone_words;
use std::alloc::{AllocError, Global};
use std::io;

// Whether the command of this name takes a zone.
fn takes_zone(name: &str) -> bool {
    matches!(
        name,
        "rate" | "explain_cost" | "explain-cost" | "re_rate" | "re-rate"
    )
}

// Returns why the words after the name of a command are not taken, which clap would take.
fn reason(alloc: Global, name: &str, words: &[String]) -> Result<String, AllocError> {
    match words.last() {
        Some(zone) if takes_zone(name) && words.len() <= 2 => zone_words(alloc, zone.as_str()),
        _ => String::from_str(alloc, "the arguments have another form than the help says"),
    }
}

// Returns the error of words that clap would take, in its form.
fn not_taken(alloc: Global, words: &[String]) -> Result<Error, Error> {
    let (name, rest) = match words {
        [_, name, rest @ ..] => (name.as_str(), rest),
        _ => ("", words),
    };
    let reason = reason(alloc, name, rest)?;
    let mut command = command_or_program(alloc, name)?;
    Ok(command.error(ErrorKind::ValueValidation, reason.as_str())?)
}

// Returns the error of the words, the program's name first.
fn error_of(alloc: Global, words: &[String]) -> Result<Error, Error> {
    let behind = match words {
        [_, behind @ ..] => behind,
        [] => words,
    };
    let parsed = program(alloc)?
        .no_binary_name(true)
        .try_get_matches_from(behind);
    match parsed {
        Ok(_) => not_taken(alloc, words),
        Err(error) => {
            if error.use_stderr() {
                Ok(error)
            } else {
                not_taken(alloc, words)
            }
        }
    }
}

/// Prints on standard error why the words are not taken, the program's name first; nothing if an allocation fails.
pub fn explain(rt: &HostRuntime, words: &[String]) -> io::Result<()> {
    let Ok(error) = error_of(rt.alloc(), words) else {
        return Ok(());
    };
    match error.kind() {
        ErrorKind::OutOfMemory => Ok(()),
        _ => eprint!(rt; "{error}"),
    }
}
