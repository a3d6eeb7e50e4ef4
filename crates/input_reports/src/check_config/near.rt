//! The known name that was meant by a misspelt one.

ghost use Rattle.std.specs.Prelude.{◌≡◌, IfOk, find};
ghost use Rattle.input_reports.specs.check_config.Known.{is_near, meant_by};

use ocpi_json::name::Name;
use std::alloc::{AllocError, Global};
use strsim::levenshtein;

/// No known name is so long.
const LONGEST: usize = 64;

// The name is at most two letters away from the key.
fn is_near(alloc: Global, name: Name, key: &str) -> Result<bool, AllocError>
    ensures { IfOk result (λ near. near ≡ is_near key.now name) }
{
    Ok(levenshtein(alloc, name.key(), key)? <= 2)
}

fn first_near(alloc: Global, names: &[Name], key: &str) -> Result<Option<Name>, AllocError>
    ensures { IfOk result (λ found. found ≡ find (is_near key.now) names.now) }
{
    for name in names {
        if is_near(alloc, *name, key)? {
            return Ok(Some(*name));
        }
    }
    Ok(None)
}

/// The first of the names that is at most two letters away from the key, whose letters are folded.
pub fn meant(alloc: Global, names: &[Name], key: &str) -> Result<Option<Name>, AllocError>
    ensures { IfOk result (λ found. found ≡ meant_by key.now names.now) }
{
    if LONGEST < key.len() {
        return Ok(None);
    }
    let folded = key.to_ascii_lowercase(alloc)?;
    first_near(alloc, names, folded.as_str())
}
