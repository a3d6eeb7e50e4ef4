//! The members of a configuration that are passed over.

ghost use Rattle.std.specs.Prelude.{◌≡◌, ◌==◌};
ghost use Rattle.std.specs.Cmp.Lexicographic.{pointwise};
ghost use Rattle.std.specs.List.{list_any};
ghost use Rattle.input_reports.specs.check_config.Causes.{cause, is_of_version_2};
ghost use Rattle.input_reports.specs.check_config.Known.{known_by};

use super::near::meant;
use super::objects::{ConfigObject, Found, is_of_version_1};
use super::spelled::Spelled;
use ocpi_json::Node;
use ocpi_json::name::Name;
use std::alloc::{AllocError, Global};

/// Why a member is passed over.
#[derive(Clone, Copy)]
enum Cause {
    /// Its object has no member of that name.
    Unknown,
    /// Version 1 has no member of that name.
    OfVersion2,
    /// Another member of the same name comes later, and stands.
    Repeated,
}

fn known(object: ConfigObject, key: &str) -> Option<Name>
    ensures { result ≡ known_by key.now object }
{
    object
        .members()
        .iter()
        .copied()
        .find(|name| name.key() == key)
}

fn is_of_version_2(name: Name) -> bool
    ensures { result ≡ is_of_version_2 name }
{
    matches!(name, Name::PairLimits | Name::CreditWindow)
}

fn is_repeated(key: &str, later: &[&str]) -> bool
    ensures { result ≡ list_any (λ other. pointwise ◌==◌ other.now key.now) later.now }
{
    later.iter().any(|other| *other == key)
}

// Why the member of that key is passed over, where others come later in its object.
fn cause_of(is_version_1: bool, object: ConfigObject, key: &str, later: &[&str]) -> Option<Cause>
    ensures { result ≡ cause (known_by key.now object) is_version_1 (list_any (λ other. pointwise ◌==◌ other.now key.now) later.now) }
{
    let Some(name) = known(object, key) else {
        return Some(Cause::Unknown);
    };
    if is_version_1 && is_of_version_2(name) {
        return Some(Cause::OfVersion2);
    }
    if is_repeated(key, later) {
        return Some(Cause::Repeated);
    }
    None
}

fn write_line(
    alloc: Global,
    lines: &mut String,
    object: ConfigObject,
    key: &str,
    cause: Cause,
) -> Result<(), AllocError> {
    let spelled = Spelled { text: key };
    match cause {
        Cause::Unknown => match meant(alloc, object.members(), key)? {
            Some(name) => writeln!(lines, "passed over: {object}{spelled} ({}?)", name.key()),
            None => writeln!(lines, "passed over: {object}{spelled}"),
        },
        Cause::OfVersion2 => writeln!(lines, "passed over: {object}{spelled} (version 2 only)"),
        Cause::Repeated => writeln!(lines, "passed over: {object}{spelled} (a later one stands)"),
    }
}

fn write_members(
    alloc: Global,
    lines: &mut String,
    is_version_1: bool,
    object: ConfigObject,
    keys: &[&str],
) -> Result<(), AllocError> {
    for (index, key) in keys.iter().enumerate() {
        let later = &keys[index + 1..];
        if let Some(cause) = cause_of(is_version_1, object, key, later) {
            write_line(alloc, lines, object, key, cause)?;
        }
    }
    Ok(())
}

fn write_object(
    alloc: Global,
    lines: &mut String,
    is_version_1: bool,
    object: ConfigObject,
    node: &Node,
) -> Result<(), AllocError> {
    let Some(members) = node.members() else {
        return Ok(());
    };
    let keys: Vec<&str> = members.map(|(key, _)| key).collect(alloc)?;
    write_members(alloc, lines, is_version_1, object, keys.as_slice())
}

fn write_all(
    alloc: Global,
    lines: &mut String,
    whole: &Node,
    objects: &[Found],
) -> Result<(), AllocError> {
    let is_version_1 = is_of_version_1(whole);
    write_object(alloc, lines, is_version_1, ConfigObject::Whole, whole)?;
    for found in objects {
        write_object(alloc, lines, is_version_1, found.object, &found.node)?;
    }
    Ok(())
}

/// A line for each member that is passed over, of the configuration and of the objects in it that are read.
pub fn passed_over(alloc: Global, whole: &Node, objects: &[Found]) -> Result<String, AllocError> {
    let mut lines = String::new(alloc);
    match write_all(alloc, &mut lines, whole, objects) {
        Ok(()) => Ok(lines),
        Err(AllocError) => Err(AllocError),
    }
}
