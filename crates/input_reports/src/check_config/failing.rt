//! What is said of the member of a configuration that is at fault.

ghost use Rattle.std.specs.Prelude.{◌≡◌};
ghost use Rattle.input_reports.specs.check_config.Known.{item_keys};

use super::alike::second_alike;
use command_line::text_of_found;
use ocpi_json::name::Name;
use ocpi_json::{Expected, MemberFault, Node, standing_at};
use ocpi_types::Party;
use std::alloc::{AllocError, Global};

/// The members by which the items of a list differ; of none, the items are texts that differ.
fn item_keys(list: Name) -> &'static [Name]
    ensures { result.now ≡ item_keys list }
{
    match list {
        Name::Operators | Name::Providers => &[Name::Party],
        Name::Platforms => &[Name::Name],
        Name::PairLimits => &[Name::Operator, Name::Provider, Name::Currency],
        Name::Limits => &[Name::Currency],
        _ => &[],
    }
}

// What stands there is a party, or a currency, that is not configured.
fn is_not_configured(expected: Expected, found: &Node) -> bool {
    match expected {
        Expected::ListedCurrency | Expected::ListedOperator | Expected::ListedProvider => true,
        Expected::ListedParty => match found.as_str() {
            Some(text) => Party::read(text).is_some(),
            None => false,
        },
        _ => false,
    }
}

fn path(alloc: Global, fault: &MemberFault) -> Result<String, AllocError> {
    let mut path = fault.around.to_string(alloc)?;
    write!(path, "{}", fault.member)?;
    Ok(path)
}

fn twice(alloc: Global, fault: &MemberFault, list: &Node) -> Result<String, AllocError> {
    let mut line = path(alloc, fault)?;
    if let Some(item) = second_alike(list, item_keys(fault.member.name())) {
        write!(line, "[{item}]")?;
    }
    line.push_str(": stands twice")?;
    Ok(line)
}

fn unfit(alloc: Global, fault: &MemberFault, found: &Node) -> Result<String, AllocError> {
    let mut line = path(alloc, fault)?;
    if is_not_configured(fault.expected, found) {
        line.push_str(": not configured")?;
    }
    let expected = fault.expected;
    let found = text_of_found(alloc, Some(found))?;
    write!(line, ": expected {expected}, found {found}")?;
    Ok(line)
}

fn missing(alloc: Global, fault: &MemberFault) -> Result<String, AllocError> {
    let mut line = path(alloc, fault)?;
    line.push_str(": missing")?;
    Ok(line)
}

/// What is said of the member that is at fault: where it stands, what it has to be, and what stands there.
pub fn failing_line(alloc: Global, whole: Node, fault: &MemberFault) -> Result<String, AllocError> {
    match standing_at(whole, fault) {
        None => missing(alloc, fault),
        Some(found) if fault.expected == Expected::Different => twice(alloc, fault, &found),
        Some(found) => unfit(alloc, fault, &found),
    }
}
