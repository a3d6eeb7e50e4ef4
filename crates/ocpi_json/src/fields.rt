//! The members of an object, by name and kind.

ghost use Rattle.std.specs.Prelude.{◌≡◌, [], map, option_map};
ghost use Rattle.std.specs.Char.{is_ascii_digit};
ghost use Rattle.std.specs.List.{list_all};
ghost use Rattle.json.specs.Find.{as_bool};
ghost use Rattle.ocpi_json.specs.Faults.{Finds};
ghost use Rattle.ocpi_json.specs.Fields.{member_at, present_at, required, optional, as_text, as_token, as_ci_text, if_ci, as_list, as_number, as_object_node, as_parsed, as_whole, whole_value, if_within, as_unsigned, if_not_negative, ascii, clock, date, flag, list, list_or_empty, misfit, moment, not_below_0, number, object, parsed, text, whole};
ghost use Rattle.ocpi_json.specs.MemberFaults.{fault_at, member_of};
ghost use Rattle.ocpi_json.specs.Members.{or_fault, shown};

use crate::ci_text::CiText;
use crate::expected::Expected;
use crate::has_members::HasMembers;
use crate::member_fault::{MemberFault, Step};
use crate::name::Name;
use crate::node::{Node, Nodes};
use crate::objects::FromText;
use crate::text::Text;
use exact_money::Millionths;
use jiff::Timestamp;
use jiff::civil::{Date, Time};
use std::alloc::{AllocError, AllocFailed, Global};
use thiserror::Error;

/// Why an object was not read.
#[derive(Clone, Copy, Debug, PartialEq, Eq, Error)]
pub enum FieldFault {
    /// The member that is missing, of another kind or out of bounds.
    #[error("Field {0}")]
    Field(MemberFault),
    #[error("no memory")]
    NoMemory,
}

impl From<AllocError> for FieldFault {
    ghost use Rattle.std.specs.Prelude.{◌≡◌};
    ghost use Rattle.ocpi_json.specs.declared.fields.FieldFault.TheVariants.{NoMemory};

    ghost from_gives = { λ _ e. e ≡ NoMemory };

    fn from(_error: AllocError) -> FieldFault {
        FieldFault::NoMemory
    }
}

impl<T: Drop> From<AllocFailed<T>> for FieldFault {
    ghost use Rattle.std.specs.Prelude.{◌≡◌};
    ghost use Rattle.ocpi_json.specs.declared.fields.FieldFault.TheVariants.{NoMemory};

    ghost from_gives = { λ _ e. e ≡ NoMemory };

    fn from(_error: AllocFailed<T>) -> FieldFault {
        FieldFault::NoMemory
    }
}

impl From<MemberFault> for FieldFault {
    ghost use Rattle.std.specs.Prelude.{◌≡◌};
    ghost use Rattle.ocpi_json.specs.declared.fields.FieldFault.TheVariants.{Field};

    ghost from_gives = { λ fault e. e ≡ Field fault };

    fn from(fault: MemberFault) -> FieldFault {
        FieldFault::Field(fault)
    }
}

// The fault of the member of that name, where it is not what it has to be.
#[cold]
#[inline(never)]
fn misfit(name: Name, expected: Expected) -> MemberFault
    ensures { result ≡ fault_at (member_of name) expected }
{
    MemberFault::at(Step::Member(name), expected)
}

// What the member of that name stands for, or its fault.
fn or_misfit<T>(found: Option<T>, name: Name, expected: Expected) -> Result<T, MemberFault>
    ensures { result ≡ or_fault (fault_at (member_of name) expected) found }
{
    match found {
        Some(value) => Ok(value),
        None => Err(misfit(name, expected)),
    }
}

fn present<'a, M: HasMembers<'a>>(node: &M, name: Name) -> Option<Node<'a>>
    ensures { result ≡ present_at name (M.object node.now) }
{
    match node.find(name) {
        Some(member) if !member.is_null() => Some(member),
        _ => None,
    }
}

fn as_text<'a>(node: &Node<'a>) -> Option<&'a str>
    ensures { option_map (λ t. t.now) result ≡ as_text node.now }
{
    node.as_str()
}

fn as_token<'a>(node: &Node<'a>) -> Option<&'a str>
    ensures { option_map (λ t. t.now) result ≡ as_token node.now }
{
    node.as_number()
}

fn if_ci<const MOST: usize>(text: &str) -> Option<CiText<MOST>>
    ensures { result ≡ if_ci MOST text.now }
{
    if text.is_empty() {
        return None;
    }
    CiText::new(text)
}

fn as_ci_text<const MOST: usize>(member: &Node) -> Option<CiText<MOST>>
    ensures { result ≡ as_ci_text MOST member.now }
{
    if_ci(as_text(member)?)
}

/// A text of 1 to `MOST` printable ASCII characters.
pub fn ci_text<'n, const MOST: usize, M: HasMembers<'n>>(
    node: &M,
    name: Name,
) -> Result<CiText<MOST>, MemberFault>
    ensures { result ≡ required (ascii MOST) name (M.object node.now) }
{
    let found = match node.find(name) {
        Some(member) => as_ci_text(&member),
        None => None,
    };
    or_misfit(found, name, Expected::Ascii { most: MOST })
}

/// The same, where the member may be missing or null.
pub fn ci_text_or_none<'n, const MOST: usize, M: HasMembers<'n>>(
    node: &M,
    name: Name,
) -> Result<Option<CiText<MOST>>, MemberFault>
    ensures { result ≡ optional (ascii MOST) name (M.object node.now) }
{
    match present(node, name) {
        Some(member) => {
            let found = as_ci_text(&member);
            Ok(Some(or_misfit(found, name, Expected::Ascii { most: MOST })?))
        }
        None => Ok(None),
    }
}

/// A text, lent by the line or its room.
pub fn word<'a, M: HasMembers<'a>>(node: &M, name: Name) -> Result<&'a str, MemberFault>
    ensures { shown (λ t. t.now) result ≡ required text name (M.object node.now) }
{
    let found = match node.find(name) {
        Some(member) => as_text(&member),
        None => None,
    };
    or_misfit(found, name, Expected::Text)
}

/// A text.
pub fn text<'n, M: HasMembers<'n>>(alloc: Global, node: &M, name: Name) -> Result<Text, FieldFault>
    ensures { Finds result (required text name (M.object node.now)) }
{
    Ok(Text::new(alloc, word(node, name)?)?)
}

/// The same, where the member may be missing or null.
pub fn text_or_none<'n, M: HasMembers<'n>>(
    alloc: Global,
    node: &M,
    name: Name,
) -> Result<Option<Text>, FieldFault>
    ensures { Finds result (optional text name (M.object node.now)) }
{
    match present(node, name) {
        Some(member) => {
            let text = or_misfit(as_text(&member), name, Expected::Text)?;
            Ok(Some(Text::new(alloc, text)?))
        }
        None => Ok(None),
    }
}

/// `true` or `false`.
pub fn flag<'n, M: HasMembers<'n>>(node: &M, name: Name) -> Result<bool, MemberFault>
    ensures { result ≡ required flag name (M.object node.now) }
{
    let found = match node.find(name) {
        Some(member) => member.as_bool(),
        None => None,
    };
    or_misfit(found, name, Expected::Flag)
}

/// The same, where the member may be missing or null.
pub fn flag_or_none<'n, M: HasMembers<'n>>(
    node: &M,
    name: Name,
) -> Result<Option<bool>, MemberFault>
    ensures { result ≡ optional flag name (M.object node.now) }
{
    match present(node, name) {
        Some(member) => Ok(Some(or_misfit(member.as_bool(), name, Expected::Flag)?)),
        None => Ok(None),
    }
}

fn as_parsed<T: FromText + Drop>(member: &Node) -> Option<T>
    ensures { result ≡ as_parsed T.of_text member.now }
{
    T::from_text(as_text(member)?)
}

/// A text that stands for a value, as an enumeration of OCPI; the node is the text itself, and stands at the step.
pub fn parsed_in<T: FromText + Drop>(member: &Node, at: Step) -> Result<T, MemberFault>
    ensures { result ≡ or_fault (fault_at at T.expects) (as_parsed T.of_text member.now) }
{
    match as_parsed(member) {
        Some(value) => Ok(value),
        None => Err(MemberFault::at(at, T::expected())),
    }
}

/// A text that stands for a value, as an enumeration of OCPI.
pub fn parsed<'n, T: FromText + Drop, M: HasMembers<'n>>(
    node: &M,
    name: Name,
) -> Result<T, MemberFault>
    ensures { result ≡ required (parsed T.expects T.of_text) name (M.object node.now) }
{
    let found = match node.find(name) {
        Some(member) => as_parsed(&member),
        None => None,
    };
    match found {
        Some(value) => Ok(value),
        None => Err(misfit(name, T::expected())),
    }
}

/// The same, where the member may be missing or null.
pub fn parsed_or_none<'n, T: FromText + Drop, M: HasMembers<'n>>(
    node: &M,
    name: Name,
) -> Result<Option<T>, MemberFault>
    ensures { result ≡ optional (parsed T.expects T.of_text) name (M.object node.now) }
{
    match present(node, name) {
        Some(member) => Ok(Some(parsed_in(&member, Step::Member(name))?)),
        None => Ok(None),
    }
}

fn as_number(node: &Node) -> Option<Millionths>
    ensures { result ≡ as_number node.now }
{
    Millionths::read(as_token(node)?.as_bytes())
}

/// A number.
pub fn number<'n, M: HasMembers<'n>>(node: &M, name: Name) -> Result<Millionths, MemberFault>
    ensures { result ≡ required number name (M.object node.now) }
{
    let found = match node.find(name) {
        Some(member) => as_number(&member),
        None => None,
    };
    or_misfit(found, name, Expected::Number)
}

/// The same, where the member may be missing or null.
pub fn number_or_none<'n, M: HasMembers<'n>>(
    node: &M,
    name: Name,
) -> Result<Option<Millionths>, MemberFault>
    ensures { result ≡ optional number name (M.object node.now) }
{
    match present(node, name) {
        Some(member) => Ok(Some(or_misfit(as_number(&member), name, Expected::Number)?)),
        None => Ok(None),
    }
}

fn if_not_negative(number: Millionths) -> Option<Millionths>
    ensures { result ≡ if_not_negative number }
{
    if number.get() >= 0 {
        Some(number)
    } else {
        None
    }
}

fn as_unsigned(node: &Node) -> Option<Millionths>
    ensures { result ≡ as_unsigned node.now }
{
    if_not_negative(as_number(node)?)
}

/// A number of at least 0.
pub fn unsigned<'n, M: HasMembers<'n>>(node: &M, name: Name) -> Result<Millionths, MemberFault>
    ensures { result ≡ required not_below_0 name (M.object node.now) }
{
    let found = match node.find(name) {
        Some(member) => as_unsigned(&member),
        None => None,
    };
    or_misfit(found, name, Expected::NotBelow0)
}

/// The same, where the member may be missing or null.
pub fn unsigned_or_none<'n, M: HasMembers<'n>>(
    node: &M,
    name: Name,
) -> Result<Option<Millionths>, MemberFault>
    ensures { result ≡ optional not_below_0 name (M.object node.now) }
{
    match present(node, name) {
        Some(member) => {
            let found = as_unsigned(&member);
            Ok(Some(or_misfit(found, name, Expected::NotBelow0)?))
        }
        None => Ok(None),
    }
}

fn are_digits(text: &[u8]) -> bool
    ensures { result ≡ list_all is_ascii_digit text.now }
{
    text.iter().all(|byte| byte.is_ascii_digit())
}

fn whole_value(token: &str) -> Option<u64>
    ensures { result ≡ whole_value token.now }
{
    if 18 < token.len() || !are_digits(token.as_bytes()) {
        return None;
    }
    token.parse::<u64>().ok()
}

fn if_within(value: u64, least: u64, most: u64) -> Option<u64>
    ensures { result ≡ if_within least most value }
{
    if least <= value && value <= most {
        Some(value)
    } else {
        None
    }
}

fn as_whole(node: &Node, least: u8, most: u64) -> Option<u64>
    ensures { result ≡ as_whole least most node.now }
{
    if_within(whole_value(as_token(node)?)?, least as u64, most)
}

/// A number of 1 to 18 digits, with no sign, point or exponent, from `least` to `most`.
pub fn whole<'n, M: HasMembers<'n>>(
    node: &M,
    name: Name,
    least: u8,
    most: u64,
) -> Result<u64, MemberFault>
    ensures { result ≡ required (whole least most) name (M.object node.now) }
{
    let found = match node.find(name) {
        Some(member) => as_whole(&member, least, most),
        None => None,
    };
    or_misfit(found, name, Expected::Whole { least, most })
}

/// The same, where the member may be missing or null.
pub fn whole_or_none<'n, M: HasMembers<'n>>(
    node: &M,
    name: Name,
    least: u8,
    most: u64,
) -> Result<Option<u64>, MemberFault>
    ensures { result ≡ optional (whole least most) name (M.object node.now) }
{
    match present(node, name) {
        Some(member) => {
            let found = as_whole(&member, least, most);
            Ok(Some(or_misfit(found, name, Expected::Whole { least, most })?))
        }
        None => Ok(None),
    }
}

/// A moment in UTC, with or without `Z` or `+00:00`.
pub fn instant<'n, M: HasMembers<'n>>(node: &M, name: Name) -> Result<Timestamp, MemberFault>
    ensures { result ≡ required moment name (M.object node.now) }
{
    parsed(node, name)
}

/// A date, `YYYY-MM-DD`.
pub fn date<'n, M: HasMembers<'n>>(node: &M, name: Name) -> Result<Date, MemberFault>
    ensures { result ≡ required date name (M.object node.now) }
{
    parsed(node, name)
}

/// The same, where the member may be missing or null.
pub fn date_or_none<'n, M: HasMembers<'n>>(
    node: &M,
    name: Name,
) -> Result<Option<Date>, MemberFault>
    ensures { result ≡ optional date name (M.object node.now) }
{
    parsed_or_none(node, name)
}

/// A time of day, `HH:MM`, where the member may be missing or null.
pub fn clock_or_none<'n, M: HasMembers<'n>>(
    node: &M,
    name: Name,
) -> Result<Option<Time>, MemberFault>
    ensures { result ≡ optional clock name (M.object node.now) }
{
    parsed_or_none(node, name)
}

fn as_list<'a>(member: &Node<'a>, least: u8, most: usize) -> Option<Nodes<'a>>
    ensures { result ≡ as_list least most member.now }
{
    let items = member.items()?;
    if least as usize <= items.len() && items.len() <= most {
        Some(items)
    } else {
        None
    }
}

/// An array of `least` to `most` items.
pub fn list<'a, M: HasMembers<'a>>(
    node: &M,
    name: Name,
    least: u8,
    most: usize,
) -> Result<Nodes<'a>, MemberFault>
    ensures { result ≡ required (list least most) name (M.object node.now) }
{
    let found = match node.find(name) {
        Some(member) => as_list(&member, least, most),
        None => None,
    };
    or_misfit(found, name, Expected::List { least, most })
}

/// The items of an array of up to `most`, and none where the member is missing or null.
pub fn list_or_empty<'a, M: HasMembers<'a>>(
    node: &M,
    name: Name,
    most: usize,
) -> Result<Nodes<'a>, MemberFault>
    ensures { result ≡ list_or_empty most name (M.object node.now) }
{
    match present(node, name) {
        Some(member) => or_misfit(
            as_list(&member, 0, most),
            name,
            Expected::List { least: 0, most },
        ),
        None => Ok(Nodes::none()),
    }
}

fn as_object<'a>(member: Node<'a>) -> Option<Node<'a>>
    ensures { result ≡ as_object_node member.entry }
{
    if member.is_object() {
        Some(member)
    } else {
        None
    }
}

/// An object.
pub fn object<'a, M: HasMembers<'a>>(node: &M, name: Name) -> Result<Node<'a>, MemberFault>
    ensures { result ≡ required object name (M.object node.now) }
{
    let found = match node.find(name) {
        Some(member) => as_object(member),
        None => None,
    };
    or_misfit(found, name, Expected::Object)
}

/// The same, where the member may be missing or null.
pub fn object_or_none<'a, M: HasMembers<'a>>(
    node: &M,
    name: Name,
) -> Result<Option<Node<'a>>, MemberFault>
    ensures { result ≡ optional object name (M.object node.now) }
{
    match present(node, name) {
        Some(member) => Ok(Some(or_misfit(as_object(member), name, Expected::Object)?)),
        None => Ok(None),
    }
}
