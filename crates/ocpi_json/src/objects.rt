//! Types whose values stand in texts and nodes.

ghost use Rattle.std.specs.Prelude.{◌≡◌, Result};
ghost use Rattle.ocpi_json.specs.Faults.{Finds, within_in};
ghost use Rattle.ocpi_json.specs.Fields.{each_of, parsed};
ghost use Rattle.ocpi_json.specs.Members.{each, if_any, inside, within};
ghost use Rattle.ocpi_json.specs.declared.member_fault.MemberFault.{MemberFault};

use crate::expected::Expected;
use crate::fields::{self, FieldFault};
use crate::member_fault::{MemberFault, Step};
use crate::name::Name;
use crate::node::{Node, Nodes};
use crate::sequence::Sequence;
use std::alloc::Global;

/// A type whose values are written as texts, as an enumeration of OCPI is.
pub trait FromText {
    ghost use Rattle.std.specs.Prelude.{◌≡◌, ℕ, List, Option};
    ghost use Rattle.ocpi_json.specs.declared.expected.Expected.{Expected};

    // the value that the text stands for
    ghost of_text: { List ℕ → Option Self };

    // what a member with such a text has to be
    ghost expects: { Expected };

    fn from_text(text: &str) -> Option<Self>
        ensures { result ≡ of_text text.now };

    /// What a member with such a text has to be.
    fn expected() -> Expected
        ensures { result ≡ expects };
}

/// A type whose values stand in nodes, and take no memory.
pub trait FromNode: Sized {
    ghost use Rattle.std.specs.Prelude.{◌≡◌, Result};
    ghost use Rattle.json.specs.Json.{Json as Data};
    ghost use Rattle.ocpi_json.specs.declared.member_fault.MemberFault.{MemberFault};

    // the value that stands in the data, or the fault at a member
    ghost at: { Data → Result Self MemberFault };

    fn from_node(node: &Node) -> Result<Self, MemberFault>
        ensures { result ≡ at node.now };
}

/// A type whose values stand in nodes, and take memory.
pub trait FromNodeIn: Sized {
    ghost use Rattle.std.specs.Prelude.{Result};
    ghost use Rattle.json.specs.Json.{Json as Data};
    ghost use Rattle.ocpi_json.specs.Faults.{Finds};
    ghost use Rattle.ocpi_json.specs.declared.member_fault.MemberFault.{MemberFault};

    // the value that stands in the data, or the fault at a member
    ghost at: { Data → Result Self MemberFault };

    fn from_node_in(alloc: Global, node: &Node) -> Result<Self, FieldFault>
        ensures { Finds result (at node.now) };
}

/// What is read of an object that stands at that step of the one around it.
pub fn within<T>(step: Step, read: Result<T, MemberFault>) -> Result<T, MemberFault>
    ensures { result ≡ within step read }
{
    match read {
        Ok(value) => Ok(value),
        Err(fault) => Err(fault.seen_from(step)),
    }
}

/// The same of what takes memory.
#[tactic(auto, using(crate::proofs::Withins::finds_within))]
pub fn within_in<T>(step: Step, read: Result<T, FieldFault>) -> Result<T, FieldFault>
    ensures value { result ≡ within_in step read }
    ensures finds { (found : Result T MemberFault) → Finds read found → Finds result (within step found) }
{
    match read {
        Ok(value) => Ok(value),
        Err(FieldFault::Field(fault)) => Err(FieldFault::Field(fault.seen_from(step))),
        Err(FieldFault::NoMemory) => Err(FieldFault::NoMemory),
    }
}

/// The value that stands in the object in the member of that name.
pub fn read_inside<T: FromNodeIn + Drop>(
    alloc: Global,
    name: Name,
    object: &Node,
) -> Result<T, FieldFault>
    ensures { Finds result (inside name (T.at object.now)) }
{
    within_in(Step::Member(name), T::from_node_in(alloc, object))
}

/// The values that stand in the items of the list in the member of that name, in order.
pub fn read_each<T: FromNode + Drop>(
    alloc: Global,
    name: Name,
    mut nodes: Nodes,
) -> Result<Sequence<T>, FieldFault>
    ensures { Finds result (each name T.at nodes.entry) }
{
    let mut values = Sequence::with_capacity(alloc, nodes.len())?;
    while let Some(node) = nodes.next() {
        let step = Step::item(name, values.as_slice().len());
        values.push(within(step, T::from_node(&node))?)?;
    }
    Ok(values)
}

/// The same of a type whose values take memory.
pub fn read_each_in<T: FromNodeIn + Drop>(
    alloc: Global,
    name: Name,
    mut nodes: Nodes,
) -> Result<Sequence<T>, FieldFault>
    ensures { Finds result (each name T.at nodes.entry) }
{
    let mut values = Sequence::with_capacity(alloc, nodes.len())?;
    while let Some(node) = nodes.next() {
        let step = Step::item(name, values.as_slice().len());
        values.push(within_in(step, T::from_node_in(alloc, &node))?)?;
    }
    Ok(values)
}

/// The value that stands in the object in the member of that name, if there is one.
pub fn read_if_any<T: FromNode + Drop>(
    name: Name,
    found: Option<Node>,
) -> Result<Option<T>, MemberFault>
    ensures { result ≡ if_any (λ d. inside name (T.at d)) found.entry }
{
    match found {
        Some(node) => Ok(Some(within(Step::Member(name), T::from_node(&node))?)),
        None => Ok(None),
    }
}

/// The same of a type whose values take memory.
pub fn read_if_any_in<T: FromNodeIn + Drop>(
    alloc: Global,
    name: Name,
    found: Option<Node>,
) -> Result<Option<T>, FieldFault>
    ensures { Finds result (if_any (λ d. inside name (T.at d)) found.entry) }
{
    match found {
        Some(object) => Ok(Some(read_inside(alloc, name, &object)?)),
        None => Ok(None),
    }
}

/// The values that the texts in the list in the member of that name stand for.
pub fn parsed_each<T: FromText + Drop>(
    alloc: Global,
    name: Name,
    mut nodes: Nodes,
) -> Result<Sequence<T>, FieldFault>
    ensures { Finds result (each_of (parsed T.expects T.of_text) name 0 nodes.entry) }
{
    let mut values = Sequence::with_capacity(alloc, nodes.len())?;
    while let Some(node) = nodes.next() {
        let step = Step::item(name, values.as_slice().len());
        values.push(fields::parsed_in(&node, step)?)?;
    }
    Ok(values)
}
