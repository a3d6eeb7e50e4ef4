//! The dimensions of a charging period.

ghost use Rattle.std.specs.Prelude.{◌≡◌, ◌≤◌, length, IfOk};
ghost use Rattle.ocpi_json.specs.Faults.{Finds};
ghost use Rattle.ocpi_json.specs.MemberFaults.{item_of};
ghost use Rattle.ocpi_json.specs.Members.{each, within};
ghost use Rattle.ocpi_json.specs.declared.name.Name.TheVariants as name;
ghost use Rattle.ocpi_types.specs.Dimension.{dimension_at};

use super::dimension::Dimension;
use super::up_to::{UpTo, read_up_to};
use ocpi_json::fields::FieldFault;
use ocpi_json::name::Name;
use ocpi_json::objects::{FromNodeIn, within_in};
use ocpi_json::same::{Same, are_same};
use ocpi_json::{Node, Nodes, Step};
use std::alloc::Global;
use std::marker::Model;

#[derive(Drop)]
enum Kept {
    One([Dimension; 1]),
    Two([Dimension; 2]),
    Any(UpTo<Dimension, 100>),
}

/// At most 100 dimensions. One or two of them take no memory of their own.
#[derive(Drop)]
pub struct Dimensions {
    kept: Kept,
}

impl Model for Dimensions {
    ghost use Rattle.std.specs.Prelude.{◌≤◌, List, length};
    ghost use Rattle.ocpi_types.specs.Inner.KeptDimensions.{dimensions_of};
    ghost use Rattle.ocpi_types.specs.declared.dimension.Dimension.{Dimension};

    ghost Value = { List Dimension };

    ghost view = { λ dimensions. dimensions_of dimensions.kept };

    ghost invariant = { λ dimensions. length (dimensions_of dimensions.kept) ≤ 100 };
}

impl Dimensions {
    /// The dimensions, without taking memory.
    pub fn as_slice(&self) -> &[Dimension]
        ensures value { result.now ≡ self.now }
        ensures most { length result.now ≤ 100 }
    {
        match &self.kept {
            Kept::One(dimensions) => dimensions.as_slice(),
            Kept::Two(dimensions) => dimensions.as_slice(),
            Kept::Any(dimensions) => dimensions.as_slice(),
        }
    }
}

impl Same for Dimensions {
    fn is_same(&self, other: &Dimensions) -> bool {
        are_same(self.as_slice(), other.as_slice())
    }
}

fn item(alloc: Global, index: usize, node: &Node) -> Result<Dimension, FieldFault>
    ensures { Finds result (within (item_of name.Dimensions index) (dimension_at node.now)) }
{
    let step = Step::item(Name::Dimensions, index);
    within_in(step, Dimension::from_node_in(alloc, node))
}

fn read_one(alloc: Global, mut nodes: Nodes) -> Result<[Dimension; 1], FieldFault>
    requires { length nodes ≡ 1 }
    ensures dimensions { Finds result (each name.Dimensions dimension_at nodes.entry) }
    ensures one { IfOk result (λ dimensions. length dimensions ≡ 1) }
{
    let first = item(alloc, 0, &nodes.next().unwrap())?;
    Ok([first])
}

fn read_two(alloc: Global, mut nodes: Nodes) -> Result<[Dimension; 2], FieldFault>
    requires { length nodes ≡ 2 }
    ensures dimensions { Finds result (each name.Dimensions dimension_at nodes.entry) }
    ensures two { IfOk result (λ dimensions. length dimensions ≡ 2) }
{
    let first = item(alloc, 0, &nodes.next().unwrap())?;
    let second = item(alloc, 1, &nodes.next().unwrap())?;
    Ok([first, second])
}

/// The dimensions that stand in the at most 100 items of the list in the member `dimensions`, in order.
pub fn read_dimensions(alloc: Global, nodes: Nodes) -> Result<Dimensions, FieldFault>
    requires { length nodes ≤ 100 }
    ensures { Finds result (each name.Dimensions dimension_at nodes.entry) }
{
    let kept = match nodes.len() {
        1 => Kept::One(read_one(alloc, nodes)?),
        2 => Kept::Two(read_two(alloc, nodes)?),
        _ => Kept::Any(read_up_to(alloc, Name::Dimensions, nodes)?),
    };
    Ok(Dimensions { kept })
}
