//! What stands where a fault is.

ghost use Rattle.std.specs.Prelude.{◌≡◌, slice_get};
ghost use Rattle.ocpi_json.specs.Standing.{innermost, standing_at, standing_at_step};

use crate::has_members::HasMembers;
use crate::member_fault::{Around, MemberFault, Step};
use crate::node::{Node, Nodes};

fn nth_item<'a>(mut nodes: Nodes<'a>, index: usize) -> Option<Node<'a>>
    ensures { result ≡ slice_get nodes.entry index }
{
    let mut before = index;
    while let Some(node) = nodes.next() {
        if before == 0 {
            return Some(node);
        }
        before -= 1;
    }
    None
}

fn standing_at_step<'a>(object: &Node<'a>, step: Step) -> Option<Node<'a>>
    ensures { result ≡ standing_at_step step object.now }
{
    match step {
        Step::Member(name) => object.find(name),
        Step::Item(name, index) => nth_item(object.find(name)?.items()?, index as usize),
    }
}

fn innermost<'a>(object: Node<'a>, around: Around) -> Option<Node<'a>>
    ensures { result ≡ innermost around object.entry }
{
    match around {
        Around::Nothing => Some(object),
        Around::One(a) => standing_at_step(&object, a),
        Around::Two(a, b) => standing_at_step(&standing_at_step(&object, a)?, b),
        Around::Three(a, b, c) => {
            let object = standing_at_step(&standing_at_step(&object, a)?, b)?;
            standing_at_step(&object, c)
        }
        Around::Four(a, b, c, d) => {
            let object = standing_at_step(&standing_at_step(&object, a)?, b)?;
            standing_at_step(&standing_at_step(&object, c)?, d)
        }
    }
}

/// Returns what stands in the object where the fault is, if anything does.
pub fn standing_at<'a>(object: Node<'a>, fault: &MemberFault) -> Option<Node<'a>>
    ensures { result ≡ standing_at fault.now object.entry }
{
    standing_at_step(&innermost(object, fault.around)?, fault.member)
}
