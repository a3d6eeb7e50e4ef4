//! Objects that are read by their members' names.

use crate::name::Name;
use crate::node::Node;

/// An object, or a value of another kind, which has no members.
pub trait HasMembers<'a> {
    ghost use Rattle.std.specs.Prelude.{◌≡◌};
    ghost use Rattle.json.specs.Json.{Json as Data};
    ghost use Rattle.ocpi_json.specs.Fields.{member_at};

    // the value whose members they are
    ghost object: { Self → Data };

    /// Returns the last member of that name, if there is one.
    fn find(&self, name: Name) -> Option<Node<'a>>
        ensures { result ≡ member_at name (object self.now) };
}
