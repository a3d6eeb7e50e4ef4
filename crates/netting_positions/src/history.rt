// The obligations that a table was given. They stand in contracts and proofs alone, and take no memory.
ghost use Rattle.std.specs.Prelude.{◌≡◌, List, [], ◌∷◌, ◌++◌};
ghost use Rattle.std.specs.Borrow.{ftrue};
ghost use Rattle.netting_positions.specs.declared.obligation.Obligation.{Obligation};

use super::obligation::Obligation as Given;
use std::marker::Model;

#[derive(Drop)]
pub(crate) struct History {
    ghost obligations: { List Obligation },
}

impl Model for History {
    ghost also_owns = { λ _. ftrue };
}

impl History {
    pub(crate) fn new() -> History
        ensures { result.obligations ≡ [] }
    {
        History {}
    }

    pub(crate) fn and(&self, _obligation: &Given) -> History
        ensures { result.obligations ≡ self.now.obligations ++ _obligation.now ∷ [] }
    {
        History {}
    }
}
