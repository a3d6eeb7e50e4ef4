ghost use Rattle.std.specs.Prelude.{◌≡◌, ◌+◌, ◌<◌, ◌^◌, [], ◌∷◌, ◌++◌, List, true};
ghost use Rattle.std.specs.List.{list_all};
ghost use Rattle.netting_positions.specs.Netting.{is_configured, size, total_size};
ghost use Rattle.netting_positions.specs.State.{Scope};
ghost use Rattle.netting_positions.specs.declared.obligation.Obligation.{Obligation as Given};

use super::obligation::Obligation;

/// A table of what obligations come to, as they are added.
pub trait ObligationTable {
    /// What the table is for.
    ghost scope: { Self → Scope };

    /// The obligations that were added, in order.
    ghost obligations: { Self → List Given };

    /// Adds an obligation of configured parties in a configured currency, without taking memory.
    fn add(&mut self, obligation: &Obligation)
        requires configured { is_configured (scope self.old).parties (scope self.old).currencies obligation.now ≡ true }
        requires fits { total_size (obligations self.old) + size obligation.now < 2 ^ 63 }
        ensures scope { scope self.new ≡ scope self.old }
        ensures obligations { obligations self.new ≡ obligations self.old ++ obligation.now ∷ [] };
}

/// Adds obligations of configured parties in configured currencies in their order, without taking memory.
#[tactic(auto, using(crate::proofs::TableLemmas::each_rules))]
pub fn add_each<T: ObligationTable>(table: &mut T, obligations: &[Obligation])
    requires configured { list_all (is_configured (T.scope table.old).parties (T.scope table.old).currencies) obligations.now ≡ true }
    requires fits { total_size (T.obligations table.old) + total_size obligations.now < 2 ^ 63 }
    ensures scope { T.scope table.new ≡ T.scope table.old }
    ensures obligations { T.obligations table.new ≡ T.obligations table.old ++ obligations.now }
{
    let mut rest = obligations;
    while let Some((obligation, later)) = rest.split_first() {
        table.add(obligation);
        rest = later;
    }
}
