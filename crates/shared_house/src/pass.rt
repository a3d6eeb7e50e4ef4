use crate::call::Call;
use crate::ledgers::Names;
use std::marker::Model;
use std::sync::ledger::Share;

/// What one caller of a house holds: the calls that it made, and its share of the house's events.
#[derive(Drop)]
pub struct Pass<N: Names> {
    pub(crate) number: usize,
    pub(crate) calls: Vec<Call>,
    pub(crate) events: Share<N::Events>,
}

impl<N: Names> Model for Pass<N> {
    ghost use Rattle.std.specs.Prelude.{◌-◌, vec_capacity, vec_len};
    ghost use Rattle.shared_house.specs.PassView.{PassView};
    ghost use Rattle.shared_house.specs.Inner.PassKeeps.{PassKeeps};

    ghost Value = { PassView };

    ghost view = { λ pass. record { number = pass.number; calls = pass.calls.items; share = pass.events.amount; places = vec_capacity pass.calls - vec_len pass.calls } };

    ghost invariant = { λ pass. PassKeeps N.BookEntries.config pass.calls.items pass.events.parts pass.events.amount };
}

impl<N: Names> Pass<N> {
    ghost use Rattle.std.specs.Prelude.{◌≡◌, ◌<◌, ◌↔◌, count_by, IsTrue};
    ghost use Rattle.shared_house.specs.Calls.{call_adds_event};
    ghost use Rattle.shared_house.specs.Points.{AreAdmitted};

    /// The number of the pass among those of its house, from 0.
    pub fn number(&self) -> usize
        ensures { result ≡ self.now.number }
    {
        self.number
    }

    /// The calls that were made with the pass, the first one first, but those for which it had no place and got none.
    pub fn calls(&self) -> &[Call]
        ensures calls { result.now ≡ self.now.calls }
        ensures share { self.now.share ≡ count_by call_adds_event self.now.calls }
        ensures admitted { AreAdmitted N.BookEntries.config self.now.calls }
    {
        self.calls.as_slice()
    }

    /// Whether the pass has a place for one more call, so that it keeps the next one whatever that returns.
    pub fn has_place(&self) -> bool
        ensures { IsTrue result ↔ 0 < self.now.places }
    {
        self.calls.len() < self.calls.capacity()
    }
}
