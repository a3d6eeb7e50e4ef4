//! A call in its turn.

ghost use Rattle.std.specs.Prelude.{◌≡◌};
ghost use Rattle.shared_house.specs.Inner.Ranks.{rank_of};

use crate::call::Call;
use plain_house::adds_event;

/// A call that found memory, and the number of events that its pass has seen before it.
#[derive(Clone, Copy)]
pub struct Turn<'a> {
    pub front: u128,
    pub call: &'a Call,
    // Its rank is kept beside it, since the call stands elsewhere.
    rank: u128,
    ghost ranked: { rank ≡ rank_of call.now },
}

impl<'a> Turn<'a> {
    pub fn new(front: u128, call: &'a Call) -> Turn<'a>
        ensures front { result.front ≡ front }
        ensures call { result.call.now ≡ call.now }
    {
        let point = u128::from(call.point());
        let added = if adds_event(&call.reply) { 1 } else { 0 };
        let rank = point + (point + added);
        Turn { front, call, rank }
    }

    /// Calls stand by their points, and of one point those first that add no event.
    pub fn rank(&self) -> u128
        ensures { result ≡ rank_of self.now.call.now }
    {
        self.rank
    }
}
