//! A call, and what its reply tells.

ghost use Rattle.std.specs.Prelude.{◌≡◌, ◌+◌, if◌then◌else◌};
ghost use Rattle.plain_house.specs.Laws.{adds_event};
ghost use Rattle.shared_house.specs.Points.{point_of_reply};

use cdr_checks::Command;
use plain_house::{Refused, Replied, adds_event};

/// A call that was made: what it asked, and what it returned.
#[derive(Drop)]
pub struct Call {
    pub command: Command,
    pub reply: Result<Replied, Refused>,
}

impl Call {
    /// The number of events before the call; 0 where the reply has none.
    pub fn point(&self) -> u64
        ensures { result ≡ point_of_reply self.now.reply }
    {
        match &self.reply {
            Ok(replied) => replied.at,
            Err(refused) => refused.at.unwrap_or(0),
        }
    }

    /// The number of events that its pass has seen behind it, which may be one more than 64 bits hold.
    pub fn seen(&self) -> u128
        ensures { result ≡ (if adds_event self.now.reply then point_of_reply self.now.reply + 1 else point_of_reply self.now.reply) }
    {
        let point = u128::from(self.point());
        if adds_event(&self.reply) {
            point + 1
        } else {
            point
        }
    }
}
