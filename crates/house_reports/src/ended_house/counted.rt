use cdr_checks::Command;
use period_order::BookHouse;
use plain_house::{Refused, Replied, Sequential};

/// A house that counts the commands that it accepts.
#[derive(Drop)]
pub struct CountedHouse {
    pub house: BookHouse,
    pub accepted: u128,
}

impl Sequential for CountedHouse {
    ghost events = { λ counted. counted.house.events };

    ghost config = { λ counted. counted.house.config };

    fn do_command(&mut self, command: Command) -> Result<Replied, Refused> {
        let reply = self.house.do_command(command);
        if reply.is_ok() {
            self.accepted = self.accepted.saturating_add(1);
        }
        reply
    }
}
