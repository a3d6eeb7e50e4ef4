ghost use Rattle.std.specs.Prelude.{◌≡◌, List};
ghost use Rattle.ocpi_types.specs.declared.config.Config.{Config};
ghost use Rattle.cdr_checks.specs.Admission.{IsAdmitted};
ghost use Rattle.plain_house.specs.declared.event.Event.{Event};
ghost use Rattle.plain_house.specs.House.{Does};

use super::answer::{Refused, Replied};
use super::event::Event;
use cdr_checks::Command;
use ocpi_types::Config;

/// A house that is told one command after another.
pub trait Sequential {
    /// The list of events that the house stands for.
    ghost events: { Self → List Event };

    ghost config: { Self → Config };

    /// Replies as the plain list does. Where memory runs out, the house is as it was.
    fn do_command(&mut self, command: Command) -> Result<Replied, Refused>
        requires { IsAdmitted (config self.old) command }
        ensures config { config self.new ≡ config self.old }
        ensures does { Does (config self.old) (events self.old) command result (events self.new) };
}
