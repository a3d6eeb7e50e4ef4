//! The configuration in force.

ghost use Rattle.std.specs.Prelude.{◌≡◌};
ghost use Rattle.period_order.specs.Judging.{MayJudge};
ghost use Rattle.line_streams.specs.Inner.Base.{base_of};

use new_configuration::loosened_judges_wider;
use ocpi_types::{Config, Shared};
use period_order::{BookHouse, configurations_judge_for_themselves};

/// The configuration in force, and whether an event is past it: then the house is that of the loosened configuration.
#[derive(Drop)]
pub struct InForce {
    pub config: Shared<Config>,
    pub is_lowered: bool,
}

/// States that the configuration in force may judge the commands of the house.
pub fn judges_commands(in_force: &InForce, house: &BookHouse)
    requires { house.now.config ≡ base_of in_force.now }
    ensures { MayJudge in_force.now.config house.now.config }
{
    configurations_judge_for_themselves();
    loosened_judges_wider();
    let _ = in_force;
    let _ = house;
}
