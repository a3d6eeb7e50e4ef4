//! A whole list of steps.

ghost use Rattle.std.specs.Prelude.{◌≡◌, IfOk};
ghost use Rattle.std.specs.List.{All};
ghost use Rattle.cdr_checks.specs.Admission.{IsAdmitted};
ghost use Rattle.house_core.specs.OneHouse.{KeepsRules, OneHouse};

use crate::finished::Trace;
use crate::laws::{commands_are_one_house, legal_lists_keep_rules};
use crate::step::Step;
use crate::world::World;
use cdr_checks::Command;
use ocpi_types::Config;
use std::alloc::{AllocError, Global};

/// Takes the steps one after another. For every list of steps, the calls that end are answered as one house over one list of
/// events answers, each at the point of its own Order step, between its begin and its end.
///
/// `AllocError` where memory is refused.
pub fn replay(
    alloc: Global,
    config: &Config,
    commands: Vec<Command>,
    steps: &[Step],
) -> Result<Trace, AllocError>
    requires admitted { All (IsAdmitted config.now) commands.items }
    ensures one_house { IfOk result (λ trace. OneHouse config.now commands.items steps.now trace.finished.items trace.events.items) }
    ensures rules { IfOk result (λ trace. KeepsRules config.now trace.events.items) }
{
    commands_are_one_house();
    legal_lists_keep_rules();
    config.has_distinct_parts();
    config.is_bounded();
    let mut world = World::new(alloc, config, commands)?;
    let mut trace = Trace::new(alloc);
    let mut rest = steps;
    while let Some((step, later)) = rest.split_first() {
        world.record(alloc, *step, &mut trace)?;
        rest = later;
    }
    Ok(trace)
}
