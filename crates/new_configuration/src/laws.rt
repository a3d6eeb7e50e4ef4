//! What follows from the definitions.

ghost use Rattle.new_configuration.specs.Loosened.{LoosenedJudgesWider, LoosenedLimitsAreHighest};
ghost use Rattle.new_configuration.specs.TakenOver.{FirstOtherwiseIsUnique, TakenOverIsWhole, TakenOverOrRefused};

use event_commands::{asked_again_is_given, commands_are_determined, holds_are_asked_again};

/// States that no list is both taken over and refused.
pub fn taken_over_is_whole()
    ensures { TakenOverIsWhole }
{}

/// States that each list is taken over or refused: `house_of` has no other outcome than these two and an allocation failure.
pub fn taken_over_or_refused()
    ensures { TakenOverOrRefused }
{
    commands_are_determined();
    asked_again_is_given();
    holds_are_asked_again();
}

/// States that a list has at most one first event that no command adds.
pub fn first_otherwise_is_unique()
    ensures { FirstOtherwiseIsUnique }
{}

/// States that each configuration may judge in a house of the loosest one beside it.
pub fn loosened_judges_wider()
    ensures { LoosenedJudgesWider }
{}

/// States that the loosest configuration has the holds of the given one, and the highest limit of each provider in each currency.
pub fn loosened_limits_are_highest()
    ensures { LoosenedLimitsAreHighest }
{}
