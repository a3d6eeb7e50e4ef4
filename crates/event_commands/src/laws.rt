//! What follows from the definitions.

ghost use Rattle.event_commands.specs.AskedAgain.{AskedAgainIsGiven, HoldsAreAskedAgain};
ghost use Rattle.event_commands.specs.EventCommands.{CommandsAreDetermined};

/// States that an event determines the command that adds it, except the token of an authorisation.
pub fn commands_are_determined()
    ensures { CommandsAreDetermined }
{}

/// States that the request of `ask_again` adds an event again if any command does, from each platform with the right.
pub fn asked_again_is_given()
    ensures { AskedAgainIsGiven }
{
    commands_are_determined();
}

/// States that an authorisation of each valid token of its provider adds a hold again if any command does.
pub fn holds_are_asked_again()
    ensures { HoldsAreAskedAgain }
{
    commands_are_determined();
}
