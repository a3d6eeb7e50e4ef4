//! What follows from the definitions.

ghost use Rattle.request_lines.specs.Law.{ScriptsKeepListsLegal};

use plain_house::commands_keep_lists_legal;

/// The list after the lines of a script is legal, so that all that is proved of legal lists holds of it.
pub fn scripts_keep_lists_legal()
    ensures { ScriptsKeepListsLegal }
{
    commands_keep_lists_legal();
}
