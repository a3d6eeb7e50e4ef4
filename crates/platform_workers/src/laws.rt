//! What follows from the definitions.

ghost use Rattle.platform_workers.specs.Laws.{CallsAreThoseOfLines};

/// A pass that has answered lines has its earlier calls, and then one for each line that is admitted, in their order, with the
/// line's command. None of these found no memory, and the other lines left no call.
pub fn calls_are_those_of_lines()
    ensures { CallsAreThoseOfLines }
{}
