ghost use Rattle.tariff_elements.specs.Law.{MatchesInForce, MomentsShowTimesOfDay, WindowWithinDay, WindowOverMidnight, WindowOfWholeDay, WindowToMidnight, WindowFromMidnight, FindsTheFirstBound};

/// A law: restrictions match at a time of day exactly where each of them is in force, and the clock of
/// each moment shows a time of day.
pub fn matches_in_force()
    ensures in_force { MatchesInForce }
    ensures time_of_day { MomentsShowTimesOfDay }
{}

/// A law: which times of day lie in a window.
pub fn windows_of_the_day()
    ensures within_a_day { WindowWithinDay }
    ensures over_midnight { WindowOverMidnight }
    ensures whole_day { WindowOfWholeDay }
    ensures to_midnight { WindowToMidnight }
    ensures from_midnight { WindowFromMidnight }
{}

/// A law: the element that is found to be not supported is the first.
pub fn finds_the_first_bound()
    ensures { FindsTheFirstBound }
{}
