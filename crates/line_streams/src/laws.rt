//! What follows from the definitions.

ghost use Rattle.line_streams.specs.Law.{AddedEventsKeepToTheirConfiguration, RefusedLinesDoNothing, RepeatsAddNothing, RepeatsAreAnsweredAlike, StreamsAnswerEveryLine, StreamsAreDetermined, StreamsStayLegal, StreamsStaySound, UnchangedIsAScript, UsedIdsTellLinesApart};

use cdr_checks::{admitted_pass_their_tests, posts_are_checked};
use new_configuration::{
    first_otherwise_is_unique, loosened_judges_wider, taken_over_is_whole, taken_over_or_refused,
};
use period_order::configurations_judge_for_themselves;
use plain_house::{commands_keep_lists_legal, empty_lists_are_legal};

/// Lines of which none asks for a change or has a request id are answered as a script answers them.
pub fn unchanged_is_a_script()
    ensures { UnchangedIsAScript }
{}

/// Whatever the lines are, the events are legal under the base, and the configuration in force may judge for it.
pub fn streams_stay_sound()
    ensures { StreamsStaySound }
{
    commands_keep_lists_legal();
    configurations_judge_for_themselves();
    loosened_judges_wider();
}

/// The events of a stream that begins without any are legal under its base.
pub fn streams_stay_legal()
    ensures { StreamsStayLegal }
{
    empty_lists_are_legal();
    configurations_judge_for_themselves();
    streams_stay_sound();
}

/// Lines are answered in one way.
pub fn streams_are_determined()
    ensures { StreamsAreDetermined }
{
    loosened_judges_wider();
    taken_over_is_whole();
    first_otherwise_is_unique();
}

/// Any lines are answered: each line gets one answer.
pub fn streams_answer_every_line()
    ensures { StreamsAnswerEveryLine }
{
    taken_over_or_refused();
}

/// An event that a line adds keeps to the configuration in force when the line comes: no exposure is above its limit unless it is no
/// higher than it was, a Credit CDR is in the credit window, and a declared cost is within the tolerance.
pub fn added_events_keep_to_their_configuration()
    ensures { AddedEventsKeepToTheirConfiguration }
{
    posts_are_checked();
    admitted_pass_their_tests();
}

/// A line that was allowed when it came first is answered byte by byte as then whenever it comes again under its request id, and nothing
/// is done.
pub fn repeats_are_answered_alike()
    ensures { RepeatsAreAnsweredAlike }
{}

/// Another line under a used request id is told apart from the one that was done, unless the two are a collision of SHA-256; nothing is
/// done for it.
pub fn used_ids_tell_lines_apart()
    ensures { UsedIdsTellLinesApart }
{}

/// A line that is refused by the line and the configuration in force alone changes nothing and is not remembered, and is refused each time.
pub fn refused_lines_do_nothing()
    ensures { RefusedLinesDoNothing }
{}

/// The house after lines with request ids is the house after each line without one and, of those with one, each up to the first that
/// takes it.
pub fn repeats_add_nothing()
    ensures { RepeatsAddNothing }
{}
