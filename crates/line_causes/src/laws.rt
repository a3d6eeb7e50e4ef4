//! Laws of the causes of lines.

ghost use Rattle.line_causes.specs.CauseLaws.{AnswersAreTheSameButForCauses, CausesLeadOneWay, FirstTwelveHaveCauses, OwnCausesAreCauses};
ghost use Rattle.line_causes.specs.Laws.{RefusedLinesHaveCauses, RefusedStreamLinesHaveCauses, RepliesNameRefusals};

use house_causes::laws::{each_refusal_has_a_cause, refusing_answers_have_causes};
use line_streams::streams_are_determined;

/// States that no line that a house refuses is without a cause.
pub fn refused_lines_have_causes()
    ensures { RefusedLinesHaveCauses }
{
    each_refusal_has_a_cause();
    refusing_answers_have_causes();
}

/// States that no line that a stream refuses is without a cause.
pub fn refused_stream_lines_have_causes()
    ensures { RefusedStreamLinesHaveCauses }
{
    each_refusal_has_a_cause();
    refusing_answers_have_causes();
}

/// States that the name in a stream's reply to a line is that of the line's refusal.
pub fn replies_name_refusals()
    ensures { RepliesNameRefusals }
{}

/// States that the answers with causes, without their causes, are those of a stream to the same lines.
pub fn answers_are_the_same_but_for_causes()
    ensures { AnswersAreTheSameButForCauses }
{}

/// States that a line has a cause on its answer if and only if it is refused with one of the refusals 1 to 12.
pub fn first_twelve_have_causes()
    ensures { FirstTwelveHaveCauses }
{
    each_refusal_has_a_cause();
}

/// States that the cause on an answer is a cause of the line, whatever the events are.
pub fn own_causes_are_causes()
    ensures { OwnCausesAreCauses }
{}

/// States that lines lead a stream with causes to one state.
pub fn causes_lead_one_way()
    ensures { CausesLeadOneWay }
{
    streams_are_determined();
}
