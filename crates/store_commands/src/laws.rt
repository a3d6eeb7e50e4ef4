//! What follows from the definitions.

ghost use Rattle.kept_house.specs.Law.{StreamsRunAsOne};
ghost use Rattle.line_causes.specs.AnswersWithCauses.{causes_rule};

use line_causes::laws::causes_lead_one_way;

/// Over all runs of a stream with causes, each after the crash that ended the one before, the client receives the answers to the kept
/// lines: each once, in order, and of a line that the last crash left.
pub fn streams_with_causes_run_as_one()
    ensures { StreamsRunAsOne causes_rule }
{
    causes_lead_one_way();
}
