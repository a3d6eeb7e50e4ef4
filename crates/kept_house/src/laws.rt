//! What follows from the definitions.

ghost use Rattle.kept_answers.specs.Runs.{IsDetermined};
ghost use Rattle.line_streams.specs.Stream.{stream_rule};
ghost use Rattle.kept_house.specs.Law.{StreamsRunAsOne};
ghost use Rattle.kept_house.specs.Record.{RecordsHaveOneConfig};

use line_streams::streams_are_determined;

/// A stream answers lines in one way, and lines in turn.
pub fn streams_are_answered_one_way()
    ensures { IsDetermined stream_rule }
{
    streams_are_determined();
}

/// A line has at most one configuration as the record of a store.
pub fn records_have_one_config()
    ensures { RecordsHaveOneConfig }
{}

/// Over all runs of a stream, each after the crash that ended the one before, the client receives the answers to the kept lines: each
/// once, in order, and of a line that the last crash left.
pub fn streams_run_as_one()
    ensures { StreamsRunAsOne stream_rule }
{
    streams_are_answered_one_way();
}
