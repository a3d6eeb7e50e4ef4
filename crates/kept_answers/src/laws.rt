//! What follows from the definitions.

ghost use Rattle.kept_answers.specs.Runs.{KeptIsARun, RunsAreOne, ScriptRunsAreOne, ScriptsAreDetermined};

use request_lines::Answerer;
use sqlite_disk::Disk;

/// What `keep` promises at any moment is what the law of runs asks of a run, unless nothing was sent and the store is as it was.
pub fn kept_is_a_run<D: Disk, A: Answerer>()
    ensures { KeptIsARun A.rule D.Disk.may_leave }
{}

/// Over all runs, each after the crash that ended the one before, the client receives each answer once and in order, and every answer
/// is of a line that the last crash left.
pub fn runs_are_one<A: Answerer>()
    ensures { RunsAreOne A.rule }
{}

/// The answers of a script are determined by its lines, so the client receives in all runs the text of `script` for the kept lines.
pub fn scripts_are_determined()
    ensures { ScriptsAreDetermined }
{}

/// Over all runs of a script, each after the crash that ended the one before, the client receives the script's answers to the kept
/// lines: each once, in order, and of a line that the last crash left.
pub fn script_runs_are_one()
    ensures { ScriptRunsAreOne }
{}
