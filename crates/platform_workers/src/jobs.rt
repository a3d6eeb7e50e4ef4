//! What a worker is given, and what it leaves.

ghost use Rattle.std.specs.Prelude.{◌≡◌, ◌≤◌, [], Some, map, vec_capacity, vec_len};

use request_lines::{Count, ScriptFault, Sink, Source};
use shared_house::{Names, Pass};

/// How a worker ended.
#[derive(Clone, Copy, PartialEq, Eq)]
pub enum WorkerEnd {
    /// The reader ended, and all its lines are answered.
    Done(Count),
    Failed(ScriptFault),
}

/// The passes and the pairs of workers that did not begin.
#[derive(Drop)]
pub struct NotBegun<N: Names, I: Source + Drop, O: Sink + Drop> {
    pub passes: Vec<Pass<N>>,
    pub pairs: Vec<(I, O)>,
}

/// A pass, what its worker is given, and how the worker ended.
#[derive(Drop)]
pub struct Job<N: Names, P: Drop> {
    pub pass: Pass<N>,
    pub given: P,
    pub end: WorkerEnd,
}

/// The pairs, each of which can be taken, in a list that has places for them.
pub fn to_take<I: Source + Drop, O: Sink + Drop>(
    mut taken: Vec<Option<(I, O)>>,
    pairs: Vec<(I, O)>,
) -> Vec<Option<(I, O)>>
    requires empty { taken.items ≡ [] }
    requires places { vec_len pairs ≤ vec_capacity taken }
    ensures pairs { result.items ≡ map Some pairs.items }
    ensures len { vec_len result ≡ vec_len pairs }
{
    for pair in pairs {
        taken.push_reserved(Some(pair));
    }
    taken
}

/// A job of each pass and what its worker is given, in a list that has places for them. None has begun.
pub fn jobs_of<N: Names, P: Drop>(
    mut jobs: Vec<Job<N, P>>,
    passes: Vec<Pass<N>>,
    given: Vec<P>,
) -> Vec<Job<N, P>>
    requires len { vec_len passes ≡ vec_len given }
    requires empty { jobs.items ≡ [] }
    requires places { vec_len passes ≤ vec_capacity jobs }
    ensures passes { map (λ job. job.pass) result.items ≡ passes.items }
    ensures given { map (λ job. job.given) result.items ≡ given.items }
{
    let mut rest = given.into_iter();
    for pass in passes {
        let Some(given) = rest.next() else {
            unreachable!();
        };
        jobs.push_reserved(Job {
            pass,
            given,
            end: WorkerEnd::Failed(ScriptFault::NoMemory),
        });
    }
    jobs
}

/// The passes of the jobs, each with how its worker ended, in a list that has places for them.
pub fn ended<N: Names, P: Drop>(
    mut ended: Vec<(Pass<N>, WorkerEnd)>,
    jobs: Vec<Job<N, P>>,
) -> Vec<(Pass<N>, WorkerEnd)>
    requires empty { ended.items ≡ [] }
    requires places { vec_len jobs ≤ vec_capacity ended }
    ensures { result.items ≡ map (λ job. (job.pass, job.end)) jobs.items }
{
    for job in jobs {
        ended.push_reserved((job.pass, job.end));
    }
    ended
}
