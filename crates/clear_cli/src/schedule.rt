//! The command `schedule`.

ghost use Rattle.std.specs.Prelude.{◌≡◌, ◌≤◌, All, IfErr, MatchResult, OnOk, Some};
ghost use Rattle.cdr_checks.specs.Admission.{IsAdmitted};
ghost use Rattle.command_line.specs.declared.fault.Fault.{Fault as FaultValue};
ghost use Rattle.command_line.specs.Fault.{IsTold, exit_status, fault_line};
ghost use Rattle.clear_cli.specs.Inner.UnderConfig.{IsCutFor, IsLeftUnwritten, Replays, ReplaysUnder};
ghost use Rattle.clear_cli.specs.Schedule.{Fails, IsReplayed, IsWritten, file_streams_of, schedule_fault};
ghost use Rattle.clear_cli.specs.ScheduleText.{trace_text};

use crate::schedule_file::{Schedule, ScheduleFault, read_schedule};
use crate::schedule_text::write_trace;
use crate::script::read_config;
use command_line::{Fault, tell};
use house_core::{Finished, replay};
use ocpi_types::Config;
use request_lines::{Sink, Source};
use std::alloc::Global;

// Writes how each call ended.
fn write_finished<W: Sink>(
    alloc: Global,
    config: &Config,
    writer: &mut W,
    finished: &[Finished],
) -> Result<(), Fault<'static>>
    ensures ok { OnOk result (W.writing.takes writer.old (trace_text config.now finished.now) writer.new) }
    ensures kept { OnOk result (W.writing.failed writer.new ≡ W.writing.failed writer.old) }
    ensures err { IfErr result (λ fault. IsCutFor W.writing config.now finished.now writer.old writer.new fault) }
    ensures status { IfErr result (λ fault. exit_status fault ≡ 1) }
{
    write_trace(alloc, config, writer, finished)?;
    Ok(())
}

// Replays a schedule, and writes how each call ended.
fn replay_onto<W: Sink>(
    alloc: Global,
    config: &Config,
    schedule: Schedule,
    writer: &mut W,
) -> Result<(), Fault<'static>>
    requires admitted { All (IsAdmitted config.now) schedule.commands }
    ensures ended { MatchResult result (λ _. IsWritten W.writing config.now schedule writer.old writer.new)
        (λ fault. IsLeftUnwritten W.writing config.now schedule writer.old writer.new fault) }
    ensures status { IfErr result (λ fault. exit_status fault ≡ 1) }
{
    let Schedule { commands, steps } = schedule;
    let trace = replay(alloc, config, commands, steps.as_slice())?;
    write_finished(alloc, config, writer, trace.finished.as_slice())
}

fn fault_of<'a>(fault: ScheduleFault, path: &'a str) -> Fault<'a>
    ensures { result ≡ schedule_fault path.entry fault }
{
    match fault {
        ScheduleFault::Read => Fault::CannotRead { path },
        ScheduleFault::Line { line } => Fault::ScheduleLine { line },
        ScheduleFault::NoMemory => Fault::NoMemory,
    }
}

// Replays the file of a reader.
fn replay_read<'a, R: Source, W: Sink>(
    alloc: Global,
    path: &'a str,
    config: &Config,
    reader: &mut R,
    writer: &mut W,
) -> Result<(), Fault<'a>>
    ensures ended { ReplaysUnder (file_streams_of R.reading W.writing (Some reader.old) writer.old writer.new) path.entry config.now result }
    ensures status { IfErr result (λ fault. exit_status fault ≡ 1) }
{
    match read_schedule(alloc, config, reader) {
        Ok(schedule) => replay_onto(alloc, config, schedule, writer),
        Err(fault) => Err(fault_of(fault, path)),
    }
}

// Replays the file, if it could be opened.
fn replay_given<'a, R: Source + Drop, W: Sink>(
    alloc: Global,
    path: &'a str,
    config: &Config,
    reader: Option<R>,
    writer: &mut W,
) -> Result<(), Fault<'a>>
    ensures ended { ReplaysUnder (file_streams_of R.reading W.writing reader writer.old writer.new) path.entry config.now result }
    ensures status { IfErr result (λ fault. exit_status fault ≡ 1) }
{
    match reader {
        Some(mut reader) => replay_read(alloc, path, config, &mut reader, writer),
        None => Err(Fault::CannotRead { path }),
    }
}

fn replay_file<'a, R: Source + Drop, W: Sink>(
    alloc: Global,
    path: &'a str,
    file: &[u8],
    reader: Option<R>,
    writer: &mut W,
) -> Result<(), Fault<'a>>
    ensures ended { Replays (file_streams_of R.reading W.writing reader writer.old writer.new) path.entry file.now result }
    ensures status { IfErr result (λ fault. exit_status fault ≡ 1) }
{
    let config = read_config(alloc, file)?;
    replay_given(alloc, path, &config, reader, writer)
}

/// Replays the calls and steps of a file under the configuration of these bytes, writes how each call ended, and returns the
/// exit status. `path` is the file's, and `reader` reads it, if it could be opened. `faults` takes an error in one line.
pub fn schedule<R: Source + Drop, W: Sink, F: Sink>(
    alloc: Global,
    path: &str,
    config: &[u8],
    reader: Option<R>,
    writer: &mut W,
    faults: &mut F,
) -> u8
    ensures status { result ≤ 1 }
    ensures done { result ≡ 0 → IsReplayed (file_streams_of R.reading W.writing reader writer.old writer.new) config.now }
    ensures silent { result ≡ 0 → faults.new ≡ faults.old }
    ensures fault { result ≡ 1 → (fault : FaultValue)
        × Fails (file_streams_of R.reading W.writing reader writer.old writer.new) path.entry config.now fault
        × IsTold F.writing faults.old (fault_line fault) faults.new }
{
    match replay_file(alloc, path, config, reader, writer) {
        Ok(()) => 0,
        Err(fault) => {
            tell(faults, &fault);
            fault.status()
        }
    }
}
