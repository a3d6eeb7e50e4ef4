//! The command `script`.

ghost use Rattle.std.specs.Prelude.{◌≡◌, ◌≢◌, ◌≤◌, [], IfOk, IfErr, Ok, Err};
ghost use Rattle.command_line.specs.declared.fault.Fault.{Fault as FaultValue};
ghost use Rattle.command_line.specs.declared.fault.Fault.TheVariants.{NoMemory};
ghost use Rattle.command_line.specs.Fault.{IsTold, exit_status, fault_line};
ghost use Rattle.clear_cli.specs.Script.{Fails, IsDone, config_or_fault, streams_of};
ghost use Rattle.clear_cli.specs.Inner.UnderConfig.{Answers, AnswersUnder};

use command_line::{Fault, tell};
use lines_ahead::run_script_ahead;
use ocpi_types::{Config, TryCopy};
use period_order::BookHouse;
use plain_house::Sequential;
use request_lines::{Sink, Source};
use std::alloc::Global;
use std::mem;
use std::thread::Threads;

pub fn read_config(alloc: Global, file: &[u8]) -> Result<Config, Fault<'static>>
    ensures ok { IfOk result (λ config. config_or_fault file.now ≡ Ok config) }
    ensures err { IfErr result (λ fault. fault ≢ NoMemory → config_or_fault file.now ≡ Err fault) }
    ensures status { IfErr result (λ fault. exit_status fault ≡ 1) }
{
    Ok(Config::read(alloc, file)?)
}

// Answers the lines of the reader by an empty house.
fn answer_by<R: Source, W: Sink, S: Sequential, T: Threads + Sync>(
    rt: &T,
    alloc: Global,
    config: &Config,
    house: &mut S,
    reader: &mut R,
    writer: &mut W,
    threads: usize,
) -> Result<(), Fault<'static>>
    requires config { S.config house.old ≡ config.now }
    requires empty { S.events house.old ≡ [] }
    ensures ended { AnswersUnder (streams_of R.reading W.writing reader.old reader.new writer.old writer.new) config.now result }
    ensures status { IfErr result (λ fault. exit_status fault ≡ 1) }
{
    run_script_ahead(rt, alloc, reader, writer, config, house, threads)?;
    Ok(())
}

// Answers the lines of the reader by a house of this configuration.
fn answer_under<R: Source, W: Sink, T: Threads + Sync>(
    rt: &T,
    alloc: Global,
    config: &Config,
    reader: &mut R,
    writer: &mut W,
    threads: usize,
) -> Result<(), Fault<'static>>
    ensures ended { AnswersUnder (streams_of R.reading W.writing reader.old reader.new writer.old writer.new) config.now result }
    ensures status { IfErr result (λ fault. exit_status fault ≡ 1) }
{
    let mut house = BookHouse::new(alloc, config.copy(alloc)?)?;
    let answered = answer_by(rt, alloc, config, &mut house, reader, writer, threads);
    // The process ends now, and the system takes its memory back at once.
    mem::forget(house);
    answered
}

fn answer_lines<R: Source, W: Sink, T: Threads + Sync>(
    rt: &T,
    alloc: Global,
    file: &[u8],
    reader: &mut R,
    writer: &mut W,
    threads: usize,
) -> Result<(), Fault<'static>>
    ensures ended { Answers (streams_of R.reading W.writing reader.old reader.new writer.old writer.new) file.now result }
    ensures status { IfErr result (λ fault. exit_status fault ≡ 1) }
{
    let config = read_config(alloc, file)?;
    answer_under(rt, alloc, &config, reader, writer, threads)
}

/// Answers the lines of the reader under the configuration of these bytes, and returns the exit status. So many threads read lines.
/// `faults` takes an error in one line.
pub fn script<R: Source, W: Sink, F: Sink, T: Threads + Sync>(
    rt: &T,
    alloc: Global,
    config: &[u8],
    reader: &mut R,
    writer: &mut W,
    faults: &mut F,
    threads: usize,
) -> u8
    ensures status { result ≤ 1 }
    ensures done { result ≡ 0 → IsDone (streams_of R.reading W.writing reader.old reader.new writer.old writer.new) config.now }
    ensures silent { result ≡ 0 → faults.new ≡ faults.old }
    ensures fault { result ≡ 1 → (fault : FaultValue)
        × Fails (streams_of R.reading W.writing reader.old reader.new writer.old writer.new) config.now fault
        × IsTold F.writing faults.old (fault_line fault) faults.new }
{
    match answer_lines(rt, alloc, config, reader, writer, threads) {
        Ok(()) => 0,
        Err(fault) => {
            tell(faults, &fault);
            fault.status()
        }
    }
}
