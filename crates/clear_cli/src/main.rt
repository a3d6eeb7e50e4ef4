//! The program `clear`: a clearing house that answers lines, and reports of what it is given and has.
#![tactic(auto)]

mod differences;
mod fault;
mod files;
mod folder;
mod help;
mod house_run;
mod opening;
mod out_folder;
mod outputs;
mod reports;
mod run;
mod schedule;
mod schedule_file;
mod schedule_text;
mod script;
mod step_line;
mod usage;
mod words;

use command_line::{Errors, Fault, Output, given_words, open_given, read_config, read_start, tell};
use files::{FileId, open_file, open_known, read_known_config};
use out_folder::{OutFolder, refuse_folder};
use request_lines::Device;
use run::run;
use schedule::schedule;
use script::script;
use std::alloc::Global;
use std::cell::Cell;
use std::fs::File;
use std::process::ExitCode;
use std::sync::Wait;
use std::thread::{Threads, available_parallelism};
use words::{Job, read_words};

/// How many threads read and answer the lines of a script at most, if no number is given.
const MOST_READING_THREADS: usize = 4;

// As many threads as there are processors, at most 4.
fn default_threads(threads: &impl Threads) -> usize {
    match available_parallelism(threads) {
        Ok(count) => count.get().min(MOST_READING_THREADS),
        Err(_) => 1,
    }
}

// Answers standard input by so many threads, and returns the exit status.
fn answer_input<'a>(
    rt: &HostRuntime,
    threads: &(impl Threads + Sync),
    config: &'a str,
    count: Option<usize>,
) -> Result<u8, Fault<'a>> {
    let file = read_config(rt, config)?;
    let is_gone = Cell::new(false);
    let mut reader = Device::new(rt.stdin());
    let mut writer = Device::new(Output::new(rt.stdout(), &is_gone));
    let mut faults = Device::new(Errors::new(rt.stderr(), &is_gone));
    let count = match count {
        Some(count) => count,
        None => default_threads(threads),
    };
    Ok(script(
        threads,
        rt.alloc(),
        file.as_slice(),
        &mut reader,
        &mut writer,
        &mut faults,
        count,
    ))
}

// Replays the file of a schedule, and returns the exit status.
fn replay_file<'a>(rt: &HostRuntime, config: &'a str, path: &'a str) -> Result<u8, Fault<'a>> {
    let file = read_start(rt.alloc(), open_given(rt, config)?, config)?;
    let reader = match open_file(rt, path)? {
        Some(opened) => Some(Device::new(opened)),
        None => None,
    };
    let is_gone = Cell::new(false);
    let mut writer = Device::new(Output::new(rt.stdout(), &is_gone));
    let mut faults = Device::new(Errors::new(rt.stderr(), &is_gone));
    Ok(schedule(
        rt.alloc(),
        path,
        file.as_slice(),
        reader,
        &mut writer,
        &mut faults,
    ))
}

// Opens the files of these paths, each with its reader if it can be opened, and adds their identities to `recorded`.
fn given_files(
    rt: &HostRuntime,
    alloc: Global,
    recorded: &mut Vec<FileId>,
    paths: &[&str],
) -> Result<Vec<(String, Option<Device<File>>)>, Fault<'static>> {
    let mut files = Vec::new(alloc);
    for path in paths {
        let reader = match open_known(rt, path)? {
            Some(opened) => {
                recorded.push(opened.id)?;
                Some(Device::new(opened.file))
            }
            None => None,
        };
        files.push((String::from_str(alloc, path)?, reader))?;
    }
    Ok(files)
}

// Answers files by threads, and returns the exit status. All files are open before an answer file is made.
fn answer_files<'a>(
    rt: &HostRuntime,
    threads: &(impl Threads + Wait + Sync),
    config: &'a str,
    folder: &'a str,
    paths: &[&str],
) -> Result<u8, Fault<'a>> {
    let (file, id) = read_known_config(rt, config)?;
    refuse_folder(rt, file.as_slice(), folder)?;
    let mut recorded = Vec::new(rt.alloc());
    recorded.push(id)?;
    let files = given_files(rt, rt.alloc(), &mut recorded, paths)?;
    let mut folder = OutFolder::new(rt, folder, recorded);
    let is_gone = Cell::new(false);
    let mut writer = Device::new(Output::new(rt.stdout(), &is_gone));
    let mut faults = Device::new(Errors::new(rt.stderr(), &is_gone));
    let ended = run(
        threads,
        rt.alloc(),
        file.as_slice(),
        files,
        &mut folder,
        &mut writer,
        &mut faults,
    );
    Ok(ended.status)
}

// Prints the text, and returns the exit status. If the reader of the output has gone, it reports nothing.
fn print_text(rt: &HostRuntime, text: &str) -> Result<u8, Fault<'static>> {
    let is_gone = Cell::new(false);
    let mut writer = Device::new(Output::new(rt.stdout(), &is_gone));
    match help::show(&mut writer, text) {
        Ok(()) => Ok(0),
        Err(fault) if is_gone.get() => Ok(fault.status()),
        Err(fault) => Err(fault),
    }
}

// Does the command of the words, and returns the exit status.
fn perform<'a>(
    rt: &HostRuntime,
    threads: &(impl Threads + Wait + Sync),
    words: &'a [String],
) -> Result<ExitCode, Fault<'a>> {
    let status = match read_words(rt.alloc(), words)? {
        Job::Script {
            config,
            threads: count,
        } => answer_input(rt, threads, config, count)?,
        Job::Schedule { config, file } => replay_file(rt, config, file)?,
        Job::Run {
            config,
            folder,
            files,
        } => answer_files(rt, threads, config, folder, files.as_slice())?,
        Job::Report { words } => return Ok(reports::perform(rt, threads, words)?),
        Job::Help { command } => print_text(rt, help::help(rt.alloc(), command)?.as_str())?,
        Job::Version => print_text(rt, help::version(rt.alloc())?.as_str())?,
    };
    Ok(ExitCode::from(status))
}

fn told(rt: &HostRuntime, fault: &Fault<'_>) -> ExitCode {
    tell(&mut Device::new(rt.stderr()), fault);
    ExitCode::from(fault.status())
}

fn main(rt: HostRuntime) -> ExitCode {
    let words = match given_words(&rt) {
        Ok(words) => words,
        Err(fault) => return told(&rt, &fault),
    };
    match perform(&rt, &rt, words.as_slice()) {
        Ok(status) => status,
        Err(fault) => {
            if matches!(fault, Fault::Usage) {
                let _ = usage::explain(&rt, words.as_slice());
            }
            told(&rt, &fault)
        }
    }
}
