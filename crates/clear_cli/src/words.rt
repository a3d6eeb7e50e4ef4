//! The commands that a command line asks for.

ghost use Rattle.std.specs.Prelude.{◌≡◌, ◌≢◌, IfErr, IfOk, None, Some, map, option_map, option_and_then};
ghost use Rattle.std.specs.String.{string_bytes};
ghost use Rattle.command_line.specs.Arguments.{arguments_of, plain_arguments};
ghost use Rattle.clear_cli.specs.Words.{asked, asked_by, asked_with, asks_help, help_of, house_options, is_answering, is_command, is_help_flag, is_report, is_version_flag, reported, run_of, schedule_of, script_of, script_with, shown, shown_by, shown_first, shown_help, threads_of};

use command_line::{Arguments, CommandOption, Fault};
use std::alloc::{AllocError, Global};

/// One of the program's commands.
#[derive(Drop)]
pub enum Job<'a> {
    /// Answers the lines of standard input under the configuration of this path, by so many threads, 1 to 16, if they are given.
    Script {
        config: &'a str,
        threads: Option<usize>,
    },
    /// Replays the calls and steps of the file of this path under the configuration of the other.
    Schedule {
        config: &'a str,
        file: &'a str,
    },
    /// Answers the lines of the files of these paths under the configuration of the first path, and writes what their house leaves
    /// in the folder of the other.
    Run {
        config: &'a str,
        folder: &'a str,
        files: Vec<&'a str>,
    },
    /// Reports by these arguments; the first is the name of the report.
    Report {
        words: &'a [String],
    },
    /// Prints the help of the program, or that of the command of this name.
    Help {
        command: Option<&'a str>,
    },
    /// Prints the version of the program.
    Version,
}

/// How many files a run answers at most.
pub const MOST_FILES: usize = 128;

// Copies the texts.
fn copied<'a>(alloc: Global, texts: &[&'a str]) -> Result<Vec<&'a str>, AllocError>
    ensures { IfOk result (λ copy. map (λ text. text.now) copy.items ≡ map (λ text. text.now) texts.now) }
{
    let mut copy = Vec::new(alloc);
    for text in texts {
        copy.push(*text)?;
    }
    Ok(copy)
}

// The number from 1 to 16 that these digits write.
fn threads_of(word: &str) -> Option<usize>
    ensures { result ≡ threads_of word.now }
{
    match word.as_bytes() {
        [digit @ b'1'..=b'9'] => Some((*digit - b'0') as usize),
        [b'1', digit @ b'0'..=b'6'] => Some(10 + (*digit - b'0') as usize),
        _ => None,
    }
}

// What `script` asks for with this configuration and the value of `--threads`.
fn script_with<'a>(config: &'a str, count: Option<&'a str>) -> Option<Job<'a>>
    ensures { option_map asked_by result ≡ script_with config.now (option_map (λ digits. digits.now) count.entry) }
{
    let Some(digits) = count else {
        return Some(Job::Script {
            config,
            threads: None,
        });
    };
    match threads_of(digits) {
        Some(threads) => Some(Job::Script {
            config,
            threads: Some(threads),
        }),
        None => None,
    }
}

// What `script` asks for.
fn script_of<'a>(count: Option<&'a str>, words: &[&'a str]) -> Option<Job<'a>>
    ensures { option_map asked_by result ≡ script_of (option_map (λ digits. digits.now) count.entry) (map (λ word. word.now) words.now) }
{
    match words {
        [config] => script_with(*config, count),
        _ => None,
    }
}

// What `schedule` asks for.
fn schedule_of<'a>(words: &[&'a str]) -> Option<Job<'a>>
    ensures { option_map asked_by result ≡ schedule_of (map (λ word. word.now) words.now) }
{
    match words {
        [config, file] => Some(Job::Schedule {
            config: *config,
            file: *file,
        }),
        _ => None,
    }
}

// What `run` asks for.
fn run_of<'a>(alloc: Global, words: &[&'a str]) -> Result<Option<Job<'a>>, AllocError>
    ensures { IfOk result (λ job. option_map asked_by job ≡ run_of (map (λ word. word.now) words.now)) }
{
    let [config, folder, files @ ..] = words else {
        return Ok(None);
    };
    if files.is_empty() || files.len() > MOST_FILES {
        return Ok(None);
    }
    Ok(Some(Job::Run {
        config: *config,
        folder: *folder,
        files: copied(alloc, files)?,
    }))
}

// What a command of this name asks for with these arguments, if a house answers by it.
fn job_with<'a>(
    alloc: Global,
    name: &str,
    arguments: &Arguments<'a>,
) -> Result<Option<Job<'a>>, AllocError>
    ensures { IfOk result (λ job. option_map asked_by job ≡ asked_with name.now (plain_arguments arguments.now)) }
{
    match name {
        "script" => Ok(script_of(
            arguments.value_of(CommandOption::Threads),
            arguments.words(),
        )),
        "schedule" => Ok(schedule_of(arguments.words())),
        "run" => run_of(alloc, arguments.words()),
        _ => Ok(None),
    }
}

// The options of a command by which a house answers.
fn house_options(name: &str) -> &'static [CommandOption]
    ensures { result.now ≡ house_options name.now }
{
    match name {
        "script" => &[CommandOption::Threads],
        _ => &[],
    }
}

// What the words after the name of a command ask a house for.
fn house_job<'a>(alloc: Global, name: &str, words: &'a [String]) -> Result<Job<'a>, Fault<'static>>
    ensures given { IfOk result (λ job. option_and_then (asked_with name.now) (arguments_of (house_options name.now) (map string_bytes words.now)) ≡ Some (asked_by job)) }
    ensures refused { IfErr result (λ fault. fault ≢ Fault.NoMemory → (fault ≡ Fault.Usage)
        × (option_and_then (asked_with name.now) (arguments_of (house_options name.now) (map string_bytes words.now)) ≡ None)) }
{
    let arguments = Arguments::read(alloc, house_options(name), words)?;
    match job_with(alloc, name, &arguments)? {
        Some(job) => Ok(job),
        None => Err(Fault::Usage),
    }
}

fn is_help_flag(word: &str) -> bool
    ensures { result ≡ is_help_flag word.now }
{
    matches!(word, "--help" | "-h")
}

fn is_version_flag(word: &str) -> bool
    ensures { result ≡ is_version_flag word.now }
{
    matches!(word, "--version" | "-V")
}

fn is_answering(name: &str) -> bool
    ensures { result ≡ is_answering name.now }
{
    matches!(name, "script" | "schedule" | "run")
}

fn is_report(name: &str) -> bool
    ensures { result ≡ is_report name.now }
{
    matches!(
        name,
        "check_config"
            | "check-config"
            | "explain_lines"
            | "explain-lines"
            | "statements"
            | "balances"
            | "rate"
            | "explain_cost"
            | "explain-cost"
            | "re_rate"
            | "re-rate"
            | "keep"
            | "stream"
            | "configure"
            | "log"
            | "check"
            | "head"
            | "upgrade"
    )
}

/// Whether the program has a command of this name.
pub fn is_command(name: &str) -> bool
    ensures { result ≡ is_command name.now }
{
    is_answering(name) || is_report(name)
}

fn help_of<'a>(name: &'a str) -> Option<Job<'a>>
    ensures { option_map asked_by result ≡ help_of name.entry.now }
{
    if is_command(name) {
        Some(Job::Help {
            command: Some(name),
        })
    } else {
        None
    }
}

fn shown_first<'a>(word: &'a str) -> Option<Job<'a>>
    ensures { option_map asked_by result ≡ shown_first word.entry.now }
{
    if is_version_flag(word) {
        Some(Job::Version)
    } else if is_help_flag(word) {
        Some(Job::Help { command: None })
    } else {
        None
    }
}

// Whether one of the words before `--` asks for help.
fn asks_help(words: &[String]) -> bool
    ensures { result ≡ asks_help (map string_bytes words.now) }
{
    for word in words {
        if word.as_str() == "--" {
            return false;
        }
        if is_help_flag(word.as_str()) {
            return true;
        }
    }
    false
}

fn shown_help<'a>(words: &'a [String]) -> Option<Job<'a>>
    ensures { option_map asked_by result ≡ shown_help (map string_bytes words.now) }
{
    match words {
        [] => Some(Job::Help { command: None }),
        [name] => help_of(name.as_str()),
        _ => None,
    }
}

fn shown_by<'a>(name: &'a str, words: &'a [String]) -> Option<Job<'a>>
    ensures { option_map asked_by result ≡ shown_by name.entry.now (map string_bytes words.now) }
{
    if name == "help" {
        shown_help(words)
    } else if asks_help(words) {
        help_of(name)
    } else {
        None
    }
}

// The help or the version, if these words after the program's name ask for it.
fn shown<'a>(words: &'a [String]) -> Option<Job<'a>>
    ensures { option_map asked_by result ≡ shown (map string_bytes words.now) }
{
    let [first, rest @ ..] = words else {
        return None;
    };
    match shown_first(first.as_str()) {
        Some(job) => Some(job),
        None => shown_by(first.as_str(), rest),
    }
}

// The report, if these words after the program's name ask for one.
fn reported<'a>(words: &'a [String]) -> Option<Job<'a>>
    ensures { option_map asked_by result ≡ reported (map string_bytes words.now) }
{
    match words {
        [name, ..] if is_report(name.as_str()) => Some(Job::Report { words }),
        _ => None,
    }
}

/// Reads what the words ask for, the program's name first.
///
/// # Errors
///
/// `Usage` for every other command line, `NoMemory`.
pub fn read_words<'a>(alloc: Global, words: &'a [String]) -> Result<Job<'a>, Fault<'static>>
    ensures refused { IfErr result (λ fault. fault ≢ Fault.NoMemory → (fault ≡ Fault.Usage) × (asked (map string_bytes words.now) ≡ None)) }
    ensures given { IfOk result (λ job. asked (map string_bytes words.now) ≡ Some (asked_by job)) }
{
    let [_, words @ ..] = words else {
        return Err(Fault::Usage);
    };
    if let Some(job) = shown(words) {
        return Ok(job);
    }
    if let Some(job) = reported(words) {
        return Ok(job);
    }
    let [name, words @ ..] = words else {
        return Err(Fault::Usage);
    };
    house_job(alloc, name.as_str(), words)
}
