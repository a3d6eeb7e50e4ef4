//! The help of the program and of its commands, which clap lays out, and the version.

ghost use Rattle.std.specs.Prelude.{◌≡◌, IfErr, OnOk, is_some, true};
ghost use Rattle.clear_cli.specs.Words.{is_command};

use crate::words::MOST_FILES;
use clap::{Arg, ArgAction, Command, value_parser};
use command_line::{CommandOption, Fault};
use request_lines::{Sink, write_all};
use std::alloc::{AllocError, Global};

/// The version, and the kit that the program is proved and built with.
pub const VERSION: &str = "0.3.0 (rattle-kit-13f logic dac8208d650f15bf)";

const ABOUT: &str =
    "A clearing house for roaming between charge point operators and e-mobility providers, by OCPI 2.2.1";

/// An argument of a command, and what it is.
#[derive(Clone, Copy)]
enum Argument {
    /// It has to be given.
    Given {
        name: &'static str,
        help: &'static str,
    },
    /// It can be left out.
    Optional {
        name: &'static str,
        help: &'static str,
    },
    /// It has to be given, or else `--store`.
    UnlessStore {
        name: &'static str,
        help: &'static str,
    },
    /// 1 to 128 of it have to be given.
    Many {
        name: &'static str,
        help: &'static str,
    },
    Option {
        option: CommandOption,
        /// What its value is called; nothing, if it has none.
        value: &'static str,
        help: &'static str,
    },
}

const CONFIG: Argument = Argument::Given {
    name: "CONFIG",
    help: "The path of the configuration, a JSON file",
};

const CONFIG_OF_NEW_STORE: Argument = Argument::Optional {
    name: "CONFIG",
    help: "The path of the configuration, a JSON file; it can be left out if there is a store",
};

const CONFIG_UNLESS_STORE: Argument = Argument::UnlessStore {
    name: "CONFIG",
    help: "The path of the configuration, a JSON file",
};

const THREADS: Argument = Argument::Option {
    option: CommandOption::Threads,
    value: "N",
    help: "How many threads read lines, 1 to 16; without it one for each processor, at most 4",
};

const FILE: Argument = Argument::Given {
    name: "FILE",
    help: "The path of the schedule",
};

const OUT: Argument = Argument::Given {
    name: "OUT",
    help: "The path of the folder for the answers, the order and the statements",
};

const FILES: Argument = Argument::Many {
    name: "FILE",
    help: "The paths of 1 to 128 files of request lines",
};

const PLATFORM: Argument = Argument::Given {
    name: "PLATFORM",
    help: "The name of the platform that asks for the change, a hub",
};

const TABLE: Argument = Argument::Option {
    option: CommandOption::Table,
    value: "",
    help: "Prints a table for a terminal; -table does so, too",
};

const STORE: Argument = Argument::Given {
    name: "STORE",
    help: "The path of the folder of a store, which keep makes if there is none",
};

const FROM: Argument = Argument::Option {
    option: CommandOption::From,
    value: "N",
    help: "How many answers the client has; it has to be given if the store keeps lines",
};

const AT: Argument = Argument::Option {
    option: CommandOption::At,
    value: "K",
    help: "After the first K lines of the store, without its first record; without it, after all",
};

const AT_HEAD: Argument = Argument::Option {
    option: CommandOption::At,
    value: "K",
    help: "How many of the first lines are to have the head of --head",
};

const HEAD_ASKED: Argument = Argument::Option {
    option: CommandOption::Head,
    value: "HEX",
    help: "Says also whether this is the head after the first record and the first K lines of --at; the status is 1 if it is not",
};

const OLD_STORE: Argument = Argument::Given {
    name: "STORE",
    help: "The path of the folder of a store of format 1, which stays as it is",
};

const NEW_STORE: Argument = Argument::Given {
    name: "NEW",
    help: "The path of the folder of the new store, in which there is none yet",
};

const FROM_STORE: Argument = Argument::Option {
    option: CommandOption::Store,
    value: "STORE",
    help: "Takes the configuration and the lines of this store, in place of CONFIG and standard input; another program may append to it meanwhile",
};

const CHANGED_STORE: Argument = Argument::Option {
    option: CommandOption::Store,
    value: "STORE",
    help: "Prints also whether the hub of this store could change to the configuration; another program may append to it meanwhile",
};

const ANSWERS: Argument = Argument::Option {
    option: CommandOption::Answers,
    value: "",
    help: "Prints the answer to each line after it",
};

const PROGRESS: Argument = Argument::Option {
    option: CommandOption::Progress,
    value: "FORM",
    help: "Shows on standard error how far it is, after each 33 MB, as it does on a terminal; =json as JSON",
};

const CAUSES: Argument = Argument::Option {
    option: CommandOption::Causes,
    value: "",
    help: "Adds its cause to the answer to each line that is refused with one of the refusals 1 to 12",
};

const ZONE: Argument = Argument::Given {
    name: "ZONE",
    help: "The time zone of the operator, as in a configuration: CET-1CEST,M3.5.0,M10.5.0/3",
};

/// What is known of a command: its name and how it is written with a hyphen, the form of its command line, what it does, and its
/// arguments.
#[derive(Clone, Copy)]
struct Entry {
    name: &'static str,
    hyphened: Option<&'static str>,
    form: &'static str,
    about: &'static str,
    arguments: [Option<Argument>; 5],
}

const SCRIPT: Entry = Entry {
    name: "script",
    hyphened: None,
    form: "clear script CONFIG [--threads N] < LINES",
    about: "Answers the request lines of standard input, in their order",
    arguments: [Some(CONFIG), Some(THREADS), None, None, None],
};

const SCHEDULE: Entry = Entry {
    name: "schedule",
    hyphened: None,
    form: "clear schedule CONFIG FILE",
    about: "Replays the calls of a schedule step by step",
    arguments: [Some(CONFIG), Some(FILE), None, None, None],
};

const RUN: Entry = Entry {
    name: "run",
    hyphened: None,
    form: "clear run CONFIG OUT FILE..",
    about: "Answers the request lines of many files at once",
    arguments: [Some(CONFIG), Some(OUT), Some(FILES), None, None],
};

const CHECK_CONFIG: Entry = Entry {
    name: "check_config",
    hyphened: Some("check-config"),
    form: "clear check_config CONFIG [--store STORE]",
    about: "Prints what is in force in a configuration, and what of it is passed over",
    arguments: [Some(CONFIG), Some(CHANGED_STORE), None, None, None],
};

const EXPLAIN_LINES: Entry = Entry {
    name: "explain_lines",
    hyphened: Some("explain-lines"),
    form: "clear explain_lines CONFIG < LINES, or clear explain_lines --store STORE",
    about: "Prints where and why request lines are refused, as CSV",
    arguments: [
        Some(CONFIG_UNLESS_STORE),
        Some(FROM_STORE),
        Some(PROGRESS),
        None,
        None,
    ],
};

const STATEMENTS: Entry = Entry {
    name: "statements",
    hyphened: None,
    form: "clear statements CONFIG < LINES, or clear statements --store STORE",
    about: "Prints the order of events and the statements of closed periods, as CSV",
    arguments: [
        Some(CONFIG_UNLESS_STORE),
        Some(FROM_STORE),
        Some(PROGRESS),
        None,
        None,
    ],
};

const BALANCES: Entry = Entry {
    name: "balances",
    hyphened: None,
    form: "clear balances CONFIG [--table] < LINES, or clear balances [--table] --store STORE",
    about: "Prints what is owed, settled and open, as CSV or as a table",
    arguments: [
        Some(CONFIG_UNLESS_STORE),
        Some(TABLE),
        Some(FROM_STORE),
        Some(PROGRESS),
        None,
    ],
};

const RATE: Entry = Entry {
    name: "rate",
    hyphened: None,
    form: "clear rate ZONE < CDR",
    about: "Prints what a CDR costs by its tariffs",
    arguments: [Some(ZONE), None, None, None, None],
};

const EXPLAIN_COST: Entry = Entry {
    name: "explain_cost",
    hyphened: Some("explain-cost"),
    form: "clear explain_cost ZONE < CDR",
    about: "Prints what a CDR costs row by row, as CSV",
    arguments: [Some(ZONE), None, None, None, None],
};

const RE_RATE: Entry = Entry {
    name: "re_rate",
    hyphened: Some("re-rate"),
    form: "clear re_rate ZONE < RECORDS",
    about: "Prints which CDRs are not rated at what was booked",
    arguments: [Some(ZONE), None, None, None, None],
};

const KEEP: Entry = Entry {
    name: "keep",
    hyphened: None,
    form: "clear keep [CONFIG] STORE [--from N] [--causes] < LINES",
    about: "Answers the request lines of standard input, each after it is on the disk",
    arguments: [
        Some(CONFIG_OF_NEW_STORE),
        Some(STORE),
        Some(FROM),
        Some(CAUSES),
        Some(PROGRESS),
    ],
};

const STREAM: Entry = Entry {
    name: "stream",
    hyphened: None,
    form: "clear stream CONFIG [--causes] < LINES",
    about: "Answers request lines that another program keeps, and lines that change the configuration",
    arguments: [Some(CONFIG), Some(CAUSES), None, None, None],
};

const CONFIGURE: Entry = Entry {
    name: "configure",
    hyphened: None,
    form: "clear configure CONFIG PLATFORM",
    about: "Prints the line by which a hub changes the configuration to that of a file",
    arguments: [Some(CONFIG), Some(PLATFORM), None, None, None],
};

const LOG: Entry = Entry {
    name: "log",
    hyphened: None,
    form: "clear log STORE [--answers]",
    about: "Prints the request lines that a store keeps",
    arguments: [Some(STORE), Some(ANSWERS), Some(PROGRESS), None, None],
};

const CHECK: Entry = Entry {
    name: "check",
    hyphened: None,
    form: "clear check STORE [--head HEX --at K]",
    about: "Checks each byte of a store, and prints how many request lines it keeps, the head after them and whether its end is torn",
    arguments: [
        Some(STORE),
        Some(HEAD_ASKED),
        Some(AT_HEAD),
        Some(PROGRESS),
        None,
    ],
};

const HEAD: Entry = Entry {
    name: "head",
    hyphened: None,
    form: "clear head STORE [--at K]",
    about: "Prints the head after the first request lines of a store",
    arguments: [Some(STORE), Some(AT), Some(PROGRESS), None, None],
};

const UPGRADE: Entry = Entry {
    name: "upgrade",
    hyphened: None,
    form: "clear upgrade STORE NEW",
    about: "Copies a store of format 1 to a new store",
    arguments: [Some(OLD_STORE), Some(NEW_STORE), None, None, None],
};

/// All commands, in the order of the help.
const ENTRIES: [Entry; 17] = [
    SCRIPT,
    SCHEDULE,
    RUN,
    KEEP,
    STREAM,
    CONFIGURE,
    LOG,
    CHECK,
    HEAD,
    UPGRADE,
    CHECK_CONFIG,
    EXPLAIN_LINES,
    STATEMENTS,
    BALANCES,
    RATE,
    EXPLAIN_COST,
    RE_RATE,
];

fn entry_of(name: &str) -> Option<Entry>
    ensures { is_some result ≡ is_command name.now }
{
    match name {
        "script" => Some(SCRIPT),
        "schedule" => Some(SCHEDULE),
        "run" => Some(RUN),
        "keep" => Some(KEEP),
        "stream" => Some(STREAM),
        "configure" => Some(CONFIGURE),
        "log" => Some(LOG),
        "check" => Some(CHECK),
        "head" => Some(HEAD),
        "upgrade" => Some(UPGRADE),
        "check_config" | "check-config" => Some(CHECK_CONFIG),
        "explain_lines" | "explain-lines" => Some(EXPLAIN_LINES),
        "statements" => Some(STATEMENTS),
        "balances" => Some(BALANCES),
        "rate" => Some(RATE),
        "explain_cost" | "explain-cost" => Some(EXPLAIN_COST),
        "re_rate" | "re-rate" => Some(RE_RATE),
        _ => None,
    }
}

/// Returns the options of the command of this name.
pub fn options_of(alloc: Global, name: &str) -> Result<Vec<CommandOption>, AllocError> {
    let mut options = Vec::new(alloc);
    let Some(entry) = entry_of(name) else {
        return Ok(options);
    };
    for argument in entry.arguments.into_iter().flatten() {
        if let Argument::Option { option, .. } = argument {
            options.push(option)?;
        }
    }
    Ok(options)
}

// An option as clap has it.
fn option_as<'a>(
    alloc: Global,
    option: CommandOption,
    value: &'static str,
    help: &'static str,
) -> Arg<'a> {
    let name = option.name();
    let shown = Arg::new(alloc, name).long(name).help(help);
    if option.may_have_value() {
        return shown
            .action(ArgAction::Set)
            .value_name(value)
            .num_args(0..=1)
            .require_equals(true)
            .value_parser(["json"].as_slice());
    }
    if !option.has_value() {
        return shown.action(ArgAction::SetTrue);
    }
    let shown = shown.action(ArgAction::Set).value_name(value);
    match option {
        CommandOption::Threads => shown.value_parser(value_parser!(u8).range(1..=16)),
        CommandOption::From | CommandOption::At => shown.value_parser(value_parser!(u64)),
        _ => shown,
    }
}

fn shown_as<'a>(alloc: Global, argument: Argument) -> Result<Arg<'a>, AllocError> {
    match argument {
        Argument::Given { name, help } => Ok(Arg::new(alloc, name).required(true).help(help)),
        Argument::Optional { name, help } => Ok(Arg::new(alloc, name).help(help)),
        Argument::UnlessStore { name, help } => Arg::new(alloc, name)
            .help(help)
            .required_unless_present("store")?
            .conflicts_with("store"),
        Argument::Many { name, help } => Ok(
            Arg::new(alloc, name)
                .required(true)
                .num_args(1..=MOST_FILES)
                .help(help),
        ),
        Argument::Option {
            option,
            value,
            help,
        } => Ok(option_as(alloc, option, value, help)),
    }
}

fn command_of<'a>(alloc: Global, entry: Entry) -> Result<Command<'a>, AllocError> {
    let mut command = Command::new(alloc, entry.name)
        .about(entry.about)
        .override_usage(entry.form)
        .allow_missing_positional(true);
    if let Some(hyphened) = entry.hyphened {
        command = command.alias(hyphened)?;
    }
    for argument in entry.arguments.into_iter().flatten() {
        command = command.arg(shown_as(alloc, argument)?)?;
    }
    Ok(command)
}

/// The program as clap has it, with all commands.
pub fn program<'a>(alloc: Global) -> Result<Command<'a>, AllocError> {
    let mut program = Command::new(alloc, "clear")
        .version(VERSION)
        .about(ABOUT)
        .override_usage("clear COMMAND ..")
        .subcommand_required(true);
    for entry in ENTRIES {
        program = program.subcommand(command_of(alloc, entry)?)?;
    }
    Ok(program)
}

/// The command of this name as clap has it, or the program if it has none of this name.
pub fn command_or_program<'a>(alloc: Global, name: &str) -> Result<Command<'a>, AllocError> {
    match entry_of(name) {
        Some(entry) => command_of(alloc, entry),
        None => program(alloc),
    }
}

/// The help of the program, or that of the command of this name.
pub fn help(alloc: Global, name: Option<&str>) -> Result<String, AllocError> {
    match name.and_then(entry_of) {
        Some(entry) => command_of(alloc, entry)?.render_help(),
        None => program(alloc)?.render_help(),
    }
}

/// The program's name and version, in a line.
pub fn version(alloc: Global) -> Result<String, AllocError> {
    program(alloc)?.render_version()
}

/// Writes the whole text.
///
/// # Errors
///
/// `CannotWrite` if the writer fails.
pub fn show<W: Sink>(writer: &mut W, text: &str) -> Result<(), Fault<'static>>
    ensures ok { OnOk result (W.writing.takes writer.old text.now writer.new) }
    ensures fault { IfErr result (λ fault. (fault ≡ Fault.CannotWrite) × (W.writing.failed writer.new ≡ true)) }
{
    match write_all(writer, text.as_bytes()) {
        Ok(()) => Ok(()),
        Err(_) => Err(Fault::CannotWrite),
    }
}
