//! Commands that tell of a configuration, of CDRs, or of a house after its lines, and those over a store, beside those by which a house
//! answers.

use crate::help::{VERSION, options_of};
use command_line::{
    Arguments, CommandOption, Fault, Input, Progress, Watched, file_path, read_file_start,
    tell_unread_file,
};
use house_reports::Lines;
use input_reports::{Records, print_amount, print_explanation, tell_config};
use ocpi_types::Zone;
use re_rating::re_rate;
use request_lines::Device;
use std::cell::Cell;
use std::io::{self, ErrorKind};
use std::process::ExitCode;
use std::thread::Threads;
use store_commands::{StoreText, check_change, tell_unread};

// The reports on CDRs.
#[derive(Clone, Copy)]
enum Costs {
    Rate,
    ExplainCost,
    ReRate,
}

// The reports.
#[derive(Clone, Copy)]
enum Report {
    CheckConfig,
    Costs(Costs),
    House(house_reports::Command),
    Store(store_commands::Command),
}

impl Costs {
    fn of(name: &str) -> Option<Costs> {
        match name {
            "rate" => Some(Costs::Rate),
            "explain_cost" | "explain-cost" => Some(Costs::ExplainCost),
            "re_rate" | "re-rate" => Some(Costs::ReRate),
            _ => None,
        }
    }
}

impl Report {
    // What the command of this name is to tell.
    fn of(name: &str) -> Option<Report> {
        if matches!(name, "check_config" | "check-config") {
            return Some(Report::CheckConfig);
        }
        if let Some(costs) = Costs::of(name) {
            return Some(Report::Costs(costs));
        }
        match store_commands::Command::of(name) {
            Some(command) => Some(Report::Store(command)),
            None => Some(Report::House(house_reports::Command::of(name)?)),
        }
    }
}

// Tells which of the records of standard input are not rated at what was booked.
fn tell_differences(
    rt: &HostRuntime,
    threads: &(impl Threads + Sync),
    zone: &Zone,
) -> io::Result<u8> {
    let records = Records::read(rt)?;
    let differences = re_rate(threads, rt.alloc(), records.as_slice(), zone)?;
    records.tell_all(rt, differences.as_slice())
}

fn tell_costs(
    rt: &HostRuntime,
    threads: &(impl Threads + Sync),
    costs: Costs,
    zone: &Zone,
) -> io::Result<u8> {
    match costs {
        Costs::Rate => print_amount(rt, zone),
        Costs::ExplainCost => print_explanation(rt, zone),
        Costs::ReRate => tell_differences(rt, threads, zone),
    }
}

// Reports of the house of the store at this path.
fn report_store(
    rt: &HostRuntime,
    command: house_reports::Command,
    arguments: &Arguments<'_>,
    store: &str,
) -> Result<ExitCode, Fault<'static>> {
    let mut progress = Progress::of(rt, arguments)?;
    let (text, config) = match StoreText::open(rt, store) {
        Ok(opened) => opened,
        Err(fault) => return Ok(ExitCode::from(tell_unread(rt, false, store, fault))),
    };
    if let Ok(bytes) = text.file_bytes() {
        progress.expect(bytes);
    }
    let config = config.as_slice();
    let mut reader = Device::new(Watched::new(text, progress));
    let done = command.done(rt, arguments, Lines::Stream { config }, &mut reader);
    match reader.inner.inner.unread() {
        Some(fault) => Ok(ExitCode::from(tell_unread(rt, false, store, fault))),
        None => done,
    }
}

// Reports of a house after the lines of standard input.
fn report_input(
    rt: &HostRuntime,
    command: house_reports::Command,
    arguments: &Arguments<'_>,
    path: &str,
) -> Result<ExitCode, Fault<'static>> {
    let progress = Progress::of(rt, arguments)?;
    let config = match read_file_start(rt, path) {
        Ok(config) => config,
        Err(cause) => return Ok(ExitCode::from(tell_unread_file(rt, path, cause))),
    };
    let unread = Cell::new(None);
    let mut reader = Device::new(Input::watched(rt.stdin(), &unread, progress));
    let config = config.as_slice();
    let done = command.done(rt, arguments, Lines::Script { config }, &mut reader);
    match (done, unread.get()) {
        (Err(Fault::CannotReadInput), Some(cause)) => {
            Ok(ExitCode::from(tell_unread_file(rt, "-", cause)))
        }
        (done, _) => done,
    }
}

// Reports of a house after the lines of standard input, or of a store.
fn report_house(
    rt: &HostRuntime,
    command: house_reports::Command,
    arguments: &Arguments<'_>,
) -> Result<ExitCode, Fault<'static>> {
    match (arguments.words(), arguments.value_of(CommandOption::Store)) {
        ([], Some(store)) => report_store(rt, command, arguments, store),
        ([config], None) => report_input(rt, command, arguments, *config),
        _ => Err(Fault::Usage),
    }
}

// Reports of the configuration at a path, and whether the hub of a store could change to it, if one is given.
fn report_config(rt: &HostRuntime, arguments: &Arguments<'_>) -> Result<ExitCode, Fault<'static>> {
    let [config] = arguments.words() else {
        return Err(Fault::Usage);
    };
    let bytes = match read_file_start(rt, file_path(*config)) {
        Ok(bytes) => bytes,
        Err(cause) => return Ok(ExitCode::from(tell_unread_file(rt, *config, cause))),
    };
    let of_config = tell_config(rt, bytes.as_slice())?;
    let Some(store) = arguments.value_of(CommandOption::Store) else {
        return Ok(of_config);
    };
    if of_config == ExitCode::from(1) {
        return Ok(of_config);
    }
    match check_change(rt, bytes.as_slice(), store)? {
        0 => Ok(of_config),
        status => Ok(ExitCode::from(status)),
    }
}

// Returns the zone of the words, the command's name first.
fn zone_of(words: &[String]) -> Option<Zone> {
    match words {
        [_, zone] => Zone::read(zone.as_str()),
        [_, end, zone] if end.as_str() == "--" => Zone::read(zone.as_str()),
        _ => None,
    }
}

// Reports the error, unless the reader of the output has gone, and returns the exit status.
fn told(rt: &HostRuntime, done: io::Result<u8>) -> ExitCode {
    let _ = match done {
        Ok(status) => return ExitCode::from(status),
        Err(error) => match error.kind() {
            ErrorKind::BrokenPipe => return ExitCode::from(1),
            ErrorKind::OutOfMemory => eprintln!(rt; "clear: no memory"),
            _ => eprintln!(rt; "clear: cannot read or write: {error}"),
        },
    };
    ExitCode::from(1)
}

/// Reports by these words, the command's name first, and returns the exit status.
///
/// # Errors
///
/// The fault that ends the report early. If the reader of the output has gone, the error is not reported: the status is returned.
pub fn perform(
    rt: &HostRuntime,
    threads: &(impl Threads + Sync),
    words: &[String],
) -> Result<ExitCode, Fault<'static>> {
    let [name, behind @ ..] = words else {
        return Err(Fault::Usage);
    };
    let Some(report) = Report::of(name.as_str()) else {
        return Err(Fault::Usage);
    };
    if let Report::Costs(costs) = report {
        return match zone_of(words) {
            Some(zone) => Ok(told(rt, tell_costs(rt, threads, costs, &zone))),
            None => Err(Fault::Usage),
        };
    }
    let options = options_of(rt.alloc(), name.as_str())?;
    let arguments = Arguments::read(rt.alloc(), options.as_slice(), behind)?;
    match report {
        Report::CheckConfig => report_config(rt, &arguments),
        Report::House(command) => report_house(rt, command, &arguments),
        Report::Store(command) => command.done(rt, VERSION, &arguments),
        Report::Costs(_) => Err(Fault::Usage),
    }
}
