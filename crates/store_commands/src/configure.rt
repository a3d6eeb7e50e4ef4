//! The command `configure`: prints the line by which a hub changes the configuration.

ghost use Rattle.std.specs.Prelude.{◌≡◌, IfOk, IfErr};
ghost use Rattle.store_commands.specs.Change.{change_line, escaped};

use crate::words::{ConfigureAsked, configure_asked};
use command_line::{
    Arguments, Errors, Fault, Output, file_path, read_file_start, tell, tell_unread_file,
};
use kept_house::on_one_line;
use ocpi_json::ci_text::CiText;
use ocpi_types::Config;
use request_lines::{Device, MOST_LINE_BYTES, Sink, write_all};
use std::alloc::{AllocError, Global};
use std::cell::Cell;

const PLATFORM: &str = "{\"platform\":\"";

const CONFIGURATION: &str = "\",\"do\":\"configure\",\"configuration\":";

/// Returns a text as it is inside a string of JSON: quotation marks and backslashes have a backslash before them.
fn escaped(alloc: Global, text: &str) -> Result<Vec<u8>, AllocError>
    ensures { IfOk result (λ bytes. bytes.items ≡ escaped text.now) }
{
    let mut bytes = Vec::new(alloc);
    for byte in text.as_bytes() {
        if *byte == b'"' || *byte == b'\\' {
            bytes.push(b'\\')?;
        }
        bytes.push(*byte)?;
    }
    Ok(bytes)
}

/// Returns the line, without its newline, by which a platform asks for the configuration of this text.
fn change_line(alloc: Global, platform: &str, config: &[u8]) -> Result<Vec<u8>, AllocError>
    ensures { IfOk result (λ line. line.items ≡ change_line platform.now config.now) }
{
    let mut line = Vec::new(alloc);
    line.extend_from_slice(PLATFORM.as_bytes())?;
    line.extend_from_slice(escaped(alloc, platform)?.as_slice())?;
    line.extend_from_slice(CONFIGURATION.as_bytes())?;
    line.extend_from_slice(on_one_line(alloc, config)?.as_slice())?;
    line.push(b'}')?;
    Ok(line)
}

/// Returns whether a platform can have this name: 1 to 36 printable ASCII characters.
fn is_platform_name(text: &str) -> bool {
    !text.is_empty() && CiText::<36>::new(text).is_some()
}

/// Writes a line and its newline.
fn write_line<W: Sink>(writer: &mut W, line: &[u8]) -> Result<(), Fault<'static>> {
    for part in [line, b"\n".as_slice()] {
        if write_all(writer, part).is_err() {
            return Err(Fault::CannotWrite);
        }
    }
    Ok(())
}

/// Prints the line, if it is no longer than a line may be.
fn print_line(rt: &HostRuntime, asked: ConfigureAsked<'_>, line: &[u8]) -> u8 {
    if line.len() > MOST_LINE_BYTES {
        let _ = eprintln!(rt;
            "clear: {}: the line is longer than a line may be",
            asked.config
        );
        return 1;
    }
    let is_gone = Cell::new(false);
    let mut writer = Device::new(Output::new(rt.stdout(), &is_gone));
    match write_line(&mut writer, line) {
        Ok(()) => 0,
        Err(fault) => {
            tell(&mut Device::new(Errors::new(rt.stderr(), &is_gone)), &fault);
            fault.status()
        }
    }
}

/// Prints the line that changes the configuration to that of a file, and returns the exit status.
pub fn perform(rt: &HostRuntime, arguments: &Arguments<'_>) -> Result<u8, Fault<'static>> {
    let asked = configure_asked(arguments)?;
    if !is_platform_name(asked.platform) {
        let _ = eprintln!(rt; "clear: a platform's name has 1 to 36 printable ASCII characters");
        return Ok(1);
    }
    let config = match read_file_start(rt, file_path(asked.config)) {
        Ok(config) => config,
        Err(cause) => return Ok(tell_unread_file(rt, asked.config, cause)),
    };
    Config::read(rt.alloc(), config.as_slice())?;
    let line = change_line(rt.alloc(), asked.platform, config.as_slice())?;
    Ok(print_line(rt, asked, line.as_slice()))
}
