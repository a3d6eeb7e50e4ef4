//! Lines answered by one house or the other. What memory was refused for can be done once more: all that comes before the
//! first read, and then the reading, the command and the answer of each line.

mod again;
mod answering;
mod choice;

use crate::check_fault::CheckFault;
use answering::answer;
pub use choice::Choice;
use command_line::{Fault, read_config};
use request_lines::Device;
use std::io::Read;
use std::sync::Wait;
use std::thread::Threads;

fn answer_under_config<'a, T: Threads + Wait + Sync, R: Read>(
    rt: &HostRuntime,
    threads: &T,
    choice: Choice<'a>,
    reader: &mut Device<R>,
) -> Result<(), CheckFault<'a>> {
    let file = read_config(rt, choice.config)?;
    let mut writer = Device::new(rt.stdout());
    answer(rt, threads, choice, file.as_slice(), reader, &mut writer)
}

/// Answers the lines of the reader on standard output.
pub fn answer_lines<'a, T: Threads + Wait + Sync, R: Read + Drop>(
    rt: &HostRuntime,
    threads: &T,
    choice: Choice<'a>,
    reader: R,
) -> Result<(), CheckFault<'a>> {
    let mut reader = Device::new(reader);
    match answer_under_config(rt, threads, choice, &mut reader) {
        Err(
            CheckFault::Command {
                fault: Fault::NoMemory,
            },
        ) if choice.is_again && reader.reads == 0 => {
            answer_under_config(rt, threads, choice, &mut reader)
        }
        ended => ended,
    }
}
