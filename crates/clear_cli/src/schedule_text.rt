//! The lines that tell how calls ended.

ghost use Rattle.std.specs.Prelude.{◌≡◌, ◌∷◌, [], ◌++◌, IfErr, IfOk, OnOk, codes};
ghost use Rattle.clear_cli.specs.ScheduleText.{done_text, finished_text, number_text, trace_text};
ghost use Rattle.clear_cli.specs.ScheduleWritten.{FailsToWrite};
ghost use Rattle.clear_cli.specs.Inner.WritingLines.{FailsInLine};

use house_core::{Done, Finished};
use itoa::Buffer;
use ocpi_types::Config;
use plain_house::{Refused, Replied};
use request_lines::{Sink, answer_line, write_all};
use std::alloc::{AllocError, Global};

/// Why the lines are not all written.
#[derive(Clone, Copy, PartialEq, Eq)]
pub enum WriteFault {
    /// The writer failed.
    Write,
    NoMemory,
}

impl From<AllocError> for WriteFault {
    ghost use Rattle.std.specs.Prelude.{◌≡◌};
    ghost use Rattle.clear_cli.specs.declared.schedule_text.WriteFault.TheVariants.{NoMemory};

    ghost from_gives = { λ _ fault. fault ≡ NoMemory };

    fn from(_error: AllocError) -> Self {
        WriteFault::NoMemory
    }
}

fn put_number(line: &mut Vec<u8>, number: u128) -> Result<(), AllocError>
    ensures { OnOk result (line.new.items ≡ line.old.items ++ number_text number) }
{
    let mut buffer = Buffer::new();
    line.extend_from_slice(buffer.format(number).as_bytes())?;
    line.push(b' ')?;
    Ok(())
}

fn put_answered(
    alloc: Global,
    config: &Config,
    line: &mut Vec<u8>,
    point: u64,
    end: u64,
    reply: &Result<Replied, Refused>,
) -> Result<(), AllocError>
    ensures { OnOk result (line.new.items ≡ line.old.items ++ done_text config.now end (Done.Answered point reply.now)) }
{
    put_number(line, point as u128)?;
    put_number(line, end as u128)?;
    let answer = answer_line(alloc, config, reply)?;
    line.extend_from_slice(answer.as_slice())
}

fn put_abandoned(line: &mut Vec<u8>, end: u64) -> Result<(), AllocError>
    ensures { OnOk result (line.new.items ≡ line.old.items ++ (codes "- " ++ (number_text end ++ codes "abandoned\n"))) }
{
    line.extend_from_slice(b"- ")?;
    put_number(line, end as u128)?;
    line.extend_from_slice(b"abandoned\n")
}

fn finished_line(alloc: Global, config: &Config, call: &Finished) -> Result<Vec<u8>, AllocError>
    ensures { IfOk result (λ line. line.items ≡ finished_text config.now call.now) }
{
    let mut line = Vec::new(alloc);
    put_number(&mut line, call.call as u128 + 1)?;
    put_number(&mut line, call.begin as u128)?;
    match &call.done {
        Done::Answered { point, reply } => {
            put_answered(alloc, config, &mut line, *point, call.end, reply)?
        }
        Done::Abandoned => put_abandoned(&mut line, call.end)?,
    }
    Ok(line)
}

fn write_call<W: Sink>(
    alloc: Global,
    config: &Config,
    writer: &mut W,
    call: &Finished,
) -> Result<(), WriteFault>
    ensures ok { OnOk result (W.writing.takes writer.old (finished_text config.now call.now) writer.new) }
    ensures kept { OnOk result (W.writing.failed writer.new ≡ W.writing.failed writer.old) }
    ensures err { IfErr result (λ fault. FailsInLine W.writing (finished_text config.now call.now) writer.old writer.new fault) }
{
    let line = finished_line(alloc, config, call)?;
    match write_all(writer, line.as_slice()) {
        Ok(()) => Ok(()),
        Err(_) => Err(WriteFault::Write),
    }
}

/// Writes a line for each call that has ended, in their order.
pub fn write_trace<W: Sink>(
    alloc: Global,
    config: &Config,
    writer: &mut W,
    finished: &[Finished],
) -> Result<(), WriteFault>
    ensures ok { OnOk result (W.writing.takes writer.old (trace_text config.now finished.now) writer.new) }
    ensures kept { OnOk result (W.writing.failed writer.new ≡ W.writing.failed writer.old) }
    ensures err { IfErr result (λ fault. FailsToWrite W.writing config.now finished.now writer.old writer.new fault) }
{
    for call in finished {
        write_call(alloc, config, writer, call)?;
    }
    Ok(())
}
