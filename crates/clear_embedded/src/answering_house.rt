//! A house that answers the lines of a stream one at a time, into a buffer.

ghost use Rattle.std.specs.Prelude.{◌≡◌, ◌≢◌, ◌++◌, ◌≤◌, ◌↔◌, ℕ, List, true, None, Some, Ok, Err, length, drop, option_map, IfOk, IfErr, OnErr, OnOk};
ghost use Rattle.ocpi_types.specs.ConfigText.{config_of};
ghost use Rattle.ocpi_types.specs.declared.config.Config.{Config as ConfigValue};
ghost use Rattle.ocpi_types.specs.declared.config.reading.ConfigFault.TheVariants.{NoMemory};
ghost use Rattle.line_causes.specs.RefusalNames.{refused_in};
ghost use Rattle.line_streams.specs.Given.{done_by};
ghost use Rattle.clear_embedded.specs.Answering.{IsAnswered, IsExplained, IsGivenAgain, IsLine, IsLineDone, IsPut, opened, refused_with};
ghost use Rattle.clear_embedded.specs.Standing.{shown_refused};

use super::code::{Code, Outcome};
use super::refused_line::{RefusedLine, cause_text, refusal_copy};
use line_causes::laws::replies_name_refusals;
use line_causes::refused;
use line_streams::{LineReply, Stream};
use memchr::memchr;
use ocpi_types::{Config, ConfigFault};
use request_lines::{MOST_LINE_BYTES, NEWLINE};
use std::alloc::{AllocError, Global};
use std::marker::Model;

/// A house that answers one line at a time, and keeps the reply until the caller has its answer.
#[derive(Drop)]
pub struct AnsweringHouse {
    stream: Stream,
    kept: Option<LineReply>,
    /// The last line that was answered, if it was refused.
    refused: Option<RefusedLine>,
}

impl Model for AnsweringHouse {
    ghost use Rattle.line_streams.specs.State.{state_of};
    ghost use Rattle.std.specs.Prelude.{option_map};
    ghost use Rattle.clear_embedded.specs.Standing.{Standing, kept_answer, shown_refused};

    ghost Value = { Standing };

    ghost view = { λ it. record {
      stream = state_of it.stream;
      kept = kept_answer (state_of it.stream) it.kept;
      refused = option_map shown_refused it.refused;
    } };
}

/// Whether the bytes are one line: not too many, and none of them a newline.
fn is_line(bytes: &[u8]) -> bool
    ensures { (result ≡ true) ↔ IsLine bytes.now }
{
    bytes.len() <= MOST_LINE_BYTES && memchr(NEWLINE, bytes).is_none()
}

/// Writes the text at the buffer's beginning.
fn write_front(buffer: &mut [u8], text: &[u8])
    requires { length text.now ≤ length buffer.old }
    ensures { buffer.new ≡ text.now ++ drop (length text.now) buffer.old }
{
    let (front, _) = buffer.split_at_mut(text.len());
    front.copy_from_slice(text);
}

/// Writes the text at the buffer's beginning, or nothing if it is longer than the buffer.
fn put_text(buffer: &mut [u8], text: &[u8]) -> Outcome
    ensures { IsPut result.code text.now (record { before = buffer.old; after = buffer.new; reported = result.length }) }
{
    let length = text.len();
    if buffer.len() < length {
        return Outcome {
            code: Code::TooSmall,
            length,
        };
    }
    write_front(buffer, text);
    Outcome {
        code: Code::Done,
        length,
    }
}

/// Returns an empty house under a configuration.
fn house_of(alloc: Global, config: Config) -> Result<AnsweringHouse, AllocError>
    ensures { IfOk result (λ house. house ≡ opened config) }
{
    Ok(AnsweringHouse {
        stream: Stream::new(alloc, config)?,
        kept: None,
        refused: None,
    })
}

/// Returns the last line, with the reply to what was done for it, if the reply refuses it.
fn refused_line(stream: &Stream, line: Vec<u8>, reply: &LineReply) -> Option<RefusedLine>
    ensures { option_map shown_refused result ≡ refused_with line.items (done_by stream.now reply.now) (refused_in (done_by stream.now reply.now) reply.now) }
{
    refused(stream, reply)?;
    let done = match stream.done(reply) {
        Some(done) => Some(refusal_copy(done)?),
        None => None,
    };
    Some(RefusedLine { line, done })
}

fn boxed(alloc: Global, house: AnsweringHouse) -> Result<Box<AnsweringHouse>, ConfigFault>
    ensures ok { IfOk result (λ boxed. boxed.value ≡ house) }
    ensures err { IfErr result (λ fault. fault ≡ NoMemory) }
{
    match Box::new(alloc, house) {
        Ok(boxed) => Ok(boxed),
        Err(_) => Err(ConfigFault::NoMemory),
    }
}

impl AnsweringHouse {
    /// Returns an empty house under the configuration that these bytes are.
    fn of_bytes(alloc: Global, bytes: &[u8]) -> Result<AnsweringHouse, ConfigFault>
        ensures ok { IfOk result (λ house. (config : ConfigValue) × (config_of bytes.now ≡ Ok config) × (house ≡ opened config)) }
        ensures err { IfErr result (λ fault. fault ≢ NoMemory → config_of bytes.now ≡ Err fault) }
    {
        let config = Config::read(alloc, bytes)?;
        match house_of(alloc, config) {
            Ok(house) => Ok(house),
            Err(AllocError) => Err(ConfigFault::NoMemory),
        }
    }

    /// Returns an empty house under the configuration that these bytes are, in a box.
    pub(crate) fn open(alloc: Global, bytes: &[u8]) -> Result<Box<AnsweringHouse>, ConfigFault>
        ensures ok { IfOk result (λ house. (config : ConfigValue) × (config_of bytes.now ≡ Ok config) × (house.value ≡ opened config)) }
        ensures err { IfErr result (λ fault. fault ≢ NoMemory → config_of bytes.now ≡ Err fault) }
    {
        boxed(alloc, AnsweringHouse::of_bytes(alloc, bytes)?)
    }

    /// Keeps the stream's reply to the line. Nothing changes if an allocation fails.
    fn keep_reply(&mut self, alloc: Global, line: &[u8]) -> Result<(), AllocError>
        requires { self.old.kept ≡ None }
        ensures ok { OnOk result ((text : List ℕ) × IsLineDone self.old line.now text (Some text) self.new) }
        ensures err { OnErr result (self.new ≡ self.old) }
    {
        replies_name_refusals();
        let copy = Vec::from_slice(alloc, line)?;
        let reply = self.stream.reply_to(alloc, line)?;
        self.refused = refused_line(&self.stream, copy, &reply);
        self.kept = Some(reply);
        Ok(())
    }

    /// Writes the answer of the kept reply.
    pub(crate) fn again(&mut self, alloc: Global, buffer: &mut [u8]) -> Outcome
        ensures { IsGivenAgain result.code self.old self.new
            (record { before = buffer.old; after = buffer.new; reported = result.length }) }
    {
        let Some(reply) = &self.kept else {
            return Outcome::of(Code::NothingKept);
        };
        let Ok(text) = self.stream.line_of(alloc, reply) else {
            return Outcome::of(Code::NotWritten);
        };
        let outcome = put_text(buffer, text.as_slice());
        if let Code::Done = outcome.code {
            self.kept = None;
        }
        outcome
    }

    /// Answers the line, and writes the answer or keeps it.
    #[tactic(auto, using(crate::proofs::AnsweringLemmas::answered_by))]
    pub(crate) fn answer(&mut self, alloc: Global, line: &[u8], buffer: &mut [u8]) -> Outcome
        ensures { IsAnswered result.code self.old line.now self.new
            (record { before = buffer.old; after = buffer.new; reported = result.length }) }
    {
        if self.kept.is_some() {
            return Outcome::of(Code::Kept);
        }
        if !is_line(line) {
            return Outcome::of(Code::NoLine);
        }
        if self.keep_reply(alloc, line).is_err() {
            return Outcome::of(Code::NoMemory);
        }
        self.again(alloc, buffer)
    }

    /// Writes why the last line was refused. The house does not change.
    pub(crate) fn cause(&self, alloc: Global, buffer: &mut [u8]) -> Outcome
        ensures { IsExplained result.code self.now (record { before = buffer.old; after = buffer.new; reported = result.length }) }
    {
        let Some(refused) = &self.refused else {
            return Outcome::of(Code::NotRefused);
        };
        let Ok(text) = cause_text(alloc, &self.stream, refused) else {
            return Outcome::of(Code::NoMemory);
        };
        put_text(buffer, text.as_bytes())
    }
}
