//! A stream in whose answers each refusal that the line and the configuration decide has its cause.

ghost use Rattle.std.specs.Prelude.{◌≡◌, ℕ, List, Option, IfOk};
ghost use Rattle.line_streams.specs.Given.{IsGiven, done_by};
ghost use Rattle.line_streams.specs.State.{StreamState, line_text, state_of};
ghost use Rattle.line_streams.specs.Stream.{IsAnswered};
ghost use Rattle.line_causes.specs.AnswersWithCauses.{IsExplained, is_by_line, refuses_by_line, with_cause};
ghost use Rattle.line_causes.specs.Inner.Explaining.{is_own};
ghost use Rattle.line_causes.specs.declared.line_cause.LineCause.{LineCause as Cause};

use crate::json_object::json_of;
use crate::line_cause::LineCause;
use crate::own_cause::own_cause_of_line;
use line_streams::{LineReply, LineStream, Stream, StreamReply};
use ocpi_types::Config;
use plain_house::{Refused, Replied};
use request_lines::{Answerer, LineRoom};
use std::alloc::{AllocError, Global};

/// A stream whose answers have a last member `cause` if the line is refused with one of the refusals 1 to 12.
#[derive(Drop)]
pub struct StreamWithCauses {
    stream: Stream,
    /// The memory in which a refused line is read again.
    room: LineRoom,
}

// Whether a reply is a refusal that the line and the configuration decide: its number is from 1 to 12.
fn refuses_by_line(reply: &Result<Replied, Refused>) -> bool
    ensures { result ≡ refuses_by_line reply.now }
{
    match reply {
        Ok(_) => false,
        Err(refused) => refused.refusal.number() <= 12,
    }
}

fn is_by_line(reply: &StreamReply) -> bool
    ensures { result ≡ is_by_line reply.now }
{
    match reply {
        StreamReply::House(reply) => refuses_by_line(reply),
        StreamReply::Configured { .. }
        | StreamReply::Lowered { .. }
        | StreamReply::Otherwise { .. } => false,
    }
}

// An answer with its cause, if there is one, as the last member.
fn with_cause(
    alloc: Global,
    answer: Vec<u8>,
    cause: &Option<LineCause>,
) -> Result<Vec<u8>, AllocError>
    ensures { IfOk result (λ text. text.items ≡ with_cause answer.items cause.now) }
{
    let Some(cause) = cause else {
        return Ok(answer);
    };
    let object = json_of(alloc, cause)?;
    let mut text = answer;
    text.truncate(text.len().saturating_sub(2));
    text.extend_from_slice(b",\"cause\":")?;
    text.extend_from_slice(object.as_bytes())?;
    text.extend_from_slice(b"}\n")?;
    Ok(text)
}

// Whether what was done for the last line is a refusal that the line and the configuration decide.
fn is_own(stream: &Stream, reply: &LineReply) -> bool
    ensures { result ≡ is_own (done_by stream.now reply.now) }
{
    match stream.done(reply) {
        Some(done) => is_by_line(done),
        None => false,
    }
}

// Returns the cause of a stream's reply to its last line, if the reply has one.
fn cause_of_reply(
    alloc: Global,
    room: &mut LineRoom,
    stream: &Stream,
    line: &[u8],
    reply: &LineReply,
) -> Result<Option<LineCause>, AllocError>
    ensures { IfOk result (λ why. (state : StreamState) (answer : List ℕ) → IsAnswered state line.now answer (state_of stream.now)
        → IsGiven state line.now (done_by stream.now reply.now) reply.now → IsExplained state line.now why) }
{
    if is_own(stream, reply) {
        return own_cause_of_line(alloc, room, stream.config(), line);
    }
    Ok(None)
}

// Returns the answer of a stream's reply to its last line, with its cause if it has one.
fn explained(
    alloc: Global,
    room: &mut LineRoom,
    stream: &Stream,
    line: &[u8],
    reply: &LineReply,
) -> Result<Vec<u8>, AllocError>
    ensures { IfOk result (λ text. (why : Option Cause)
        × (text.items ≡ with_cause (line_text (state_of stream.now).house.config (state_of stream.now).remembered reply.now) why)
        × ((state : StreamState) (answer : List ℕ) → IsAnswered state line.now answer (state_of stream.now)
        → IsGiven state line.now (done_by stream.now reply.now) reply.now → IsExplained state line.now why)) }
{
    let answer = stream.line_of(alloc, reply)?;
    let cause = cause_of_reply(alloc, room, stream, line, reply);
    match cause {
        Ok(cause) => with_cause(alloc, answer, &cause),
        Err(AllocError) => Err(AllocError),
    }
}

impl Answerer for StreamWithCauses {
    ghost use Rattle.std.specs.Prelude.{◌≡◌, refl};
    ghost use Rattle.line_streams.specs.State.{state_of};
    ghost use Rattle.line_causes.specs.AnswersWithCauses.{causes_rule};
    ghost use Rattle.line_causes.specs.Inner.TurnsWithCauses.{more_with_causes};

    ghost rule = { record {
      answers = λ a lines text b. causes_rule.answers (state_of a.stream) lines text (state_of b.stream);
      gives_up = λ a line b. causes_rule.gives_up (state_of a.stream) line (state_of b.stream);
    } };

    ghost answers_none = { λ a. (refl, refl) };

    ghost answers_more = { λ a b c ls ms t u h k. more_with_causes (state_of a.stream) (state_of b.stream) (state_of c.stream) ls ms t u h k };

    fn answer(&mut self, alloc: Global, line: &[u8]) -> Result<Vec<u8>, AllocError> {
        let reply = self.stream.reply_to(alloc, line)?;
        explained(alloc, &mut self.room, &self.stream, line, &reply)
    }
}

impl LineStream for StreamWithCauses {
    ghost use Rattle.line_streams.specs.State.{state_of};
    ghost use Rattle.line_causes.specs.AnswersWithCauses.{causes_rule};

    ghost state = { λ it. state_of it.stream };

    ghost state_rule = { causes_rule };

    ghost may_look_ahead = { tt };

    ghost answers_in_state = { λ a b lines text answered. answered };

    ghost gives_up_in_state = { λ a b line left. left };

    fn under(alloc: Global, config: Config) -> Result<StreamWithCauses, AllocError> {
        Ok(StreamWithCauses {
            stream: Stream::new(alloc, config)?,
            room: LineRoom::new(alloc),
        })
    }

    fn config_in_force(&self) -> &Config {
        self.stream.config()
    }
}
