//! A stream whose refused lines are explained.

ghost use Rattle.std.specs.Prelude.{◌≡◌, IfOk};
ghost use Rattle.line_causes.specs.StreamCauses.{IsCauseOfStreamLine};
ghost use Rattle.line_streams.specs.Given.{done_by};
ghost use Rattle.line_streams.specs.State.{state_of};
ghost use Rattle.house_reports.specs.explain_lines.Table.{IsRow};

use crate::explain_lines::row::row;
use crate::explain_lines::streamed::added::keep_done;
use known_events::KnownEvents;
use line_causes::laws::replies_name_refusals;
use line_causes::{cause_of_stream_line, refused};
use line_streams::{LineReply, Stream};
use ocpi_types::Config;
use plain_house::replies_tell_events;
use request_lines::{Answerer, LineRoom};
use std::alloc::{AllocError, Global};

/// A stream that writes the rows of its refused lines.
#[derive(Drop)]
pub(crate) struct StreamExplainer {
    stream: Stream,
    /// The events of the stream.
    events: KnownEvents,
    /// The memory in which a line is read.
    room: LineRoom,
    /// The number of answered lines.
    lines: u128,
    /// Whether one of them was refused.
    pub is_any_refused: bool,
}

// Returns the row of the line of this number, which the stream refused by this reply after these events.
fn row_of_line(
    alloc: Global,
    room: &mut LineRoom,
    stream: &Stream,
    events: &KnownEvents,
    line: &[u8],
    reply: &LineReply,
    number: u128,
    refusal: &'static str,
) -> Result<Vec<u8>, AllocError>
    ensures { IfOk result (λ text. IsRow number refusal.now
        (IsCauseOfStreamLine (state_of stream.now).house.config events.now (done_by stream.now reply.now) line.now) text.items) }
{
    let done = stream.done(reply);
    match cause_of_stream_line(alloc, room, stream.config(), events, line, done) {
        Ok(cause) => row(alloc, number, refusal, &cause),
        Err(AllocError) => Err(AllocError),
    }
}

impl StreamExplainer {
    ghost use Rattle.std.specs.Prelude.{ℕ, List, [], false, true};
    ghost use Rattle.line_streams.specs.Given.{IsGiven};
    ghost use Rattle.line_streams.specs.State.{empty_under};
    ghost use Rattle.line_streams.specs.Stream.{IsAnswered};

    /// Returns a stream that begins under this configuration.
    pub(crate) fn new(alloc: Global, config: Config) -> Result<StreamExplainer, AllocError>
        ensures state { IfOk result (λ explainer. state_of explainer.stream ≡ empty_under config) }
        ensures none { IfOk result (λ explainer. (explainer.lines ≡ 0) × (explainer.is_any_refused ≡ false)) }
        ensures events { IfOk result (λ explainer. explainer.events ≡ []) }
    {
        Ok(StreamExplainer {
            stream: Stream::new(alloc, config)?,
            events: KnownEvents::new(alloc),
            room: LineRoom::new(alloc),
            lines: 0,
            is_any_refused: false,
        })
    }

    // Returns the reply of the stream to a line.
    fn reply(&mut self, alloc: Global, line: &[u8]) -> Result<LineReply, AllocError>
        ensures rest { (self.new.lines ≡ self.old.lines) × (self.new.is_any_refused ≡ self.old.is_any_refused) }
        ensures answered { IfOk result (λ reply. (answer : List ℕ) × IsAnswered (state_of self.old.stream) line.now answer (state_of self.new.stream)) }
        ensures given { IfOk result (λ reply. IsGiven (state_of self.old.stream) line.now (done_by self.new.stream reply) reply) }
        ensures events { IfOk result (λ reply. self.old.events ≡ (state_of self.old.stream).house.events → self.new.events ≡ (state_of self.new.stream).house.events) }
    {
        replies_tell_events();
        let reply = self.stream.reply_to(alloc, line)?;
        keep_done(alloc, &self.stream, &reply, &mut self.events)?;
        Ok(reply)
    }

    // Returns the row of the last line, which was refused by this reply.
    fn row(
        &mut self,
        alloc: Global,
        line: &[u8],
        reply: &LineReply,
        refusal: &'static str,
    ) -> Result<Vec<u8>, AllocError>
        ensures rest { (state_of self.new.stream ≡ state_of self.old.stream) × (self.new.events ≡ self.old.events)
            × (self.new.lines ≡ self.old.lines) }
        ensures any { self.new.is_any_refused ≡ true }
        ensures row { IfOk result (λ text. IsRow self.old.lines refusal.now
            (IsCauseOfStreamLine (state_of self.old.stream).house.config self.old.events (done_by self.old.stream reply.now) line.now) text.items) }
    {
        self.is_any_refused = true;
        row_of_line(
            alloc,
            &mut self.room,
            &self.stream,
            &self.events,
            line,
            reply,
            self.lines,
            refusal,
        )
    }
}

impl Answerer for StreamExplainer {
    ghost use Rattle.std.specs.Prelude.{⊤};
    ghost use Rattle.house_reports.specs.explain_lines.Inner.StreamStanding.{stream_standing};
    ghost use Rattle.house_reports.specs.explain_lines.Inner.StreamTelling.{Explains, explains_none, explains_more};

    ghost rule = { record {
      answers = λ a lines text b. Explains (stream_standing a) (stream_standing b) lines text;
      gives_up = λ a line b. ⊤;
    } };

    ghost answers_none = { λ a. explains_none (stream_standing a) };

    ghost answers_more = { λ a b c ls ms t u h k. explains_more (stream_standing a) (stream_standing b) (stream_standing c) ls ms t u h k };

    fn answer(&mut self, alloc: Global, line: &[u8]) -> Result<Vec<u8>, AllocError> {
        replies_name_refusals();
        self.lines = self.lines.saturating_add(1);
        let reply = self.reply(alloc, line)?;
        match refused(&self.stream, &reply) {
            Some(refusal) => self.row(alloc, line, &reply, refusal),
            None => Ok(Vec::new(alloc)),
        }
    }
}
