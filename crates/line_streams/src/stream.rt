//! A house that answers the lines of a stream.

ghost use Rattle.std.specs.Prelude.{◌≡◌};
ghost use Rattle.line_streams.specs.Inner.Base.{base_of};

use crate::answered::AnsweredLines;
use crate::asked::{AskedLine, asked_of};
use crate::doing::do_asked;
use crate::in_force::InForce;
use crate::line_stream::LineStream;
use crate::once::do_once;
use crate::reply::{LineReply, StreamReply, used_line};
use crate::request_id::IdKey;
use ocpi_types::{Config, Refusal, Shared, TryCopy};
use period_order::BookHouse;
use plain_house::Event;
use request_lines::{Answerer, LineRoom};
use std::alloc::{AllocError, Global};

/// A house that answers the lines of a stream, under the configuration in force.
#[derive(Drop)]
pub struct Stream {
    in_force: InForce,
    house: BookHouse,
    answered: AnsweredLines,
    room: LineRoom,
    refused: u128,
    ghost base: { house.config ≡ base_of in_force },
}

/// Whether an answer is a refusal.
fn is_refusal(answer: &[u8]) -> bool {
    !answer.starts_with(b"{\"status_code\":1000,")
}

impl Stream {
    ghost use Rattle.std.specs.Prelude.{◌≡◌, ◌-◌, length, option_copied, slice_get, IfOk, OnErr};
    ghost use Rattle.line_streams.specs.Given.{IsGiven, done_by};
    ghost use Rattle.line_streams.specs.State.{config_at, empty_under, line_text, shown_lines, state_of};
    ghost use Rattle.line_streams.specs.Stream.{IsAnswered};

    /// Returns an empty house under a configuration.
    pub fn new(alloc: Global, config: Config) -> Result<Stream, AllocError>
        ensures { IfOk result (λ stream. state_of stream ≡ empty_under config) }
    {
        let house = BookHouse::new(alloc, config.copy(alloc)?)?;
        Ok(Stream {
            in_force: InForce {
                config: Shared::new(alloc, config)?,
                is_lowered: false,
            },
            house,
            answered: AnsweredLines::new(alloc),
            room: LineRoom::new(alloc),
            refused: 0,
        })
    }

    /// Returns the configuration in force.
    pub fn config(&self) -> &Config
        ensures { result.now ≡ (state_of self.now).house.config }
    {
        &self.in_force.config
    }

    /// Returns the configuration under which the events are legal: the one in force, or a looser one with the same operators, parties of
    /// providers and currencies.
    pub fn base(&self) -> &Config
        ensures { result.now ≡ (state_of self.now).house.base }
    {
        self.house.config()
    }

    /// Returns the events so far, the first one first.
    pub fn events(&self, alloc: Global) -> Result<Vec<Event>, AllocError>
        ensures { IfOk result (λ events. events.items ≡ (state_of self.now).house.events) }
    {
        self.house.events(alloc)
    }

    /// Returns the last event, if there is one.
    pub fn last_event(&self, alloc: Global) -> Result<Option<Event>, AllocError>
        ensures { IfOk result (λ last. last ≡ slice_get (state_of self.now).house.events (length (state_of self.now).house.events - 1)) }
    {
        self.house.last_event(alloc)
    }

    /// Returns how many answers were refusals.
    pub fn refused(&self) -> u128 {
        self.refused
    }

    /// Does what a line asks for, and returns its reply.
    ///
    /// # Errors
    ///
    /// `AllocError` if an allocation fails; the stream is as before.
    pub fn reply_to(&mut self, alloc: Global, line: &[u8]) -> Result<LineReply, AllocError>
        ensures ok { IfOk result (λ reply. IsAnswered (state_of self.old) line.now (line_text self.new.in_force.config (shown_lines self.new.answered) reply) (state_of self.new)) }
        ensures given { IfOk result (λ reply. IsGiven (state_of self.old) line.now (done_by self.new reply) reply) }
        ensures err { OnErr result (state_of self.new ≡ state_of self.old) }
    {
        let AskedLine { id, asked } = match asked_of(alloc, &mut self.room, line) {
            Ok(asks) => asks,
            Err(Refusal::NoMemory) => return Err(AllocError),
            Err(refusal) => return Ok(LineReply::refused(refusal)),
        };
        let (in_force, house) = (&mut self.in_force, &mut self.house);
        let Some(id) = id else {
            return Ok(LineReply::Done(do_asked(alloc, in_force, house, asked)?));
        };
        let key = IdKey::new(asked.platform(), id);
        do_once(alloc, in_force, house, &mut self.answered, key, asked, line)
    }

    /// Returns the reply to what the last line asked for, if that was done. It was not if the line was repeated or its request id was
    /// given to another line.
    pub fn done<'s>(&'s self, reply: &'s LineReply) -> Option<&'s StreamReply>
        ensures { option_copied result ≡ done_by self.now reply.now }
    {
        match reply {
            LineReply::Done(reply) => Some(reply),
            LineReply::Remembered(key) => Some(&self.answered.find(key)?.reply),
            LineReply::Repeated(_) | LineReply::IdUsed => None,
        }
    }

    /// Returns the configuration that was in force when a repeated line was done; for another line the one in force. None if the request
    /// id of the line was given to another line.
    pub fn config_at<'s>(&'s self, reply: &LineReply) -> Option<&'s Config>
        ensures { option_copied result ≡ config_at (state_of self.now) reply.now }
    {
        match reply {
            LineReply::Done(_) | LineReply::Remembered(_) => Some(&self.in_force.config),
            LineReply::Repeated(key) => Some(&self.answered.find(key)?.config),
            LineReply::IdUsed => None,
        }
    }

    /// Returns the answer line of the reply to the last line.
    ///
    /// # Errors
    ///
    /// `AllocError` if an allocation fails; the same reply can be written again.
    pub fn line_of(&self, alloc: Global, reply: &LineReply) -> Result<Vec<u8>, AllocError>
        ensures { IfOk result (λ text. text.items ≡ line_text self.now.in_force.config (shown_lines self.now.answered) reply.now) }
    {
        match reply {
            LineReply::Done(reply) => reply.line(alloc, &self.in_force.config),
            LineReply::Remembered(key) | LineReply::Repeated(key) => match self.answered.find(key) {
                Some(answered) => answered.answer(alloc),
                None => Ok(Vec::new(alloc)),
            },
            LineReply::IdUsed => used_line(alloc),
        }
    }
}

impl Answerer for Stream {
    ghost use Rattle.std.specs.Prelude.{◌≡◌, ◌⊎◌, ℕ, List, refl};
    ghost use Rattle.line_streams.specs.Inner.Turns.{more_lines};
    ghost use Rattle.line_streams.specs.State.{state_of};
    ghost use Rattle.line_streams.specs.Stream.{AreAnswered, IsAnswered};

    ghost rule = { record {
      answers = λ a lines text b. AreAnswered (state_of a) lines text (state_of b);
      gives_up = λ a line b. (state_of b ≡ state_of a) ⊎ ((text : List ℕ) × IsAnswered (state_of a) line text (state_of b));
    } };

    ghost answers_none = { λ a. (refl, refl) };

    ghost answers_more = { λ a b c ls ms t u h k. more_lines (state_of a) (state_of b) (state_of c) ls ms t u h k };

    fn answer(&mut self, alloc: Global, line: &[u8]) -> Result<Vec<u8>, AllocError> {
        let reply = self.reply_to(alloc, line)?;
        let answer = self.line_of(alloc, &reply)?;
        if is_refusal(answer.as_slice()) {
            self.refused = self.refused.saturating_add(1);
        }
        Ok(answer)
    }
}

impl LineStream for Stream {
    ghost use Rattle.line_streams.specs.State.{state_of};
    ghost use Rattle.line_streams.specs.Stream.{stream_rule};

    ghost state = { state_of };

    ghost state_rule = { stream_rule };

    ghost may_look_ahead = { tt };

    ghost answers_in_state = { λ a b lines text answered. answered };

    ghost gives_up_in_state = { λ a b line left. left };

    fn under(alloc: Global, config: Config) -> Result<Stream, AllocError> {
        Stream::new(alloc, config)
    }

    fn config_in_force(&self) -> &Config {
        self.config()
    }
}
