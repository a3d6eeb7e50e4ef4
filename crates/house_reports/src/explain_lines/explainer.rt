//! A house that answers lines and explains the refused ones.

ghost use Rattle.std.specs.Prelude.{◌≡◌, IfOk};
ghost use Rattle.line_causes.specs.LineCauses.{IsCauseOfLine};
ghost use Rattle.house_reports.specs.explain_lines.Table.{IsRow};

use crate::explain_lines::added::keep_added;
use crate::explain_lines::row::row;
use known_events::KnownEvents;
use line_causes::{cause_of_line, refused_by_reply};
use ocpi_types::{Config, TryCopy};
use period_order::BookHouse;
use plain_house::{Refused, Replied, is_out_of_memory, out_of_memory, replies_tell_events};
use request_lines::{Answerer, LineRoom, reply_to};
use std::alloc::{AllocError, Global};

/// A house that writes the rows of its refused lines.
#[derive(Drop)]
pub(crate) struct Explainer<'c> {
    config: &'c Config,
    house: BookHouse,
    /// The events of the house.
    events: KnownEvents,
    /// The memory in which a line is read.
    room: LineRoom,
    /// The number of answered lines.
    lines: u128,
    /// Whether one of them was refused.
    pub is_any_refused: bool,
    ghost same: { house.config ≡ config.now },
}

// Returns the row of the line of this number, which was refused by this reply after these events.
fn row_of_line(
    alloc: Global,
    room: &mut LineRoom,
    config: &Config,
    events: &KnownEvents,
    line: &[u8],
    reply: &Result<Replied, Refused>,
    number: u128,
    refusal: &'static str,
) -> Result<Vec<u8>, AllocError>
    ensures { IfOk result (λ text. IsRow number refusal.now (IsCauseOfLine config.now events.now reply.now line.now) text.items) }
{
    match cause_of_line(alloc, room, config, events, line, reply) {
        Ok(cause) => row(alloc, number, refusal, &cause),
        Err(AllocError) => Err(AllocError),
    }
}

impl<'c> Explainer<'c> {
    ghost use Rattle.std.specs.Prelude.{[], false, true, OnOk};
    ghost use Rattle.request_lines.specs.Script.{after, reply_in};
    ghost use Rattle.plain_house.specs.Replies.{is_no_memory};

    /// Returns a new house of this configuration.
    pub(crate) fn new(alloc: Global, config: &'c Config) -> Result<Explainer<'c>, AllocError>
        ensures config { IfOk result (λ explainer. explainer.config.now ≡ config.now) }
        ensures empty { IfOk result (λ explainer. (explainer.house.events ≡ []) × (explainer.events ≡ [])) }
        ensures none { IfOk result (λ explainer. (explainer.lines ≡ 0) × (explainer.is_any_refused ≡ false)) }
    {
        let house = BookHouse::new(alloc, config.copy(alloc)?)?;
        Ok(Explainer {
            config,
            house,
            events: KnownEvents::new(alloc),
            room: LineRoom::new(alloc),
            lines: 0,
            is_any_refused: false,
        })
    }

    // Returns the reply of the house to a line. If an allocation fails, the house is as before the line or after it.
    fn reply(&mut self, alloc: Global, line: &[u8]) -> Result<Replied, Refused>
        ensures rest { (self.new.config.now ≡ self.old.config.now) × (self.new.lines ≡ self.old.lines)
            × (self.new.is_any_refused ≡ self.old.is_any_refused) }
        ensures reply { is_no_memory result ≡ false → result ≡ reply_in self.old.config.now self.old.house.events line.now }
        ensures house { is_no_memory result ≡ false → self.new.house.events ≡ after self.old.config.now self.old.house.events line.now }
        ensures events { is_no_memory result ≡ false → self.old.events ≡ self.old.house.events → self.new.events ≡ self.new.house.events }
    {
        replies_tell_events();
        let reply = reply_to(alloc, &mut self.room, self.config, &mut self.house, line);
        match keep_added(alloc, &self.house, &reply, &mut self.events) {
            Ok(()) => reply,
            Err(AllocError) => Err(out_of_memory()),
        }
    }

    // Returns the row of the last line, which was refused by this reply.
    fn row(
        &mut self,
        alloc: Global,
        line: &[u8],
        reply: &Result<Replied, Refused>,
        refusal: &'static str,
    ) -> Result<Vec<u8>, AllocError>
        ensures rest { (self.new.config.now ≡ self.old.config.now) × (self.new.house ≡ self.old.house)
            × (self.new.events ≡ self.old.events) × (self.new.lines ≡ self.old.lines) }
        ensures any { self.new.is_any_refused ≡ true }
        ensures row { IfOk result (λ text. IsRow self.old.lines refusal.now (IsCauseOfLine self.old.config.now self.old.events reply.now line.now) text.items) }
    {
        self.is_any_refused = true;
        row_of_line(
            alloc,
            &mut self.room,
            self.config,
            &self.events,
            line,
            reply,
            self.lines,
            refusal,
        )
    }
}

impl Answerer for Explainer<'_> {
    ghost use Rattle.std.specs.Prelude.{⊤};
    ghost use Rattle.house_reports.specs.explain_lines.Inner.Standing.{standing};
    ghost use Rattle.house_reports.specs.explain_lines.Inner.Telling.{Tells, tells_none, tells_more};

    ghost rule = { record {
      answers = λ a lines text b. Tells (standing a) (standing b) lines text;
      gives_up = λ a line b. ⊤;
    } };

    ghost answers_none = { λ a. tells_none (standing a) };

    ghost answers_more = { λ a b c ls ms t u h k. tells_more (standing a) (standing b) (standing c) ls ms t u h k };

    fn answer(&mut self, alloc: Global, line: &[u8]) -> Result<Vec<u8>, AllocError> {
        self.lines = self.lines.saturating_add(1);
        let reply = self.reply(alloc, line);
        if is_out_of_memory(&reply) {
            return Err(AllocError);
        }
        match refused_by_reply(&reply) {
            Some(refusal) => self.row(alloc, line, &reply, refusal),
            None => Ok(Vec::new(alloc)),
        }
    }
}
