//! Requests, commands, events, replies and answers copied. Each command is done by a house of one list and its copy by one of
//! books, whose replies and events have to be the same.

ghost use Rattle.std.specs.Prelude.{◌≡◌, ◌≤◌, length};
ghost use Rattle.cdr_checks.specs.Admission.{IsAdmitted};
ghost use Rattle.plain_house.specs.Laws.{most_rows};

use cdr_checks::{Command, Request, admit};
use ocpi_json::same::{Same, are_same};
use ocpi_types::{Config, Refusal, TryCopy};
use period_order::BookHouse;
use plain_house::{
    Event, PlainHouse, Refused, Replied, ReplyRoom, Sequential, legal_lists_can_be_netted,
    replies_fit,
};
use request_lines::{LineRoom, answer_line, request_of};
use std::alloc::{AllocError, Global};
use std::io::Write;
use std::str::Lines;

/// Two houses, the configuration by which requests are admitted to them, and the room in which lines are read.
#[derive(Drop)]
struct Copying {
    config: Config,
    house: PlainHouse,
    books: BookHouse,
    room: LineRoom,
    ghost same: { house.config ≡ config },
    ghost books_same: { books.config ≡ config },
}

fn is_request_copied(alloc: Global, request: &Request) -> bool {
    request.copy(alloc).is_ok()
}

fn is_event_copied(alloc: Global, event: &Event) -> bool {
    event.copy(alloc).is_ok()
}

// A request that is refused has no command.
fn is_command_copied(alloc: Global, config: &Config, request: Request) -> bool {
    match admit(config, request) {
        Ok(command) => command.copy(alloc).is_ok(),
        Err((_request, _cause)) => true,
    }
}

// A line that is refused has no request.
fn is_line_copied(alloc: Global, room: &mut LineRoom, config: &Config, line: &str) -> bool {
    match request_of(alloc, room, line.as_bytes()) {
        Ok(request) => is_request_copied(alloc, &request)
            && is_command_copied(alloc, config, request),
        Err(refusal) => !matches!(refusal, Refusal::NoMemory),
    }
}

fn copied_reply(
    alloc: Global,
    reply: &Result<Replied, Refused>,
) -> Option<Result<Replied, Refused>> {
    match reply {
        Ok(replied) => {
            let answer = replied.answer.copy(alloc).ok()?;
            Some(Ok(Replied {
                at: replied.at,
                answer,
            }))
        }
        Err(refused) if matches!(refused.refusal, Refusal::NoMemory) => None,
        Err(refused) => Some(Err(*refused)),
    }
}

// The house's reply, filled into the room.
fn reply_in_room(
    house: &mut PlainHouse,
    room: ReplyRoom,
    command: Command,
) -> Option<Result<Replied, Refused>>
    requires admitted { IsAdmitted house.old.config command }
    requires operators { length house.old.config.operators ≤ 64 }
    requires cdrs { house.old.config.limits.cdrs ≤ 100_000 }
    requires room { most_rows house.old.config ≤ room }
    ensures { house.new.config ≡ house.old.config }
{
    house.has_legal_list();
    legal_lists_can_be_netted();
    replies_fit();
    let reply = house.do_command(command);
    let filled = room.fill(&reply);
    if filled.is_same(&reply) {
        return Some(filled);
    }
    None
}

impl Copying {
    fn read(alloc: Global, line: &str) -> Option<Copying> {
        let config = Config::read(alloc, line.as_bytes()).ok()?;
        let house = PlainHouse::new(alloc, config.copy(alloc).ok()?);
        let books = BookHouse::new(alloc, config.copy(alloc).ok()?).ok()?;
        Some(Copying {
            config,
            house,
            books,
            room: LineRoom::new(alloc),
        })
    }

    fn is_last_event_copied(&self, alloc: Global) -> bool {
        match self.house.events().last() {
            Some(event) => is_event_copied(alloc, event),
            None => true,
        }
    }

    fn is_last_event_same(&self) -> bool {
        match self.house.events().last() {
            Some(event) => self.books.is_last(event),
            None => true,
        }
    }

    fn are_events_same(&self, alloc: Global) -> bool {
        match self.books.events(alloc) {
            Ok(events) => are_same(events.as_slice(), self.house.events()),
            Err(AllocError) => false,
        }
    }

    // The reply to a command and to its copy.
    fn reply_of_both(&mut self, alloc: Global, command: Command) -> Option<Result<Replied, Refused>>
        requires { IsAdmitted self.old.config command }
    {
        let Ok(room) = ReplyRoom::new(alloc, &self.config) else {
            return None;
        };
        self.config.is_bounded();
        let copy = command.copy(alloc).ok()?;
        let reply = reply_in_room(&mut self.house, room, command)?;
        let by_books = self.books.do_command(copy);
        if reply.is_same(&by_books) {
            return Some(reply);
        }
        None
    }

    fn reply_to(&mut self, alloc: Global, request: Request) -> Option<Result<Replied, Refused>> {
        match admit(&self.config, request) {
            Ok(command) => self.reply_of_both(alloc, command),
            Err((_request, cause)) => Some(Err(Refused {
                at: None,
                refusal: cause.refusal(),
            })),
        }
    }

    fn reply(&mut self, alloc: Global, line: &str) -> Option<Result<Replied, Refused>> {
        match request_of(alloc, &mut self.room, line.as_bytes()) {
            Ok(request) => self.reply_to(alloc, request),
            Err(refusal) => Some(Err(Refused { at: None, refusal })),
        }
    }

    // A copy of the reply is written.
    fn answer(&mut self, alloc: Global, line: &str) -> Option<Vec<u8>> {
        if !is_line_copied(alloc, &mut self.room, &self.config, line) {
            return None;
        }
        let reply = self.reply(alloc, line)?;
        let copy = copied_reply(alloc, &reply)?;
        answer_line(alloc, &self.config, &copy).ok()
    }

    fn is_answered(&mut self, rt: &HostRuntime, line: &str) -> bool {
        match self.answer(rt.alloc(), line) {
            Some(answer) => rt.stdout().write_all(answer.as_slice()).is_ok(),
            None => false,
        }
    }

    fn are_answered(&mut self, rt: &HostRuntime, lines: Lines<'_>) -> bool {
        for line in lines {
            if !self.is_answered(rt, line)
                || !self.is_last_event_copied(rt.alloc())
                || !self.is_last_event_same()
            {
                return false;
            }
        }
        self.are_events_same(rt.alloc())
    }
}

/// Whether all lines behind a configuration could be copied, each with its command and its event, and answered.
pub(crate) fn are_requests_copied(rt: &HostRuntime, text: &str) -> bool {
    let mut lines = text.lines();
    match Copying::read(rt.alloc(), lines.next().unwrap_or("")) {
        Some(mut copying) => copying.are_answered(rt, lines)
            && is_event_copied(rt.alloc(), &Event::Closed { period: 7 }),
        None => false,
    }
}
