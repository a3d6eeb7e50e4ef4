//! One line, from its bytes to its answer.

ghost use Rattle.std.specs.Prelude.{◌≡◌, ◌⊎◌, IfOk, IfErr, OnOk, OnErr, Ok, Err, true, false};
ghost use Rattle.cdr_checks.specs.Admission.{IsAdmitted, admission};
ghost use Rattle.plain_house.specs.Replies.{is_no_memory, is_refusal_no_memory};
ghost use Rattle.request_lines.specs.AnswerText.{answer_text};
ghost use Rattle.request_lines.specs.Script.{command_in, reply_in, reply_to, answer_of, after, list_with};

use super::answers::answer_line;
use super::line_room::LineRoom;
use super::requests::request_of;
use cdr_checks::{Command, Request, admit};
use ocpi_types::{Config, Refusal};
use plain_house::{Refused, Replied, Sequential, is_out_of_memory};
use std::alloc::{AllocError, Global};

/// Returns the command of a request that passes each test of its kind.
///
/// # Errors
///
/// The refusal of the first test that fails.
#[tactic(auto, unfolding(cdr_checks::specs::Admission::admission))]
pub fn admitted(config: &Config, request: Request) -> Result<Command, Refusal>
    ensures admission { result ≡ admission config.now request }
    ensures admitted { IfOk result (λ command. IsAdmitted config.now command) }
{
    match admit(config, request) {
        Ok(command) => Ok(command),
        Err((_request, cause)) => Err(cause.refusal()),
    }
}

/// The command of a line, or why it is refused before a house is asked. The refusal is `NoMemory` where a growth was refused.
#[tactic(auto, unfolding(crate::specs::Script::command_in))]
pub fn command_of(
    alloc: Global,
    room: &mut LineRoom,
    config: &Config,
    line: &[u8],
) -> Result<Command, Refusal>
    ensures command { IfOk result (λ command. command_in config.now line.now ≡ Ok command) }
    ensures admitted { IfOk result (λ command. IsAdmitted config.now command) }
    ensures refusal { IfErr result (λ refusal. is_refusal_no_memory refusal ≡ false → command_in config.now line.now ≡ Err refusal) }
{
    admitted(config, request_of(alloc, room, line)?)
}

/// Returns the reply of a house to a command, or to the refusal in its place.
pub fn reply_to_command<S: Sequential>(
    house: &mut S,
    command: Result<Command, Refusal>,
) -> Result<Replied, Refused>
    requires { IfOk command (IsAdmitted (S.config house.old)) }
    ensures config { S.config house.new ≡ S.config house.old }
    ensures reply { is_no_memory result ≡ false → result ≡ reply_to (S.config house.old) (S.events house.old) command }
    ensures events { is_no_memory result ≡ false → S.events house.new ≡ list_with (S.config house.old) (S.events house.old) command }
    ensures unchanged { is_no_memory result ≡ true → S.events house.new ≡ S.events house.old }
{
    match command {
        Ok(command) => house.do_command(command),
        Err(refusal) => Err(Refused { at: None, refusal }),
    }
}

/// The reply to one line: of the house to its command, or why it has none.
#[tactic(auto, unfolding(crate::specs::Script::reply_in, crate::specs::Script::after))]
pub fn reply_to<S: Sequential>(
    alloc: Global,
    room: &mut LineRoom,
    config: &Config,
    house: &mut S,
    line: &[u8],
) -> Result<Replied, Refused>
    requires { S.config house.old ≡ config.now }
    ensures config { S.config house.new ≡ S.config house.old }
    ensures reply { is_no_memory result ≡ false → result ≡ reply_in config.now (S.events house.old) line.now }
    ensures events { is_no_memory result ≡ false → S.events house.new ≡ after config.now (S.events house.old) line.now }
    ensures unchanged { is_no_memory result ≡ true → S.events house.new ≡ S.events house.old }
{
    reply_to_command(house, command_of(alloc, room, config, line))
}

/// Returns the answer to a reply.
///
/// # Errors
///
/// `AllocError` if an allocation fails, or if the reply says that one has failed.
pub fn answer_to(
    alloc: Global,
    config: &Config,
    reply: &Result<Replied, Refused>,
) -> Result<Vec<u8>, AllocError>
    ensures text { IfOk result (λ text. text.items ≡ answer_text config.now reply.now) }
    ensures memory { OnOk result (is_no_memory reply.now ≡ false) }
{
    if is_out_of_memory(reply) {
        return Err(AllocError);
    }
    answer_line(alloc, config, reply)
}

/// A way to answer one line by a house.
pub trait Respond {
    /// Answers one line. Where memory runs out, the house is as it was or as after the line.
    fn respond<S: Sequential>(
        &self,
        alloc: Global,
        room: &mut LineRoom,
        config: &Config,
        house: &mut S,
        line: &[u8],
    ) -> Result<Vec<u8>, AllocError>
        requires { S.config house.old ≡ config.now }
        ensures config { S.config house.new ≡ S.config house.old }
        ensures text { IfOk result (λ text. text.items ≡ answer_of config.now (S.events house.old) line.now) }
        ensures ok { OnOk result (S.events house.new ≡ after config.now (S.events house.old) line.now) }
        ensures err { OnErr result ((S.events house.new ≡ S.events house.old)
            ⊎ (S.events house.new ≡ after config.now (S.events house.old) line.now)) };
}

/// The line is read once, and its command done once.
#[derive(Clone, Copy)]
pub struct Once;

impl Respond for Once {
    #[tactic(auto, unfolding(crate::specs::Script::answer_of))]
    fn respond<S: Sequential>(
        &self,
        alloc: Global,
        room: &mut LineRoom,
        config: &Config,
        house: &mut S,
        line: &[u8],
    ) -> Result<Vec<u8>, AllocError> {
        let reply = reply_to(alloc, room, config, house, line);
        answer_to(alloc, config, &reply)
    }
}
