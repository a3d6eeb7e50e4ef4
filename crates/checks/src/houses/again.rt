//! Lines that are done once more where memory is refused.

ghost use Rattle.std.specs.Prelude.{◌≡◌, true, false, IfOk};
ghost use Rattle.plain_house.specs.Replies.{is_no_memory};
ghost use Rattle.request_lines.specs.AnswerText.{answer_text};
ghost use Rattle.request_lines.specs.Script.{after, reply_in};

use ocpi_types::Config;
use plain_house::{Refused, Replied, Sequential, is_out_of_memory};
use request_lines::{LineRoom, Respond, answer_line, reply_to};
use std::alloc::{AllocError, Global};

// Where memory is refused, the house is as it was, so the line is read and its command done once more.
fn reply_again<S: Sequential>(
    alloc: Global,
    room: &mut LineRoom,
    config: &Config,
    house: &mut S,
    line: &[u8],
) -> Result<Replied, Refused>
    requires { S.config house.old ≡ config.now }
    ensures config { S.config house.new ≡ S.config house.old }
    ensures reply { is_no_memory result ≡ false → result ≡ reply_in config.now (S.events house.old) line.now }
    ensures events { is_no_memory result ≡ false → S.events house.new ≡ after config.now (S.events house.old) line.now }
    ensures unchanged { is_no_memory result ≡ true → S.events house.new ≡ S.events house.old }
{
    let reply = reply_to(alloc, room, config, house, line);
    if is_out_of_memory(&reply) {
        return reply_to(alloc, room, config, house, line);
    }
    reply
}

fn written_again(
    alloc: Global,
    config: &Config,
    reply: &Result<Replied, Refused>,
) -> Result<Vec<u8>, AllocError>
    ensures { IfOk result (λ text. text.items ≡ answer_text config.now reply.now) }
{
    match answer_line(alloc, config, reply) {
        Ok(text) => Ok(text),
        Err(AllocError) => answer_line(alloc, config, reply),
    }
}

/// Lines that are done once more where memory is refused.
pub struct Again;

impl Respond for Again {
    #[tactic(auto, unfolding(request_lines::specs::Script::answer_of))]
    fn respond<S: Sequential>(
        &self,
        alloc: Global,
        room: &mut LineRoom,
        config: &Config,
        house: &mut S,
        line: &[u8],
    ) -> Result<Vec<u8>, AllocError> {
        let reply = reply_again(alloc, room, config, house, line);
        if is_out_of_memory(&reply) {
            return Err(AllocError);
        }
        written_again(alloc, config, &reply)
    }
}
