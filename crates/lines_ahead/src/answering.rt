//! One line, answered by what was read of it before.

ghost use Rattle.std.specs.Prelude.{◌≡◌, ◌⊎◌, IfOk, OnErr, OnOk, false, true};
ghost use Rattle.plain_house.specs.Replies.{is_no_memory};
ghost use Rattle.request_lines.specs.Script.{after, answer_of, reply_in};

use crate::ahead::ReadAhead;
use ocpi_types::Config;
use plain_house::{Refused, Replied, Sequential};
use request_lines::{answer_to, reply_to_command};
use std::alloc::{AllocError, Global};
use std::thread::Threads;

/// Returns the reply to a line: of the house to its command, or why it has none.
fn reply<S: Sequential, T: Threads>(
    rt: &T,
    ahead: &mut ReadAhead,
    config: &Config,
    house: &mut S,
    line: &[u8],
) -> Result<Replied, Refused>
    requires same { S.config house.old ≡ config.now }
    requires ahead { ahead.old.config ≡ config.now }
    ensures ahead { ahead.new.config ≡ ahead.old.config }
    ensures config { S.config house.new ≡ S.config house.old }
    ensures reply { is_no_memory result ≡ false → result ≡ reply_in config.now (S.events house.old) line.now }
    ensures events { is_no_memory result ≡ false → S.events house.new ≡ after config.now (S.events house.old) line.now }
    ensures unchanged { is_no_memory result ≡ true → S.events house.new ≡ S.events house.old }
{
    let command = ahead.command(rt, line);
    reply_to_command(house, command)
}

/// Returns the answer to a line. If an allocation fails, the house is as before or as after the line.
#[tactic(auto, using(crate::proofs::AheadLemmas::answer_is))]
pub fn respond<S: Sequential, T: Threads>(
    rt: &T,
    alloc: Global,
    ahead: &mut ReadAhead,
    config: &Config,
    house: &mut S,
    line: &[u8],
) -> Result<Vec<u8>, AllocError>
    requires same { S.config house.old ≡ config.now }
    requires ahead { ahead.old.config ≡ config.now }
    ensures ahead { ahead.new.config ≡ ahead.old.config }
    ensures config { S.config house.new ≡ S.config house.old }
    ensures text { IfOk result (λ text. text.items ≡ answer_of config.now (S.events house.old) line.now) }
    ensures ok { OnOk result (S.events house.new ≡ after config.now (S.events house.old) line.now) }
    ensures err { OnErr result ((S.events house.new ≡ S.events house.old)
        ⊎ (S.events house.new ≡ after config.now (S.events house.old) line.now)) }
{
    let reply = reply(rt, ahead, config, house, line);
    answer_to(alloc, config, &reply)
}
