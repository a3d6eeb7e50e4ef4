//! What a pass keeps of a call, for which the memory is taken before the call.

ghost use Rattle.std.specs.Prelude.{◌≡◌, ◌≤◌, ◌<◌, ◌∷◌, ◌++◌, [], vec_capacity, vec_len, IfOk, OnOk};
ghost use Rattle.plain_house.specs.Laws.{most_rows};
ghost use Rattle.plain_house.specs.Replies.{no_memory};
ghost use Rattle.plain_house.specs.ReplyRoom.{FitsIn};

use crate::call::Call;
use cdr_checks::Command;
use ocpi_types::{Config, TryCopy};
use plain_house::{Refused, Replied, ReplyRoom, out_of_memory};
use std::alloc::AllocError;

/// A call that is about to be made: its command, and room for what it returns.
#[derive(Drop)]
pub struct CallRoom {
    pub command: Command,
    pub room: ReplyRoom,
}

/// Takes memory for one call more, its place first, and what it returns; the calls so far are as before.
pub fn room_for_call(
    config: &Config,
    calls: &mut Vec<Call>,
    command: &Command,
) -> Result<CallRoom, AllocError>
    ensures same { calls.new.items ≡ calls.old.items }
    ensures len { vec_len calls.new ≡ vec_len calls.old }
    ensures capacity { vec_capacity calls.old ≤ vec_capacity calls.new }
    ensures place { OnOk result (vec_len calls.new < vec_capacity calls.new) }
    ensures command { IfOk result (λ kept. kept.command ≡ command.now) }
    ensures room { IfOk result (λ kept. most_rows config.now ≤ kept.room) }
{
    calls.reserve(1)?;
    let alloc = *calls.allocator();
    let room = ReplyRoom::new(alloc, config)?;
    let command = command.copy(alloc)?;
    Ok(CallRoom { command, room })
}

/// Refuses a call that has not been made, for want of memory. It is kept so if there is a place for it.
pub fn refused(calls: &mut Vec<Call>, command: Command) -> Result<Replied, Refused>
    ensures kept { vec_len calls.old < vec_capacity calls.old → calls.new.items ≡ calls.old.items ++ record { command = command; reply = no_memory } ∷ [] }
    ensures not_kept { vec_capacity calls.old ≤ vec_len calls.old → (calls.new.items ≡ calls.old.items) × (vec_capacity calls.new ≤ vec_len calls.new) }
    ensures refused { result ≡ no_memory }
{
    if calls.len() < calls.capacity() {
        calls.push_reserved(Call {
            command,
            reply: Err(out_of_memory()),
        });
    }
    Err(out_of_memory())
}

/// The call with what it returned, without taking memory.
pub fn filled(kept: CallRoom, reply: &Result<Replied, Refused>) -> Call
    requires { FitsIn kept.room reply.now }
    ensures { result ≡ record { command = kept.command; reply = reply.now } }
{
    let CallRoom { command, room } = kept;
    let reply = room.fill(reply);
    Call { command, reply }
}
