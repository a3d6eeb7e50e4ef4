//! A line with a request id, done once.

ghost use Rattle.std.specs.Prelude.{◌≡◌, None, Some, IfOk, OnErr, OnOk};
ghost use Rattle.std.specs.Map.{lookup};
ghost use Rattle.line_streams.specs.declared.reply.LineReply.TheVariants as given;
ghost use Rattle.line_streams.specs.Given.{IsGivenOnce, done_in};
ghost use Rattle.line_streams.specs.State.{line_text, remembered_text, same_request, shown_house, shown_key, shown_lines};
ghost use Rattle.line_streams.specs.Stream.{IsDoneOnce};
ghost use Rattle.line_streams.specs.Inner.Allowed.{IsAllowed, IsAllowedNow, IsFirstDone};
ghost use Rattle.line_streams.specs.Inner.Base.{base_of};
ghost use Rattle.line_streams.specs.Inner.Seen.{seen};

use crate::allowed::{Allowed, allow};
use crate::answered::{AnsweredLines, Unanswered};
use crate::asked::Asked;
use crate::doing::do_allowed;
use crate::in_force::InForce;
use crate::reply::LineReply;
use crate::request_id::IdKey;
use period_order::BookHouse;
use std::alloc::{AllocError, Global};

/// Does what a line asks for and the configuration allows, and remembers the line under its request id. All memory to remember it is taken
/// before.
fn do_first(
    alloc: Global,
    in_force: &mut InForce,
    house: &mut BookHouse,
    answered: &mut AnsweredLines,
    key: IdKey,
    allowed: Allowed,
    line: &[u8],
) -> Result<(), AllocError>
    requires base { house.old.config ≡ base_of in_force.old }
    requires absent { lookup (same_request (shown_key key)) (shown_lines answered.old) ≡ None }
    requires allowed { IsAllowed in_force.old.config allowed }
    ensures base { house.new.config ≡ base_of in_force.new }
    ensures ok { OnOk result (IsFirstDone (seen in_force.old.config house.old answered.old) (shown_key key) allowed line.now
        (remembered_text (lookup (same_request (shown_key key)) (shown_lines answered.new))) (seen in_force.new.config house.new answered.new)) }
    ensures given { OnOk result (IsAllowedNow (shown_house in_force.old.config house.old) allowed (done_in answered.new (given.Remembered key))) }
    ensures err { OnErr result (seen in_force.new.config house.new answered.new ≡ seen in_force.old.config house.old answered.old) }
{
    answered.reserve()?;
    let unanswered = Unanswered::new(&in_force.config, line)?;
    let reply = do_allowed(alloc, in_force, house, allowed)?;
    answered.add(key, unanswered.with_reply(reply));
    Ok(())
}

/// Replies to a line that has a request id: does what it asks for if no line was done under the id and the configuration allows it.
pub fn do_once(
    alloc: Global,
    in_force: &mut InForce,
    house: &mut BookHouse,
    answered: &mut AnsweredLines,
    key: IdKey,
    asked: Asked,
    line: &[u8],
) -> Result<LineReply, AllocError>
    requires base { house.old.config ≡ base_of in_force.old }
    ensures base { house.new.config ≡ base_of in_force.new }
    ensures ok { IfOk result (λ reply. IsDoneOnce (seen in_force.old.config house.old answered.old) (Some (shown_key key)) asked
        (lookup (same_request (shown_key key)) (shown_lines answered.old)) line.now
        (line_text in_force.new.config (shown_lines answered.new) reply) (seen in_force.new.config house.new answered.new)) }
    ensures given { IfOk result (λ reply. IsGivenOnce (shown_house in_force.old.config house.old) (shown_lines answered.old) asked
        (lookup (same_request (shown_key key)) (shown_lines answered.old)) line.now (done_in answered.new reply) reply) }
    ensures err { OnErr result (seen in_force.new.config house.new answered.new ≡ seen in_force.old.config house.old answered.old) }
{
    if let Some(found) = answered.find(&key) {
        let is_same = found.is_line(line);
        return Ok(if is_same {
            LineReply::Repeated(key)
        } else {
            LineReply::IdUsed
        });
    }
    let allowed = match allow(&in_force.config, asked) {
        Ok(allowed) => allowed,
        Err(refusal) => return Ok(LineReply::refused(refusal)),
    };
    do_first(alloc, in_force, house, answered, key, allowed, line)?;
    Ok(LineReply::Remembered(key))
}
