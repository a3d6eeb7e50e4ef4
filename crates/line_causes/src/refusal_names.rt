//! The names of refusals on answer lines.

ghost use Rattle.std.specs.Prelude.{◌≡◌, option_map};
ghost use Rattle.line_streams.specs.Given.{done_by};
ghost use Rattle.line_causes.specs.RefusalNames.{refused_by, refused_in, refused_undone, refused_by_reply, refused_by_answer};

use line_streams::{LineReply, Stream, StreamReply};
use plain_house::{Answer, Refused, Replied};

fn refused_by_answer(answer: &Answer) -> Option<&'static str>
    ensures { option_map (λ name. name.now) result ≡ refused_by_answer answer.now }
{
    match answer {
        Answer::Blocked => Some("BLOCKED"),
        Answer::NoCredit(_) => Some("NO_CREDIT"),
        Answer::Stored
        | Answer::Unchanged
        | Answer::Allowed { .. }
        | Answer::Released { .. }
        | Answer::Accepted { .. }
        | Answer::Repeated { .. }
        | Answer::Closed { .. }
        | Answer::Settled { .. }
        | Answer::Exposure { .. }
        | Answer::Found { .. }
        | Answer::Statement { .. } => None,
    }
}

/// Returns the name on the answer line of a reply that is a refusal, `BLOCKED` or `NO_CREDIT`.
pub fn refused_by_reply(reply: &Result<Replied, Refused>) -> Option<&'static str>
    ensures { option_map (λ name. name.now) result ≡ refused_by_reply reply.now }
{
    match reply {
        Ok(replied) => refused_by_answer(&replied.answer),
        Err(refused) => Some(refused.refusal.name()),
    }
}

// The name on the answer line of a reply that refuses.
fn refused_by(reply: &StreamReply) -> Option<&'static str>
    ensures { option_map (λ name. name.now) result ≡ refused_by reply.now }
{
    match reply {
        StreamReply::House(reply) => refused_by_reply(reply),
        StreamReply::Configured { .. } | StreamReply::Lowered { .. } => None,
        StreamReply::Otherwise { .. } => Some("ComesOutOtherwise"),
    }
}

// The name on the answer line of a line for which nothing was done.
fn refused_undone(reply: &LineReply) -> Option<&'static str>
    ensures { option_map (λ name. name.now) result ≡ refused_undone reply.now }
{
    match reply {
        LineReply::IdUsed => Some("RequestIdUsed"),
        LineReply::Done(_) | LineReply::Remembered(_) | LineReply::Repeated(_) => None,
    }
}

/// Returns the name on the answer line of a stream's reply to its last line, if the reply refuses the line. A repeated line is not
/// refused again.
pub fn refused(stream: &Stream, reply: &LineReply) -> Option<&'static str>
    ensures { option_map (λ name. name.now) result ≡ refused_in (done_by stream.now reply.now) reply.now }
{
    match stream.done(reply) {
        Some(done) => refused_by(done),
        None => refused_undone(reply),
    }
}
