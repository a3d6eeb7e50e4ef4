//! The events that the lines of a stream add.

ghost use Rattle.std.specs.Prelude.{◌≡◌, OnOk};
ghost use Rattle.line_streams.specs.Given.{done_by};
ghost use Rattle.line_streams.specs.State.{state_of};
ghost use Rattle.house_reports.specs.explain_lines.Inner.StreamKept.{adds_in, kept_after};

use crate::explain_lines::added::keep;
use known_events::KnownEvents;
use line_streams::{LineReply, Stream, StreamReply};
use plain_house::adds_event;
use std::alloc::{AllocError, Global};

// Whether a reply reports an event that was added.
fn adds(reply: &StreamReply) -> bool
    ensures { result ≡ adds_in reply.now }
{
    match reply {
        StreamReply::House(reply) => adds_event(reply),
        StreamReply::Configured { .. }
        | StreamReply::Lowered { .. }
        | StreamReply::Otherwise { .. } => false,
    }
}

/// Adds the last event of a stream to these, if the reply to the last line reports one that was added.
pub fn keep_done(
    alloc: Global,
    stream: &Stream,
    reply: &LineReply,
    events: &mut KnownEvents,
) -> Result<(), AllocError>
    ensures { OnOk result (events.new ≡ kept_after (done_by stream.now reply.now) (state_of stream.now).house.events events.old) }
{
    match stream.done(reply) {
        Some(done) if adds(done) => keep(stream.last_event(alloc)?, events),
        _ => Ok(()),
    }
}
