//! What a stream replies to a line.

ghost use Rattle.std.specs.Prelude.{◌≡◌, string_bytes, IfOk};
ghost use Rattle.line_streams.specs.Change.{configured_text, lowered_text, otherwise_text, used_text};

use crate::request_id::IdKey;
use ocpi_types::{Config, Refusal};
use plain_house::{Refused, Replied};
use request_lines::answer_line;
use std::alloc::{AllocError, Global};

/// The reply to a request or a change of the configuration.
#[derive(Drop)]
pub enum StreamReply {
    /// The house's reply, or the refusal before the house is asked.
    House(Result<Replied, Refused>),
    /// The configuration changed after so many events.
    Configured {
        at: u64,
    },
    /// The configuration changed after so many events, and its limits are below what the event of this number and kind has led to.
    Lowered {
        at: u64,
        event: u64,
        kind: &'static str,
    },
    /// The configuration did not change: of `at` events, that of this number and kind would come out otherwise.
    Otherwise {
        at: u64,
        event: u64,
        kind: &'static str,
    },
}

/// Returns the answer to a change that is made after `at` events.
fn configured_line(alloc: Global, at: u64) -> Result<String, AllocError>
    ensures { IfOk result (λ text. string_bytes text ≡ configured_text at) }
{
    format!(in alloc; "{{\"status_code\":1000,\"answer\":\"Configured\",\"at\":{at}}}\n")
}

/// Returns the answer to a change that is made after `at` events, with limits below what an event has led to.
fn lowered_line(alloc: Global, at: u64, event: u64, kind: &str) -> Result<String, AllocError>
    ensures { IfOk result (λ text. string_bytes text ≡ lowered_text at event kind.now) }
{
    format!(in alloc;
        "{{\"status_code\":1000,\"answer\":\"Configured\",\"at\":{at},\"event\":{event},\"kind\":\"{kind}\"}}\n"
    )
}

/// Returns the refusal of a change under which an event would come out otherwise.
fn otherwise_line(alloc: Global, at: u64, event: u64, kind: &str) -> Result<String, AllocError>
    ensures { IfOk result (λ text. string_bytes text ≡ otherwise_text at event kind.now) }
{
    format!(in alloc;
        "{{\"status_code\":2000,\"refusal\":\"ComesOutOtherwise\",\"number\":29,\"at\":{at},\"event\":{event},\"kind\":\"{kind}\"}}\n"
    )
}

impl StreamReply {
    ghost use Rattle.std.specs.Prelude.{◌≡◌, None, Err, IfOk};
    ghost use Rattle.line_streams.specs.State.{reply_text};
    ghost use Rattle.line_streams.specs.declared.reply.StreamReply.TheVariants.{House};

    /// Returns the reply to what is refused before the house is asked.
    pub fn refused(refusal: Refusal) -> StreamReply
        ensures { result ≡ House (Err (record { at = None; refusal = refusal })) }
    {
        StreamReply::House(Err(Refused { at: None, refusal }))
    }

    /// Returns the answer line of a reply that was given under this configuration.
    pub fn line(&self, alloc: Global, config: &Config) -> Result<Vec<u8>, AllocError>
        ensures { IfOk result (λ text. text.items ≡ reply_text config.now self.now) }
    {
        match self {
            StreamReply::House(reply) => answer_line(alloc, config, reply),
            StreamReply::Configured { at } => Ok(configured_line(alloc, *at)?.into_bytes()),
            StreamReply::Lowered { at, event, kind } => {
                Ok(lowered_line(alloc, *at, *event, kind)?.into_bytes())
            }
            StreamReply::Otherwise { at, event, kind } => {
                Ok(otherwise_line(alloc, *at, *event, kind)?.into_bytes())
            }
        }
    }
}

/// The reply to a line: its answer is written from it and the stream that gave it.
#[derive(Drop)]
pub enum LineReply {
    /// To what the line asks for.
    Done(StreamReply),
    /// To what the line asks for, remembered under this request id.
    Remembered(IdKey),
    /// The one that is remembered under this request id: the line is repeated, and nothing is done.
    Repeated(IdKey),
    /// The request id was given to another line.
    IdUsed,
}

impl LineReply {
    ghost use Rattle.std.specs.Prelude.{◌≡◌, None, Err};
    ghost use Rattle.line_streams.specs.declared.reply.LineReply.TheVariants.{Done};
    ghost use Rattle.line_streams.specs.declared.reply.StreamReply.TheVariants.{House};

    /// Returns the reply to a line that is refused before the house is asked.
    pub fn refused(refusal: Refusal) -> LineReply
        ensures { result ≡ Done (House (Err (record { at = None; refusal = refusal }))) }
    {
        LineReply::Done(StreamReply::refused(refusal))
    }
}

/// Returns the refusal of a line whose request id was given to another line.
pub fn used_line(alloc: Global) -> Result<Vec<u8>, AllocError>
    ensures { IfOk result (λ text. text.items ≡ used_text) }
{
    Vec::from_slice(
        alloc,
        b"{\"status_code\":2000,\"refusal\":\"RequestIdUsed\",\"number\":30}\n",
    )
}
