//! The lines that were done under request ids.

ghost use Rattle.std.specs.Prelude.{◌≡◌};
ghost use Rattle.sha2.specs.Sha256.{sha256};

use crate::reply::StreamReply;
use crate::request_id::IdKey;
use indexmap::IndexMap;
use ocpi_types::{Config, Shared};
use sha2::{Digest, Sha256};
use std::alloc::{AllocError, Global};

/// Returns the SHA-256 of a line.
fn digest_of(line: &[u8]) -> [u8; 32]
    ensures { result ≡ sha256 line.now }
{
    Sha256::digest(line)
}

/// A line that was done, by its SHA-256, and its reply under the configuration that was in force.
#[derive(Drop)]
pub struct Answered {
    pub digest: [u8; 32],
    pub config: Shared<Config>,
    pub reply: StreamReply,
}

impl Answered {
    ghost use Rattle.std.specs.Prelude.{◌≡◌, IfOk};
    ghost use Rattle.line_streams.specs.State.{is_same_line, shown_answered};

    /// Returns the answer to the line.
    pub fn answer(&self, alloc: Global) -> Result<Vec<u8>, AllocError>
        ensures { IfOk result (λ text. text.items ≡ (shown_answered self.now).answer) }
    {
        self.reply.line(alloc, &self.config)
    }

    /// Whether a line has the digest of the one that was done.
    pub fn is_line(&self, line: &[u8]) -> bool
        ensures { result ≡ is_same_line (shown_answered self.now) line.now }
    {
        self.digest == digest_of(line)
    }
}

/// A line that is to be done, and the configuration in force before it.
#[derive(Drop)]
pub struct Unanswered {
    digest: [u8; 32],
    config: Shared<Config>,
}

impl Unanswered {
    ghost use Rattle.std.specs.Prelude.{◌≡◌, IfOk};
    ghost use Rattle.sha2.specs.Sha256.{sha256};

    /// Takes the digest of the line.
    ///
    /// # Errors
    ///
    /// `AllocError` if the configuration cannot be shared once more.
    pub fn new(config: &Shared<Config>, line: &[u8]) -> Result<Unanswered, AllocError>
        ensures digest { IfOk result (λ unanswered. unanswered.digest ≡ sha256 line.now) }
        ensures config { IfOk result (λ unanswered. unanswered.config ≡ config.now) }
    {
        Ok(Unanswered {
            digest: digest_of(line),
            config: config.share()?,
        })
    }

    /// Adds the reply, without an allocation.
    pub fn with_reply(self, reply: StreamReply) -> Answered
        ensures { result ≡ record { digest = self.digest; config = self.config; reply = reply } }
    {
        let Unanswered { digest, config } = self;
        Answered {
            digest,
            config,
            reply,
        }
    }
}

/// The lines that were done under request ids, the first one first.
#[derive(Drop)]
pub struct AnsweredLines {
    lines: IndexMap<IdKey, Answered>,
}

impl AnsweredLines {
    ghost use Rattle.std.specs.Prelude.{◌≡◌, ◌<◌, [], ◌∷◌, ◌++◌, None, Some, option_map, option_copied, OnOk};
    ghost use Rattle.std.specs.Map.{lookup};
    ghost use Rattle.indexmap.specs.IndexMap.{spare};
    ghost use Rattle.line_streams.specs.State.{same_key, same_request, shown_answered, shown_key, shown_lines};

    /// Returns no lines.
    pub fn new(alloc: Global) -> AnsweredLines
        ensures { shown_lines result ≡ [] }
    {
        AnsweredLines {
            lines: IndexMap::new(alloc),
        }
    }

    /// Returns the line that was done under a request id.
    pub fn find(&self, key: &IdKey) -> Option<&Answered>
        ensures shown { option_map shown_answered (option_copied result) ≡ lookup (same_request (shown_key key.now)) (shown_lines self.now) }
        ensures value { option_copied result ≡ lookup (same_key key.now) self.now.lines.entries }
    {
        self.lines.get(key)
    }

    /// Takes memory for one more line.
    ///
    /// # Errors
    ///
    /// `AllocError` if an allocation fails; the lines are as before.
    pub fn reserve(&mut self) -> Result<(), AllocError>
        ensures lines { shown_lines self.new ≡ shown_lines self.old }
        ensures room { OnOk result (0 < spare self.new.lines) }
    {
        self.lines.reserve(1)
    }

    /// Adds a line under a request id under which no line was done, without an allocation.
    pub fn add(&mut self, key: IdKey, answered: Answered)
        requires room { 0 < spare self.old.lines }
        requires absent { lookup (same_request (shown_key key)) (shown_lines self.old) ≡ None }
        ensures lines { shown_lines self.new ≡ shown_lines self.old ++ (shown_key key, shown_answered answered) ∷ [] }
        ensures added { lookup (same_key key) self.new.lines.entries ≡ Some answered }
    {
        self.lines.insert(key, answered).unwrap();
    }
}
