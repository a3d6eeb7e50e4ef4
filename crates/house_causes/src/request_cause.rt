//! Why a request is refused.

ghost use Rattle.std.specs.Prelude.{◌≡◌};
ghost use Rattle.house_causes.specs.Causes.{said_in};
ghost use Rattle.house_causes.specs.RequestCause.{cause_of_request, refusal_for};

use crate::causes::cause_of;
use crate::house_cause::HouseCause;
use cdr_checks::{Cause, Request, admit};
use known_events::KnownEvents;
use ocpi_types::{Config, Refusal};
use plain_house::{Refused, Replied};

/// Why a request is refused.
#[derive(Clone, Copy)]
pub enum RequestCause {
    /// It is not admitted.
    NotAdmitted(Cause),
    /// It is admitted, and the house refuses its command.
    ByHouse(HouseCause),
}

impl RequestCause {
    /// The refusal; none of the answers BLOCKED and NO_CREDIT.
    pub fn refusal(&self) -> Option<Refusal>
        ensures { result ≡ refusal_for self.now }
    {
        match self {
            RequestCause::NotAdmitted(cause) => Some(cause.refusal()),
            RequestCause::ByHouse(cause) => cause.reason.refusal(),
        }
    }
}

/// Why a request gets this reply after these events, if the reply is a refusal, BLOCKED or NO_CREDIT.
pub fn cause_of_request(
    config: &Config,
    events: &KnownEvents,
    request: Request,
    reply: &Result<Replied, Refused>,
) -> Option<RequestCause>
    ensures { result ≡ cause_of_request config.now events.now request (said_in reply.now) }
{
    match admit(config, request) {
        Ok(command) => Some(RequestCause::ByHouse(cause_of(config, events, &command, reply)?)),
        Err((_request, cause)) => Some(RequestCause::NotAdmitted(cause)),
    }
}
