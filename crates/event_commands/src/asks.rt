//! What a request asks for to add an event again.

ghost use Rattle.std.specs.Prelude.{◌≡◌, IfOk};
ghost use Rattle.event_commands.specs.AskedAgain.{ask_again, hold_ask};

use cdr_checks::{Ask, Authorize, Close};
use ocpi_json::ci_text::CiText;
use ocpi_types::{TokenKind, TryCopy};
use plain_house::{Event, Hold};
use std::alloc::{AllocError, Global};

/// Returns what a request asks for to add the event again. A hold returns `None`: it does not name its token.
///
/// # Errors
///
/// `AllocError` if an allocation fails.
pub fn ask_again(alloc: Global, event: &Event) -> Result<Option<Ask>, AllocError>
    ensures { IfOk result (λ asked. asked ≡ ask_again event.now) }
{
    match event {
        Event::Tariff(tariff) => Ok(Some(Ask::PutTariff(tariff.copy(alloc)?))),
        Event::Token(token) => Ok(Some(Ask::PutToken(*token))),
        Event::Authorised(_) => Ok(None),
        Event::Released(release) => Ok(Some(Ask::Release(*release))),
        Event::Cdr { cdr, .. } => Ok(Some(Ask::Post(cdr.copy(alloc)?))),
        Event::Credit { cdr, .. } => Ok(Some(Ask::Post(cdr.copy(alloc)?))),
        Event::Settled(settlement) => Ok(Some(Ask::Settle(*settlement))),
        Event::Closed { period } => Ok(Some(Ask::Close(Close { period: *period }))),
    }
}

/// Returns an authorisation of the token that asks for such a hold.
pub fn hold_ask(hold: &Hold, uid: CiText<36>, kind: TokenKind) -> Ask
    ensures { result ≡ hold_ask hold.now uid kind }
{
    Ask::Authorize(Authorize {
        operator: hold.operator,
        provider: hold.provider,
        uid,
        kind,
        currency: hold.currency,
    })
}
