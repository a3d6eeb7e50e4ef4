//! The tokens that a list of events has put.

ghost use Rattle.std.specs.Prelude.{◌≡◌, find, flat_map, option_map, reverse};
ghost use Rattle.std.specs.Option.{option_or};
ghost use Rattle.plain_house.specs.Entries.{account_entries};
ghost use Rattle.plain_house.specs.Tokens.{has_uid, is_token, validity};
ghost use Rattle.plain_house.specs.Inner.Scanned.{token_of_event};

use super::event::Event;
use ocpi_json::ci_text::CiText;
use ocpi_types::{Party, Token, TokenKind};

fn has_uid(token: &Token, provider: &Party, uid: &CiText<36>) -> bool
    ensures { result ≡ has_uid provider.now uid.now token.now }
{
    token.provider.is(provider) && token.uid == *uid
}

fn is_token(token: &Token, provider: &Party, uid: &CiText<36>, kind: TokenKind) -> bool
    ensures { result ≡ is_token provider.now uid.now kind token.now }
{
    has_uid(token, provider, uid) && token.kind.is(kind)
}

// The validity of the token that the event puts, where it is that token; otherwise as it was.
fn validity_after(
    event: &Event,
    before: Option<bool>,
    provider: &Party,
    uid: &CiText<36>,
    kind: TokenKind,
) -> Option<bool>
    ensures { result ≡ option_or (option_map (λ token. token.valid) (find (is_token provider.now uid.now kind) (token_of_event event.now))) before }
{
    match event {
        Event::Token(token) if is_token(token, provider, uid, kind) => Some(token.valid),
        _ => before,
    }
}

#[tactic(auto, using(crate::proofs::TokensLemmas::last_token))]
fn last_validity(
    events: &[Event],
    provider: &Party,
    uid: &CiText<36>,
    kind: TokenKind,
) -> Option<bool>
    ensures { result ≡ option_map (λ token. token.valid) (find (is_token provider.now uid.now kind) (reverse (flat_map token_of_event events.now))) }
{
    let mut found = None;
    for event in events {
        found = validity_after(event, found, provider, uid, kind);
    }
    found
}

/// Whether the token of this provider, uid and type is valid; none where the list puts no such token.
#[tactic(auto, using(crate::proofs::EntriesLemmas::tokens_in_events))]
pub fn validity(
    events: &[Event],
    provider: &Party,
    uid: &CiText<36>,
    kind: TokenKind,
) -> Option<bool>
    ensures { result ≡ validity provider.now uid.now kind (account_entries events.now) }
{
    last_validity(events, provider, uid, kind)
}
