//! Whether tokens are valid, as they were put last.

ghost use Rattle.std.specs.Prelude.{◌≡◌, ◌<◌, ◌≤◌, List, [], ◌∷◌, ◌++◌, OnOk};
ghost use Rattle.indexmap.specs.IndexMap.{spare};
ghost use Rattle.plain_house.specs.declared.entry.AccountEntry.{AccountEntry};
ghost use Rattle.plain_house.specs.declared.entry.AccountEntry.TheVariants as account;
ghost use Rattle.provider_account.specs.Inner.Tokens.{KnowsTokens, known_validity};

use indexmap::IndexMap;
use ocpi_json::ci_text::CiText;
use ocpi_types::{Party, Token, TokenKind};
use plain_house::AccountEntry;
use std::alloc::{AllocError, Global};

/// What a token is known by.
#[derive(Clone, Copy, PartialEq, Eq, Hash)]
pub(crate) struct TokenKey {
    pub provider: Party,
    pub uid: CiText<36>,
    pub kind: TokenKind,
}

/// Whether each token that was put is valid.
#[derive(Drop)]
pub(crate) struct Tokens {
    pub valid: IndexMap<TokenKey, bool>,
}

fn key_of(token: &Token) -> TokenKey
    ensures { result ≡ record { provider = token.now.provider; uid = token.now.uid; kind = token.now.kind } }
{
    TokenKey {
        provider: token.provider,
        uid: token.uid,
        kind: token.kind,
    }
}

impl Tokens {
    pub(crate) fn new(alloc: Global) -> Tokens
        ensures { KnowsTokens result [] }
    {
        Tokens {
            valid: IndexMap::new(alloc),
        }
    }

    /// Whether the token is valid, as it was put last.
    pub(crate) fn validity(
        &self,
        provider: &Party,
        uid: &CiText<36>,
        kind: TokenKind,
    ) -> Option<bool>
        ensures { result ≡ known_validity self.now provider.now uid.now kind }
    {
        let key = TokenKey {
            provider: *provider,
            uid: *uid,
            kind,
        };
        self.valid.get(&key).copied()
    }

    /// Room for one more token.
    pub(crate) fn reserve(&mut self) -> Result<(), AllocError>
        ensures room { OnOk result (0 < spare self.new.valid) }
        ensures more { spare self.old.valid ≤ spare self.new.valid }
        ensures kept { self.new.valid.entries ≡ self.old.valid.entries }
    {
        self.valid.reserve(1)
    }

    fn put_token(&mut self, token: &Token)
        requires { 0 < spare self.old.valid }
        ensures { (entries : List AccountEntry) → KnowsTokens self.old entries → KnowsTokens self.new (entries ++ account.Token token.now ∷ []) }
    {
        self.valid.insert(key_of(token), token.valid).unwrap();
    }

    /// Takes the entry in, without taking memory.
    pub(crate) fn put(&mut self, entry: &AccountEntry)
        requires { 0 < spare self.old.valid }
        ensures { (entries : List AccountEntry) → KnowsTokens self.old entries → KnowsTokens self.new (entries ++ entry.now ∷ []) }
    {
        if let AccountEntry::Token(token) = entry {
            self.put_token(token);
        }
    }
}
