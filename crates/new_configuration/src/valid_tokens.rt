//! The tokens by which holds can be added again.

ghost use Rattle.std.specs.Prelude.{◌≡◌, false, List, [], ◌∷◌, ◌++◌, OnOk, if◌then◌else◌};
ghost use Rattle.ocpi_types.specs.Party.{same_party};
ghost use Rattle.ocpi_types.specs.declared.party.Party.{Party as AnyParty};
ghost use Rattle.plain_house.specs.declared.event.Event.{Event as AnyEvent};
ghost use Rattle.new_configuration.specs.Inner.ValidTokens.{HaveValid, KeepsPut, KeepsToken, tokens_of};

use indexmap::IndexMap;
use ocpi_types::{Party, Token};
use plain_house::{Event, entries_are_dated};
use std::alloc::{AllocError, Global};

/// For each provider the tokens that it put as valid, without those that an authorisation found invalid since.
#[derive(Drop)]
pub struct ValidTokens {
    lists: IndexMap<Party, Vec<Token>>,
}

impl ValidTokens {
    /// Returns no tokens.
    pub fn new(alloc: Global) -> ValidTokens
        ensures { HaveValid [] result }
    {
        ValidTokens {
            lists: IndexMap::new(alloc),
        }
    }

    /// Removes the tokens of the provider and returns them.
    pub fn take(&mut self, alloc: Global, provider: &Party) -> Vec<Token>
        ensures taken { result.items ≡ tokens_of self.old provider.now }
        ensures others { (other : AnyParty) → same_party provider.now other ≡ false → tokens_of self.new other ≡ tokens_of self.old other }
    {
        match self.lists.swap_remove(provider) {
            Some(tokens) => tokens,
            None => Vec::new(alloc),
        }
    }

    /// Replaces the tokens of the provider.
    ///
    /// # Errors
    ///
    /// `AllocError` if an allocation fails.
    pub fn put(&mut self, provider: Party, tokens: Vec<Token>) -> Result<(), AllocError>
        ensures { OnOk result ((other : AnyParty) → tokens_of self.new other ≡ (if same_party provider other then tokens.items else tokens_of self.old other)) }
    {
        self.lists.insert(provider, tokens)?;
        Ok(())
    }

    // Adds the token to those of its provider, if it is valid.
    fn add_valid(&mut self, alloc: Global, token: &Token) -> Result<(), AllocError>
        ensures { OnOk result (KeepsToken (tokens_of self.old) token.now (tokens_of self.new)) }
    {
        if !token.valid {
            return Ok(());
        }
        let mut tokens = self.take(alloc, &token.provider);
        tokens.push(*token)?;
        self.put(token.provider, tokens)
    }

    fn add_put(&mut self, alloc: Global, event: &Event) -> Result<(), AllocError>
        ensures { OnOk result (KeepsPut (tokens_of self.old) event.now (tokens_of self.new)) }
    {
        if let Event::Token(token) = event {
            self.add_valid(alloc, token)?;
        }
        Ok(())
    }

    /// Adds the token of the event, if the event puts a token that is valid.
    ///
    /// # Errors
    ///
    /// `AllocError` if an allocation fails.
    pub fn add(&mut self, alloc: Global, event: &Event) -> Result<(), AllocError>
        ensures { OnOk result ((events : List AnyEvent) → HaveValid events self.old → HaveValid (events ++ event.now ∷ []) self.new) }
    {
        entries_are_dated();
        self.add_put(alloc, event)
    }
}
