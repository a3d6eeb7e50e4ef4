//! The accounts of providers.

ghost use Rattle.std.specs.Prelude.{◌≡◌, ◌+◌, ◌-◌, ◌^◌, ◌<◌, ◌≤◌, pos, [], ◌∷◌, ◌++◌, OnOk, OnErr, count_by, true, false};
ghost use Rattle.ocpi_json.specs.Folded.{same_folded};
ghost use Rattle.plain_house.specs.Exposure.{exposure_of, of_provider, released_hold};
ghost use Rattle.plain_house.specs.House.{is_hold_of, reference_text};
ghost use Rattle.plain_house.specs.Settlements.{is_settled};
ghost use Rattle.plain_house.specs.Tokens.{validity};
ghost use Rattle.plain_house.specs.declared.entry.AccountEntry.TheVariants as account;
ghost use Rattle.provider_account.specs.Inner.Holds.{IsNext};
ghost use Rattle.provider_account.specs.Inner.AccountIndex.{AreLimited};

mod limits;
mod next_hold;

use super::account_index::AccountIndex;
use cdr_checks::{Release, Settlement};
use ocpi_json::ci_text::CiText;
use ocpi_types::{Party, Token, TokenKind};
use plain_house::{
    AccountEntry, Charge, Credit, Hold, entries_add_at_most, exposures_in_any_spelling,
};
use std::alloc::{AllocError, Global};
use std::marker::Model;

/// Entries in the order in which they were put, found and summed by keys that have the provider in them.
pub struct Account {
    entries: Vec<AccountEntry>,
    index: AccountIndex,
    has_room: bool,
}

// Not derived: what is derived is proved anew in each crate that drops one.
impl Drop for Account {
    fn drop(self) {
        let Account {
            entries: _,
            index: _,
            has_room: _,
        } = self;
    }
}

impl Model for Account {
    ghost use Rattle.std.specs.Prelude.{◌≡◌, ◌<◌, true, vec_capacity, vec_len};
    ghost use Rattle.provider_account.specs.State.{PlainAccount};
    ghost use Rattle.provider_account.specs.Inner.AccountIndex.{AreLimited, HasRoom, Knows};

    ghost Value = { PlainAccount };

    ghost view = { λ account. record { entries = account.entries.items; has_room = account.has_room } };

    ghost invariant = { λ account. Knows account.index account.entries.items × AreLimited account.entries.items
        × (account.has_room ≡ true → HasRoom account.index × (vec_len account.entries < vec_capacity account.entries)) };
}

impl Account {
    pub fn new(alloc: Global) -> Account
        ensures { result ≡ record { entries = []; has_room = false } }
    {
        Account {
            entries: Vec::new(alloc),
            index: AccountIndex::new(alloc),
            has_room: false,
        }
    }

    /// What was put, in order.
    pub fn entries(&self) -> &[AccountEntry]
        ensures { result.now ≡ self.now.entries }
    {
        self.entries.as_slice()
    }

    /// Whether the token is valid, as it was put last; none where it was not put.
    pub fn validity(&self, provider: &Party, uid: &CiText<36>, kind: TokenKind) -> Option<bool>
        ensures { result ≡ validity provider.now uid.now kind self.now.entries }
    {
        self.index.tokens.validity(provider, uid, kind)
    }

    /// The open hold that the release ends.
    pub fn released_hold(&self, release: &Release) -> Option<Hold>
        ensures { result ≡ released_hold self.now.entries release.now }
    {
        self.index.holds.released(release)
    }

    /// The provider's period is settled in that currency.
    pub fn is_settled(&self, settlement: &Settlement) -> bool
        ensures { result ≡ is_settled settlement.now self.now.entries }
    {
        self.index
            .debts
            .is_settled(self.entries.as_slice(), settlement)
    }

    /// Takes memory for so many more entries at once, which `reserve` then does not have to take for each. It is room for none of
    /// them: an entry needs its `reserve` all the same.
    ///
    /// # Errors
    ///
    /// `AllocError` where memory is refused.
    pub fn make_room(&mut self, entries: usize) -> Result<(), AllocError>
        ensures { self.new ≡ self.old }
    {
        self.index.make_room(entries)?;
        self.entries.reserve(entries)
    }

    /// Makes room for one more entry.
    ///
    /// # Errors
    ///
    /// `AllocError` where memory is refused; the account is as before.
    pub fn reserve(&mut self) -> Result<(), AllocError>
        ensures ok { OnOk result (self.new ≡ record { entries = self.old.entries; has_room = true }) }
        ensures err { OnErr result (self.new ≡ self.old) }
    {
        self.index.reserve()?;
        self.entries.reserve(1)?;
        self.has_room = true;
        Ok(())
    }

    // Takes the entry in, without taking memory.
    fn put(&mut self, entry: AccountEntry)
        requires room { self.old.has_room ≡ true }
        requires next { IsNext self.old.entries entry }
        requires limited { AreLimited self.old.entries → AreLimited (self.old.entries ++ entry ∷ []) }
        ensures { self.new ≡ record { entries = self.old.entries ++ entry ∷ []; has_room = false } }
    {
        self.index.put(self.entries.as_slice(), &entry);
        self.entries.push(entry).unwrap();
        self.has_room = false;
    }

    /// Puts a token, without taking memory.
    pub fn put_token(&mut self, token: Token)
        requires { self.old.has_room ≡ true }
        ensures { self.new ≡ record { entries = self.old.entries ++ account.Token token ∷ []; has_room = false } }
    {
        entries_add_at_most();
        self.put(AccountEntry::Token(token));
    }

    /// Places a hold, without taking memory.
    pub fn hold(&mut self, hold: Hold)
        requires room { self.old.has_room ≡ true }
        requires numbered { same_folded hold.reference (reference_text hold.provider (count_by (is_hold_of hold.provider) self.old.entries + 1)) ≡ true }
        requires within { exposure_of (of_provider hold.provider hold.currency) self.old.entries + hold.amount ≤ 10 ^ 15 }
        ensures { self.new ≡ record { entries = self.old.entries ++ account.Hold hold ∷ []; has_room = false } }
    {
        entries_add_at_most();
        exposures_in_any_spelling();
        self.put(AccountEntry::Hold(hold));
    }

    /// Gives a hold back, without taking memory.
    pub fn release(&mut self, release: Release)
        requires { self.old.has_room ≡ true }
        ensures { self.new ≡ record { entries = self.old.entries ++ account.Release release ∷ []; has_room = false } }
    {
        entries_add_at_most();
        self.put(AccountEntry::Release(release));
    }

    /// Adds a charge, without taking memory.
    pub fn bill(&mut self, charge: Charge)
        requires room { self.old.has_room ≡ true }
        requires within { exposure_of (of_provider charge.provider charge.currency) (self.old.entries ++ account.Charge charge ∷ []) ≤ 10 ^ 15 }
        ensures { self.new ≡ record { entries = self.old.entries ++ account.Charge charge ∷ []; has_room = false } }
    {
        entries_add_at_most();
        exposures_in_any_spelling();
        self.put(AccountEntry::Charge(charge));
    }

    /// Takes the charges of a CDR back, without taking memory.
    pub fn credit(&mut self, credit: Credit)
        requires { self.old.has_room ≡ true }
        ensures { self.new ≡ record { entries = self.old.entries ++ account.Credit credit ∷ []; has_room = false } }
    {
        entries_add_at_most();
        self.put(AccountEntry::Credit(credit));
    }

    /// Ends the debts of a provider's period, without taking memory.
    pub fn settle(&mut self, settlement: Settlement)
        requires { self.old.has_room ≡ true }
        ensures { self.new ≡ record { entries = self.old.entries ++ account.Settlement settlement ∷ []; has_room = false } }
    {
        entries_add_at_most();
        self.put(AccountEntry::Settlement(settlement));
    }
}
