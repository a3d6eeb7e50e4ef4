use crate::index::Index;
use crate::keys::SumKey;
use crate::owed::add_providers;
use crate::sharing::Sharing;
use cdr_checks::Find;
use netting_positions::{Obligation, ObligationTable};
use ocpi_json::ci_text::CiText;
use ocpi_types::{Cdr, Config, Cost, Currency, Party, Refusal, Shared, Tariff, same_tariff};
use plain_house::{Answer, BookEntry, BookedAmount, BookedCdr, reply_to_booked, taken_back};
use std::alloc::{AllocError, Global};
use std::marker::Model;

/// The book of operators: their tariff versions, CDRs and Credit CDRs, in the order in which they came.
pub struct Book {
    entries: Vec<BookEntry>,
    index: Index,
    has_room: bool,
}

// Not derived: what is derived is proved anew in each crate that drops one.
impl Drop for Book {
    fn drop(self) {
        let Book {
            entries: _,
            index: _,
            has_room: _,
        } = self;
    }
}

impl Model for Book {
    ghost use Rattle.std.specs.Prelude.{◌≡◌, ◌<◌, true, vec_len, vec_capacity};
    ghost use Rattle.operator_book.specs.State.{PlainBook};
    ghost use Rattle.operator_book.specs.Inner.Indexed.{HasRoom, IsIndexOf};

    ghost Value = { PlainBook };

    ghost view = { λ book. record { entries = book.entries.items; has_room = book.has_room } };

    ghost invariant = { λ book. IsIndexOf book.index book.entries.items
        × (book.has_room ≡ true → HasRoom book.index × (vec_len book.entries < vec_capacity book.entries)) };
}

impl Book {
    ghost use Rattle.std.specs.Prelude.{◌≡◌, ◌+◌, ◌<◌, ◌≤◌, ◌^◌, [], ◌∷◌, ◌++◌, true, false, None, OnOk, OnErr, option_copied, option_map};
    ghost use Rattle.std.specs.List.{list_all};
    ghost use Rattle.netting_positions.specs.Netting.{is_configured, total_size};
    ghost use Rattle.operator_book.specs.Due.{due};
    ghost use Rattle.operator_book.specs.Together.{owed_by_all, together};
    ghost use Rattle.operator_book.specs.Inner.Versions.{IsNewVersion};
    ghost use Rattle.plain_house.specs.Booked.{booked_as, is_credited, shown_booked};
    ghost use Rattle.plain_house.specs.House.{found_of, stored_already};
    ghost use Rattle.plain_house.specs.Posting.{credited_amount, judged_cdr, judged_credit};
    ghost use Rattle.plain_house.specs.Full.{are_cdrs_full, are_versions_full};
    ghost use Rattle.plain_house.specs.Tariffs.{lacks_registered, stored_version};
    ghost use Rattle.plain_house.specs.declared.entry.BookEntry.TheVariants as book;

    /// A book without entries.
    pub fn new(alloc: Global) -> Book
        ensures { result ≡ record { entries = []; has_room = false } }
    {
        Book {
            entries: Vec::new(alloc),
            index: Index::new(alloc),
            has_room: false,
        }
    }

    /// What was put, in order.
    pub fn entries(&self) -> &[BookEntry]
        ensures { result.now ≡ self.now.entries }
    {
        self.entries.as_slice()
    }

    /// The operator has as many CDRs and Credit CDRs as the configuration allows.
    pub fn are_cdrs_full(&self, config: &Config, operator: &Party) -> bool
        ensures { result ≡ are_cdrs_full config.now operator.now self.now.entries }
    {
        config.limits.cdrs.get() <= self.index.counts.cdrs_of(operator)
    }

    /// The operator has as many tariff versions as the configuration allows.
    pub fn are_versions_full(&self, config: &Config, operator: &Party) -> bool
        ensures { result ≡ are_versions_full config.now operator.now self.now.entries }
    {
        config.limits.tariffs.get() <= self.index.counts.versions_of(operator)
    }

    // The stored version of that operator, id and moment.
    fn stored_version(&self, tariff: &Tariff) -> Option<&Shared<Tariff>>
        ensures { option_copied result ≡ stored_version tariff.now self.now.entries }
    {
        self.index.versions.find(self.entries.as_slice(), tariff)
    }

    /// The reply to a tariff whose version is stored already; none where it is not.
    pub fn judge_tariff(&self, tariff: &Tariff) -> Option<Result<Answer, Refusal>>
        ensures { result ≡ stored_already tariff.now (stored_version tariff.now self.now.entries) }
    {
        let stored = self.stored_version(tariff)?;
        if same_tariff(stored, tariff) {
            Some(Ok(Answer::Unchanged))
        } else {
            Some(Err(Refusal::Conflict))
        }
    }

    // The CDR or Credit CDR of that operator and id.
    fn booked_as(&self, operator: &Party, id: &CiText<39>) -> Option<BookedCdr<'_>>
        ensures { option_map shown_booked result ≡ booked_as operator.now id.now self.now.entries }
    {
        self.index.ids.find(self.entries.as_slice(), operator, id)
    }

    // A Credit CDR credits the CDR of that operator and id.
    fn is_credited(&self, operator: &Party, id: &CiText<39>) -> bool
        ensures { result ≡ is_credited operator.now id.now self.now.entries }
    {
        self.index.credited.has(operator, id)
    }

    fn lacks_registered(&self, cdr: &Cdr) -> bool
        ensures { result ≡ lacks_registered cdr.now self.now.entries }
    {
        self.index
            .versions
            .lacks_registered(self.entries.as_slice(), cdr)
    }

    /// The reply to a CDR that is booked already, or whose tariffs are not registered; none where it can be booked.
    pub fn judge_cdr(&self, cdr: &Cdr) -> Option<Result<Answer, Refusal>>
        ensures { result ≡ judged_cdr cdr.now self.now.entries }
    {
        if let Some(found) = self.booked_as(&cdr.operator, &cdr.id) {
            return Some(reply_to_booked(&found, cdr));
        }
        if self.lacks_registered(cdr) {
            return Some(Err(Refusal::TariffNotRegistered));
        }
        None
    }

    // The negated amount of the CDR that a Credit CDR names.
    fn credited_amount(
        &self,
        config: &Config,
        period: u64,
        credit: &Cdr,
    ) -> Result<BookedAmount, Refusal>
        ensures { result ≡ credited_amount config.now period credit.now self.now.entries }
    {
        let Some(id) = credit.credit else {
            return Err(Refusal::UnknownOriginal);
        };
        let Some(original) = self.booked_as(&credit.operator, &id) else {
            return Err(Refusal::UnknownOriginal);
        };
        let is_credited = self.is_credited(&original.cdr.operator, &original.cdr.id);
        taken_back(config, period, credit, is_credited, &original)
    }

    /// The amount at which a Credit CDR would be booked in the period, or the reply to it.
    pub fn judge_credit(
        &self,
        config: &Config,
        period: u64,
        credit: &Cdr,
    ) -> Result<BookedAmount, Result<Answer, Refusal>>
        ensures { result ≡ judged_credit config.now period credit.now self.now.entries }
    {
        if let Some(found) = self.booked_as(&credit.operator, &credit.id) {
            return Err(reply_to_booked(&found, credit));
        }
        match self.credited_amount(config, period, credit) {
            Ok(amount) => Ok(amount),
            Err(refusal) => Err(Err(refusal)),
        }
    }

    /// Where a CDR stands.
    pub fn find(&self, find: &Find) -> Result<Answer, Refusal>
        ensures { result ≡ (found_of find.now self.now.entries (booked_as find.now.operator find.now.id self.now.entries)).reply }
    {
        match self.booked_as(&find.operator, &find.id) {
            Some(found) => Ok(Answer::Found {
                amount: found.amount.amount(),
                period: found.period,
                credited: self.is_credited(&find.operator, &find.id),
            }),
            None => Err(Refusal::UnknownCdr),
        }
    }

    /// What the provider owes the operator of the period in the currency, together, where it owes any.
    pub(crate) fn owed(
        &self,
        operator: &Party,
        provider: &Party,
        currency: &Currency,
        period: u64,
    ) -> Option<Obligation>
        requires { total_size (due operator.now period self.now.entries) < 2 ^ 63 }
        ensures { result ≡ together operator.now (due operator.now period self.now.entries) provider.now currency.now }
    {
        let key = SumKey {
            operator: *operator,
            provider: *provider,
            currency: *currency,
            period,
        };
        let sum = self.index.sums.of(&key)?;
        Some(Obligation {
            operator: *operator,
            provider: *provider,
            currency: *currency,
            amount: sum.amount(),
        })
    }

    /// Adds what the operator is owed of the period, summed by provider and currency, without taking memory.
    pub fn period_sums<T: ObligationTable>(
        &self,
        config: &Config,
        operator: &Party,
        period: u64,
        table: &mut T,
    )
        requires configured { list_all (is_configured (T.scope table.old).parties (T.scope table.old).currencies) (due operator.now period self.now.entries) ≡ true }
        requires fits { total_size (T.obligations table.old) + total_size (due operator.now period self.now.entries) < 2 ^ 63 }
        ensures scope { T.scope table.new ≡ T.scope table.old }
        ensures obligations { T.obligations table.new ≡ T.obligations table.old
            ++ owed_by_all operator.now (due operator.now period self.now.entries) config.now.currencies config.now.providers }
    {
        let providers = config.providers.as_slice();
        let currencies = config.currencies.as_slice();
        add_providers(self, operator, period, providers, currencies, table);
    }

    /// Takes memory for so many more entries at once, which `reserve` then does not have to take for each. It is room for none of
    /// them: an entry needs its `reserve` all the same.
    pub fn make_room(&mut self, entries: usize) -> Result<(), AllocError>
        ensures { self.new ≡ self.old }
    {
        self.index.make_room(entries)?;
        self.entries.reserve(entries)
    }

    /// Makes room for one more entry. Where memory is refused, the book is as before.
    pub fn reserve(&mut self) -> Result<(), AllocError>
        ensures ok { OnOk result (self.new ≡ record { entries = self.old.entries; has_room = true }) }
        ensures err { OnErr result (self.new ≡ self.old) }
    {
        self.index.reserve()?;
        self.entries.reserve(1)?;
        self.has_room = true;
        Ok(())
    }

    fn put(&mut self, entry: BookEntry)
        requires room { self.old.has_room ≡ true }
        requires fresh { IsNewVersion self.old.entries entry }
        ensures { self.new ≡ record { entries = self.old.entries ++ entry ∷ []; has_room = false } }
    {
        self.index.add(self.entries.as_slice(), &entry);
        self.entries.push(entry).unwrap();
        self.has_room = false;
    }

    /// Stores a tariff version that is not stored, without taking memory.
    pub fn put_tariff(&mut self, tariff: Shared<Tariff>)
        requires room { self.old.has_room ≡ true }
        requires fresh { stored_version tariff self.old.entries ≡ None }
        ensures { self.new ≡ record { entries = self.old.entries ++ book.Tariff tariff ∷ []; has_room = false } }
    {
        self.put(BookEntry::Tariff(tariff));
    }

    // The CDR, whose tariffs are their stored versions, where these are the same and it has no other owner.
    fn with_shared_tariffs(&self, cdr: Shared<Cdr>) -> Shared<Cdr>
        ensures { result ≡ cdr }
    {
        let mut cdr = cdr;
        let versions = &self.index.versions;
        cdr.change_sole(&Sharing::new(versions, self.entries.as_slice()));
        cdr
    }

    /// Books a CDR, without taking memory.
    pub fn put_cdr(&mut self, cdr: Shared<Cdr>, cost: Cost, period: u64)
        requires { self.old.has_room ≡ true }
        ensures { self.new ≡ record { entries = self.old.entries ++ book.Cdr cdr cost period ∷ []; has_room = false } }
    {
        let cdr = self.with_shared_tariffs(cdr);
        self.put(BookEntry::Cdr { cdr, cost, period });
    }

    /// Books a Credit CDR, without taking memory.
    pub fn put_credit(&mut self, credit: Shared<Cdr>, amount: BookedAmount, period: u64)
        requires { self.old.has_room ≡ true }
        ensures { self.new ≡ record { entries = self.old.entries ++ book.Credit credit amount period ∷ []; has_room = false } }
    {
        let cdr = self.with_shared_tariffs(credit);
        self.put(BookEntry::Credit {
            cdr,
            amount,
            period,
        });
    }
}
