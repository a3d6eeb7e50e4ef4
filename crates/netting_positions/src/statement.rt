//! Statements, as obligations are added.

ghost use Rattle.std.specs.Prelude.{◌≡◌, ◌≤◌, ◌<◌, ◌^◌, true, length, map, vec_capacity, IfOk};
ghost use Rattle.std.specs.List.{All, list_all};
ghost use Rattle.std.specs.List.Sorted.{IsStrictlySortedBy};
ghost use Rattle.netting_positions.specs.Netting.{is_configured, parties, size, total_size};
ghost use Rattle.netting_positions.specs.Statement.{statement_rows};
ghost use Rattle.netting_positions.specs.StatementKeys.{key_order};
ghost use Rattle.netting_positions.specs.Inner.StatedRows.{HasRoomIn, row_key, rows_with};

use super::history::History;
use super::laws::statements_are_short;
use super::obligation::Obligation;
use super::positions::parties_of;
use super::row::{Key, StatementRow, key_of, place_of, row_with, zero_row};
use super::table::{ObligationTable, add_each};
use ocpi_json::sequence::Sequence;
use ocpi_types::{Config, Currency, Party};
use std::alloc::{AllocError, Global};
use std::marker::Model;

fn add_to_row(rows: &mut Vec<StatementRow>, party: &Party, key: &Key, obligation: &Obligation)
    requires sorted { IsStrictlySortedBy key_order (map row_key rows.old.items) }
    requires small { size obligation.now < 2 ^ 63 }
    requires room { All (HasRoomIn party.now obligation.now) rows.old.items }
    requires place { length (rows_with party.now obligation.now key.now rows.old.items) ≤ vec_capacity rows.old }
    ensures rows { rows.new.items ≡ rows_with party.now obligation.now key.now rows.old.items }
    ensures capacity { vec_capacity rows.old ≤ vec_capacity rows.new }
{
    match place_of(rows.as_slice(), key) {
        Ok(place) => rows[place] = row_with(&rows[place], party, obligation),
        Err(place) => rows
            .insert(place, row_with(&zero_row(key), party, obligation))
            .unwrap(),
    }
}

/// The rows of a party's statement, as obligations are added.
#[derive(Drop)]
pub struct StatementTable {
    party: Party,
    parties: Vec<Party>,
    currencies: Vec<Currency>,
    rows: Vec<StatementRow>,
    history: History,
}

impl Model for StatementTable {
    ghost use Rattle.std.specs.Prelude.{vec_capacity};
    ghost use Rattle.netting_positions.specs.State.{PlainStatement};
    ghost use Rattle.netting_positions.specs.Inner.StatedRows.{IsStated};

    ghost Value = { PlainStatement };

    ghost view = { λ table. record {
      party = table.party;
      parties = table.parties.items;
      currencies = table.currencies.items;
      obligations = table.history.obligations;
    } };

    ghost invariant = { λ table. IsStated table.rows.items (vec_capacity table.rows) table.party table.parties.items table.currencies.items table.history.obligations };
}

impl StatementTable {
    ghost use Rattle.std.specs.Prelude.{◌≡◌, [], IfOk};
    ghost use Rattle.netting_positions.specs.Netting.{parties};
    ghost use Rattle.netting_positions.specs.Statement.{statement_rows};

    /// The statement of a party, of no obligations yet, with room for a row for each currency and party.
    pub fn new(alloc: Global, config: &Config, party: Party) -> Result<StatementTable, AllocError>
        ensures { IfOk result (λ table. table ≡ record { party = party; parties = parties config.now; currencies = config.now.currencies; obligations = [] }) }
    {
        let parties = parties_of(alloc, config)?;
        let currencies = config.currencies.as_slice().to_vec(alloc)?;
        let rows = Vec::with_capacity(alloc, currencies.len() * parties.len())?;
        Ok(StatementTable {
            party,
            parties,
            currencies,
            rows,
            history: History::new(),
        })
    }

    /// The rows, by currency and then by counterpart, without taking memory.
    pub fn into_rows(self) -> Sequence<StatementRow>
        ensures { result ≡ statement_rows self.party self.obligations }
    {
        Sequence::from_vec(self.rows)
    }
}

impl ObligationTable for StatementTable {
    ghost use Rattle.netting_positions.specs.State.{scope_of_statement};

    ghost scope = { scope_of_statement };

    ghost obligations = { λ table. table.obligations };

    // The statement is of those in which the party is the operator or the provider.
    fn add(&mut self, obligation: &Obligation) {
        statements_are_short();
        if let Some(key) = key_of(&self.party, obligation) {
            add_to_row(&mut self.rows, &self.party, &key, obligation);
        }
        self.history = self.history.and(obligation);
    }
}

/// The rows of a party's statement of these obligations.
pub fn rows_of(
    alloc: Global,
    config: &Config,
    obligations: &[Obligation],
    party: &Party,
) -> Result<Sequence<StatementRow>, AllocError>
    requires configured { list_all (is_configured (parties config.now) config.now.currencies) obligations.now ≡ true }
    requires fits { total_size obligations.now < 2 ^ 63 }
    ensures { IfOk result (λ rows. rows ≡ statement_rows party.now obligations.now) }
{
    let mut table = StatementTable::new(alloc, config, *party)?;
    add_each(&mut table, obligations);
    Ok(table.into_rows())
}
