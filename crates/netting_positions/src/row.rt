//! The rows of a statement.

ghost use Rattle.std.specs.Prelude.{◌≡◌, length};
ghost use Rattle.std.specs.List.Sorted.{IsBinarySearchResult, IsSearchInRange};
ghost use Rattle.netting_positions.specs.StatementKeys.{capitals, in_capitals, key_of, key_order};
ghost use Rattle.netting_positions.specs.Inner.StatedRows.{HasRoomIn, row_key, row_with, zero_row};

use super::obligation::Obligation;
use exact_money::Amount;
use ocpi_json::ci_text::CiText;
use ocpi_types::{Currency, Party};
use std::cmp::Ordering;
use std::str;

/// A row of a statement: what a party and its counterpart owe each other in a currency, in ten-thousandths of its unit.
#[derive(Clone, Copy)]
pub struct StatementRow {
    pub currency: Currency,
    /// In capital letters.
    pub counterpart: Party,
    /// What the party is to receive of its counterpart.
    pub receivable: Amount,
    /// What the party is to pay to its counterpart.
    pub payable: Amount,
    pub net: Amount,
}

/// What a row is for: a currency and a counterpart in capital letters.
#[derive(Clone, Copy)]
pub(crate) struct Key {
    pub currency: Currency,
    pub counterpart: Party,
}

fn capitals<const MOST: usize>(text: &CiText<MOST>) -> CiText<MOST>
    ensures { result ≡ capitals text.now }
{
    let text = text.as_str().as_bytes();
    let mut cells = [0; MOST];
    let cells = &mut cells[..text.len()];
    cells.copy_from_slice(text);
    cells.make_ascii_uppercase();
    CiText::new(str::from_utf8(cells).unwrap()).unwrap()
}

fn in_capitals(party: &Party) -> Party
    ensures { result ≡ in_capitals party.now }
{
    Party {
        country_code: capitals(&party.country_code),
        party_id: capitals(&party.party_id),
    }
}

/// The key of an obligation of the party.
#[tactic(auto, unfolding(crate::specs::StatementKeys::key_of))]
pub(crate) fn key_of(party: &Party, obligation: &Obligation) -> Option<Key>
    ensures { result ≡ key_of party.now obligation.now }
{
    if obligation.operator.is(party) {
        Some(Key {
            currency: obligation.currency,
            counterpart: in_capitals(&obligation.provider),
        })
    } else if obligation.provider.is(party) {
        Some(Key {
            currency: obligation.currency,
            counterpart: in_capitals(&obligation.operator),
        })
    } else {
        None
    }
}

#[tactic(auto, unfolding(crate::specs::StatementKeys::key_order))]
fn key_order(row: &StatementRow, key: &Key) -> Ordering
    ensures { result ≡ key_order (row_key row.now) key.now }
{
    let currency = row.currency.cmp(&key.currency);
    let counterpart = row.counterpart.cmp(&key.counterpart);
    currency.then(counterpart)
}

/// Where the row of a key is, or else its place.
pub(crate) fn place_of(rows: &[StatementRow], key: &Key) -> Result<usize, usize>
    ensures position { IsBinarySearchResult (λ row. key_order (row_key row) key.now) rows.now result }
    ensures within { IsSearchInRange result (length rows.now) }
{
    rows.binary_search_by(
        |row: &StatementRow| -> Ordering
            ensures { result ≡ key_order (row_key row.now) key.entry.now }
        { key_order(row, key) },
    )
}

/// A row of no obligations.
pub(crate) fn zero_row(key: &Key) -> StatementRow
    ensures { result ≡ zero_row key.now }
{
    let zero = Amount::from_ten_thousandths(0);
    StatementRow {
        currency: key.currency,
        counterpart: key.counterpart,
        receivable: zero,
        payable: zero,
        net: zero,
    }
}

/// The row of a party with one more obligation that has its key.
pub(crate) fn row_with(row: &StatementRow, party: &Party, obligation: &Obligation) -> StatementRow
    requires { HasRoomIn party.now obligation.now row.now }
    ensures { result ≡ row_with party.now obligation.now row.now }
{
    let currency = &obligation.currency;
    let receivable = row.receivable.ten_thousandths() + obligation.received_by(party, currency);
    let payable = row.payable.ten_thousandths() + obligation.paid_by(party, currency);
    StatementRow {
        currency: row.currency,
        counterpart: row.counterpart,
        receivable: Amount::from_ten_thousandths(receivable),
        payable: Amount::from_ten_thousandths(payable),
        net: Amount::from_ten_thousandths(receivable - payable),
    }
}
