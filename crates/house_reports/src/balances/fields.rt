//! The texts of a row, column by column, and the heads of the columns.

ghost use Rattle.std.specs.Prelude.{◌≡◌, ◌∷◌, IfOk, map};
ghost use Rattle.house_reports.specs.balances.BalanceText.{amount_fields, amount_heads, header, key_fields, key_heads, row_fields};
ghost use Rattle.house_reports.specs.balances.Inner.Fields.{texts_of, texts_of_amounts, texts_of_key};

use super::row::{Row, RowKey};
use std::alloc::{AllocError, Global};

/// The number of columns.
pub const COLUMNS: usize = 7;

/// The number of the first column of amounts, from 0.
pub const FIRST_AMOUNT: usize = 4;

#[derive(Drop)]
struct KeyTexts {
    period: String,
    currency: String,
    operator: String,
    provider: String,
}

#[derive(Drop)]
struct AmountTexts {
    owed: String,
    settled: String,
    outstanding: String,
}

/// The texts of a line.
#[derive(Drop)]
pub struct Fields {
    key: KeyTexts,
    amounts: AmountTexts,
}

impl Fields {
    /// The texts, the first column's first.
    pub fn texts(&self) -> [&str; COLUMNS]
        ensures { map (λ text. text.now) result ≡ texts_of self.now }
    {
        [
            self.key.period.as_str(),
            self.key.currency.as_str(),
            self.key.operator.as_str(),
            self.key.provider.as_str(),
            self.amounts.owed.as_str(),
            self.amounts.settled.as_str(),
            self.amounts.outstanding.as_str(),
        ]
    }
}

fn heads_of_key(alloc: Global) -> Result<KeyTexts, AllocError>
    ensures { IfOk result (λ heads. texts_of_key heads ≡ key_heads) }
{
    Ok(KeyTexts {
        period: String::from_str(alloc, "period")?,
        currency: String::from_str(alloc, "currency")?,
        operator: String::from_str(alloc, "operator")?,
        provider: String::from_str(alloc, "provider")?,
    })
}

fn heads_of_amounts(alloc: Global) -> Result<AmountTexts, AllocError>
    ensures { IfOk result (λ heads. texts_of_amounts heads ≡ amount_heads) }
{
    Ok(AmountTexts {
        owed: String::from_str(alloc, "owed")?,
        settled: String::from_str(alloc, "settled")?,
        outstanding: String::from_str(alloc, "open")?,
    })
}

#[tactic(auto, unfolding(crate::specs::balances::BalanceText::header))]
fn heads(alloc: Global) -> Result<Fields, AllocError>
    ensures { IfOk result (λ heads. texts_of heads ≡ header) }
{
    Ok(Fields {
        key: heads_of_key(alloc)?,
        amounts: heads_of_amounts(alloc)?,
    })
}

fn key_of(alloc: Global, key: &RowKey) -> Result<KeyTexts, AllocError>
    ensures { IfOk result (λ texts. texts_of_key texts ≡ key_fields key.now) }
{
    Ok(KeyTexts {
        period: key.period.to_string(alloc)?,
        currency: String::from_str(alloc, key.currency.as_str())?,
        operator: key.operator.to_string(alloc)?,
        provider: key.provider.to_string(alloc)?,
    })
}

fn amounts_of(alloc: Global, row: &Row) -> Result<AmountTexts, AllocError>
    ensures { IfOk result (λ texts. texts_of_amounts texts ≡ amount_fields row.now) }
{
    Ok(AmountTexts {
        owed: row.owed.to_string(alloc)?,
        settled: row.settled.to_string(alloc)?,
        outstanding: row.outstanding.to_string(alloc)?,
    })
}

#[tactic(auto, unfolding(crate::specs::balances::BalanceText::row_fields))]
fn fields_of(alloc: Global, row: &Row) -> Result<Fields, AllocError>
    ensures { IfOk result (λ fields. texts_of fields ≡ row_fields row.now) }
{
    Ok(Fields {
        key: key_of(alloc, &row.key)?,
        amounts: amounts_of(alloc, row)?,
    })
}

/// Returns a line of heads, and a line for each row.
pub fn lines_of(alloc: Global, rows: &[Row]) -> Result<Vec<Fields>, AllocError>
    ensures { IfOk result (λ lines. map texts_of lines.items ≡ header ∷ map row_fields rows.now) }
{
    let mut lines = Vec::new(alloc);
    lines.push(heads(alloc)?)?;
    for row in rows {
        lines.push(fields_of(alloc, row)?)?;
    }
    Ok(lines)
}
