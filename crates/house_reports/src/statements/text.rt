//! The text of the statements of a period.

ghost use Rattle.std.specs.Prelude.{◌≡◌, ◌++◌, IfOk, OnOk, flat_map, string_bytes};
ghost use Rattle.house_reports.specs.statements.StatementsText.{head_text, section_text};
ghost use Rattle.house_reports.specs.statements.Inner.Stated.{CanBeStated};

use house_statements::write_statement;
use netting_positions::{Obligation, rows_of};
use ocpi_types::{Config, Party};
use std::alloc::{AllocError, Global};

// Returns the line before a statement.
#[tactic(auto, unfolding(crate::specs::statements::StatementsText::head_text))]
fn head(alloc: Global, period: u64, party: &Party) -> Result<String, AllocError>
    ensures { IfOk result (λ head. string_bytes head ≡ head_text period party.now) }
{
    format!(in alloc; "statement {period} {party}\n")
}

// Returns a party's statement of these obligations.
fn statement(
    alloc: Global,
    config: &Config,
    owed: &[Obligation],
    period: u64,
    party: &Party,
) -> Result<Vec<u8>, AllocError>
    requires { CanBeStated config.now owed.now }
    ensures { IfOk result (λ text. text.items ≡ section_text owed.now period party.now) }
{
    let mut text = head(alloc, period, party)?.into_bytes();
    let rows = rows_of(alloc, config, owed, party)?;
    let table = write_statement(alloc, rows.as_slice())?;
    text.extend_from_slice(table.as_slice())?;
    Ok(text)
}

/// Returns the statements of these parties in a period, of which these are the obligations.
pub fn statements(
    alloc: Global,
    config: &Config,
    owed: &[Obligation],
    period: u64,
    parties: &[Party],
) -> Result<Vec<u8>, AllocError>
    requires { CanBeStated config.now owed.now }
    ensures { IfOk result (λ text. text.items ≡ flat_map (section_text owed.now period) parties.now) }
{
    let mut text = Vec::new(alloc);
    for party in parties {
        let section = statement(alloc, config, owed, period, party)?;
        text.extend_from_slice(section.as_slice())?;
    }
    Ok(text)
}
