//! Printing the balances of a house after its last line.

ghost use Rattle.std.specs.Prelude.{◌≡◌, ◌∷◌, IfOk, OnOk, map};
ghost use Rattle.house_reports.specs.balances.BalanceText.{balance_text, header, row_fields};
ghost use Rattle.house_reports.specs.balances.Balances.{rows};
ghost use Rattle.house_reports.specs.balances.Inner.Fields.{texts_of};

use super::all_rows::rows;
use super::csv_text::csv_of;
use super::fields::{Fields, lines_of};
use super::form::Form;
use super::terminal_text::table_of;
use crate::ended_house::{EndedHouse, write_text};
use command_line::Fault;
use plain_house::legal_lists_can_be_netted;
use request_lines::Sink;
use std::alloc::{AllocError, Global};

fn balance_lines(alloc: Global, ended: &EndedHouse) -> Result<Vec<Fields>, AllocError>
    ensures { IfOk result (λ lines. map texts_of lines.items ≡ header ∷ map row_fields (rows ended.now.config ended.now.events)) }
{
    let events = ended.events();
    ended.config().is_bounded();
    legal_lists_can_be_netted();
    let rows = rows(alloc, ended.config(), events)?;
    lines_of(alloc, rows.as_slice())
}

fn text_of(alloc: Global, ended: &EndedHouse, form: Form) -> Result<Vec<u8>, AllocError>
    ensures { form ≡ Form.Csv → IfOk result (λ text. text.items ≡ balance_text (rows ended.now.config ended.now.events)) }
{
    let lines = balance_lines(alloc, ended)?;
    match form {
        Form::Csv => csv_of(alloc, lines.as_slice()),
        Form::Table => Ok(table_of(alloc, lines.as_slice())?.into_bytes()),
    }
}

/// Prints the amounts that are owed, settled and open.
pub fn print<W: Sink>(
    alloc: Global,
    writer: &mut W,
    ended: &EndedHouse,
    form: Form,
) -> Result<(), Fault<'static>>
    ensures { form ≡ Form.Csv → OnOk result (W.writing.takes writer.old (balance_text (rows ended.now.config ended.now.events)) writer.new) }
{
    let text = text_of(alloc, ended, form)?;
    write_text(writer, text.as_slice())
}
