//! The text of lines as comma-separated values.

ghost use Rattle.std.specs.Prelude.{◌≡◌, Some, IfOk, OnOk, map};
ghost use Rattle.std.specs.Io.KnownBytes.{Appends};
ghost use Rattle.csv.specs.Writing.{text_written};
ghost use Rattle.house_reports.specs.balances.BalanceText.{record_text, table_text};
ghost use Rattle.house_reports.specs.balances.Inner.Fields.{texts_of};
ghost use Rattle.house_reports.specs.balances.Inner.Writers.{IsBetweenRecords};

use super::fields::{COLUMNS, Fields};
use csv::{Writer, WriterBuilder};
use std::alloc::{AllocError, Global};

fn bytes_of(line: &Fields) -> [&[u8]; COLUMNS]
    ensures { map (λ field. field.now) result ≡ texts_of line.now }
{
    let [
        period,
        currency,
        operator,
        provider,
        owed,
        settled,
        outstanding,
    ] = line.texts();
    [
        period.as_bytes(),
        currency.as_bytes(),
        operator.as_bytes(),
        provider.as_bytes(),
        owed.as_bytes(),
        settled.as_bytes(),
        outstanding.as_bytes(),
    ]
}

#[tactic(auto, unfolding(crate::specs::balances::BalanceText::record_text))]
fn write_line(table: &mut Writer<Vec<u8>>, line: &Fields) -> Result<(), AllocError>
    requires { IsBetweenRecords table.old }
    ensures between { OnOk result (IsBetweenRecords table.new) }
    ensures text { OnOk result (Appends (text_written (λ bytes. Some bytes.items) table.old)
        (text_written (λ bytes. Some bytes.items) table.new) (record_text (texts_of line.now))) }
{
    match table.write_fields(&bytes_of(line)) {
        Ok(()) => Ok(()),
        Err(_) => Err(AllocError),
    }
}

/// Returns the CSV text of the lines, a record for each.
pub fn csv_of(alloc: Global, lines: &[Fields]) -> Result<Vec<u8>, AllocError>
    ensures { IfOk result (λ text. text.items ≡ table_text (map texts_of lines.now)) }
{
    let mut table = WriterBuilder::new().from_writer(Vec::new(alloc));
    for line in lines {
        write_line(&mut table, line)?;
    }
    match table.into_inner() {
        Ok(text) => Ok(text),
        Err(_) => Err(AllocError),
    }
}
