//! The text of a statement.

ghost use Rattle.std.specs.Prelude.{◌≡◌, Some, IfOk, OnOk};
ghost use Rattle.std.specs.Io.KnownBytes.{Appends};
ghost use Rattle.csv.specs.Writing.{text_written};
ghost use Rattle.house_statements.specs.Statement.{row_fields, statement_header, statement_text};
ghost use Rattle.house_statements.specs.Table.{record_text};
ghost use Rattle.house_statements.specs.Inner.Writers.{IsBetweenRecords};

use super::record::write_record;
use csv::{Writer, WriterBuilder};
use netting_positions::StatementRow;
use std::alloc::{AllocError, Global};

fn write_header(table: &mut Writer<Vec<u8>>) -> Result<(), AllocError>
    requires { IsBetweenRecords table.old }
    ensures between { OnOk result (IsBetweenRecords table.new) }
    ensures text { OnOk result (Appends (text_written (λ bytes. Some bytes.items) table.old)
        (text_written (λ bytes. Some bytes.items) table.new) (record_text statement_header)) }
{
    let fields: [&[u8]; 5] = [
        b"currency",
        b"counterpart",
        b"receivable",
        b"payable",
        b"net",
    ];
    write_record(table, &fields)
}

#[tactic(auto, using(crate::proofs::CapitalLemmas::text_in_capitals), unfolding(crate::specs::Statement::row_fields))]
fn write_row(
    alloc: Global,
    table: &mut Writer<Vec<u8>>,
    row: &StatementRow,
) -> Result<(), AllocError>
    requires { IsBetweenRecords table.old }
    ensures between { OnOk result (IsBetweenRecords table.new) }
    ensures text { OnOk result (Appends (text_written (λ bytes. Some bytes.items) table.old)
        (text_written (λ bytes. Some bytes.items) table.new) (record_text (row_fields row.now))) }
{
    let mut counterpart = row.counterpart.to_string(alloc)?;
    counterpart.make_ascii_uppercase();
    let receivable = row.receivable.to_string(alloc)?;
    let payable = row.payable.to_string(alloc)?;
    let net = row.net.to_string(alloc)?;
    let fields = [
        row.currency.as_str().as_bytes(),
        counterpart.as_bytes(),
        receivable.as_bytes(),
        payable.as_bytes(),
        net.as_bytes(),
    ];
    write_record(table, &fields)
}

/// The CSV text of a statement: a header and a line for each row, which tells the currency, the counterpart in capital
/// letters, what is to be received, what is to be paid and the net amount, with four decimals each.
pub fn write_statement(alloc: Global, rows: &[StatementRow]) -> Result<Vec<u8>, AllocError>
    ensures { IfOk result (λ text. text.items ≡ statement_text rows.now) }
{
    let mut table = WriterBuilder::new().from_writer(Vec::new(alloc));
    write_header(&mut table)?;
    for row in rows {
        write_row(alloc, &mut table, row)?;
    }
    match table.into_inner() {
        Ok(text) => Ok(text),
        Err(_) => Err(AllocError),
    }
}
