//! The text that explains a cost.

ghost use Rattle.std.specs.Prelude.{◌≡◌, Some, IfOk, OnOk, map};
ghost use Rattle.std.specs.Io.KnownBytes.{Appends};
ghost use Rattle.csv.specs.Writing.{text_written};
ghost use Rattle.input_reports.specs.explain_cost.CostText.{change_fields, component_name, explanation, reason_name, record_text, row_fields, source_text, table_text, total_fields, volume_text};
ghost use Rattle.input_reports.specs.explain_cost.Inner.Writers.{IsBetweenRecords};

use super::change::{Change, Reason};
use super::numbers::{millionths_text, number_text, write_cost};
use super::record::{write_header, write_only_cost, write_record};
use super::row::{Row, Source, Volume};
use csv::{Writer, WriterBuilder};
use exact_money::Amount;
use ocpi_types::ComponentKind;
use std::alloc::{AllocError, Global};

fn component_name(kind: ComponentKind) -> &'static str
    ensures { result.now ≡ component_name kind }
{
    match kind {
        ComponentKind::Energy => "ENERGY",
        ComponentKind::Flat => "FLAT",
        ComponentKind::ParkingTime => "PARKING_TIME",
        ComponentKind::Time => "TIME",
    }
}

fn source_text(alloc: Global, source: Source) -> Result<Vec<u8>, AllocError>
    ensures { IfOk result (λ text. text.items ≡ source_text source) }
{
    match source {
        Source::Period { number } => number_text(alloc, number as u128),
        Source::Step => Vec::from_slice(alloc, b"step"),
        Source::Once => Ok(Vec::new(alloc)),
    }
}

fn volume_text(alloc: Global, kind: ComponentKind, volume: Volume) -> Result<Vec<u8>, AllocError>
    ensures { IfOk result (λ text. text.items ≡ volume_text kind volume) }
{
    let volume = u128::from(volume.get());
    match kind {
        ComponentKind::Energy => millionths_text(alloc, volume),
        ComponentKind::Flat | ComponentKind::ParkingTime | ComponentKind::Time => {
            number_text(alloc, volume)
        }
    }
}

#[tactic(auto, unfolding(crate::specs::explain_cost::CostText::row_fields))]
fn write_row(alloc: Global, table: &mut Writer<Vec<u8>>, row: &Row) -> Result<(), AllocError>
    requires { IsBetweenRecords table.old }
    ensures between { OnOk result (IsBetweenRecords table.new) }
    ensures text { OnOk result (Appends (text_written (λ bytes. Some bytes.items) table.old)
        (text_written (λ bytes. Some bytes.items) table.new) (record_text (row_fields row.now))) }
{
    let source = source_text(alloc, row.source)?;
    let volume = volume_text(alloc, row.kind, row.volume)?;
    let price = millionths_text(alloc, u128::from(row.price.get()))?;
    let mut cost = Vec::new(alloc);
    write_cost(&mut cost, row.cost.units())?;
    let fields = [
        component_name(row.kind).as_bytes(),
        source.as_slice(),
        volume.as_slice(),
        price.as_slice(),
        cost.as_slice(),
    ];
    write_record(table, &fields)
}

fn write_rows(alloc: Global, table: &mut Writer<Vec<u8>>, rows: &[Row]) -> Result<(), AllocError>
    requires { IsBetweenRecords table.old }
    ensures between { OnOk result (IsBetweenRecords table.new) }
    ensures text { OnOk result (Appends (text_written (λ bytes. Some bytes.items) table.old)
        (text_written (λ bytes. Some bytes.items) table.new) (table_text (map row_fields rows.now))) }
{
    for row in rows {
        write_row(alloc, table, row)?;
    }
    Ok(())
}

fn reason_name(reason: Reason) -> &'static str
    ensures { result.now ≡ reason_name reason }
{
    match reason {
        Reason::Minimum => "MINIMUM",
        Reason::Maximum => "MAXIMUM",
        Reason::Rounding => "ROUNDING",
    }
}

#[tactic(auto, unfolding(crate::specs::explain_cost::CostText::change_fields))]
fn write_change(
    alloc: Global,
    table: &mut Writer<Vec<u8>>,
    change: &Change,
) -> Result<(), AllocError>
    requires { IsBetweenRecords table.old }
    ensures between { OnOk result (IsBetweenRecords table.new) }
    ensures text { OnOk result (Appends (text_written (λ bytes. Some bytes.items) table.old)
        (text_written (λ bytes. Some bytes.items) table.new) (record_text (change_fields change.now))) }
{
    let mut cost = Vec::new(alloc);
    if change.is_less {
        cost.push(b'-')?;
    }
    write_cost(&mut cost, change.units)?;
    write_only_cost(
        table,
        reason_name(change.reason).as_bytes(),
        cost.as_slice(),
    )
}

fn write_changes(
    alloc: Global,
    table: &mut Writer<Vec<u8>>,
    changes: &[Change],
) -> Result<(), AllocError>
    requires { IsBetweenRecords table.old }
    ensures between { OnOk result (IsBetweenRecords table.new) }
    ensures text { OnOk result (Appends (text_written (λ bytes. Some bytes.items) table.old)
        (text_written (λ bytes. Some bytes.items) table.new) (table_text (map change_fields changes.now))) }
{
    for change in changes {
        write_change(alloc, table, change)?;
    }
    Ok(())
}

#[tactic(auto, unfolding(crate::specs::explain_cost::CostText::total_fields))]
fn write_total(alloc: Global, table: &mut Writer<Vec<u8>>, amount: Amount) -> Result<(), AllocError>
    requires { IsBetweenRecords table.old }
    ensures between { OnOk result (IsBetweenRecords table.new) }
    ensures text { OnOk result (Appends (text_written (λ bytes. Some bytes.items) table.old)
        (text_written (λ bytes. Some bytes.items) table.new) (record_text (total_fields amount))) }
{
    let total = amount.to_string(alloc)?;
    write_only_cost(table, b"TOTAL", total.as_bytes())
}

#[tactic(auto, unfolding(crate::specs::explain_cost::CostText::explanation))]
fn write_explanation(
    alloc: Global,
    table: &mut Writer<Vec<u8>>,
    rows: &[Row],
    changes: &[Change],
    amount: Amount,
) -> Result<(), AllocError>
    requires { IsBetweenRecords table.old }
    ensures between { OnOk result (IsBetweenRecords table.new) }
    ensures text { OnOk result (Appends (text_written (λ bytes. Some bytes.items) table.old)
        (text_written (λ bytes. Some bytes.items) table.new) (explanation rows.now changes.now amount)) }
{
    write_header(table)?;
    write_rows(alloc, table, rows)?;
    write_changes(alloc, table, changes)?;
    write_total(alloc, table, amount)
}

/// The text of rows, of changes and of an amount.
pub fn explanation(
    alloc: Global,
    rows: &[Row],
    changes: &[Change],
    amount: Amount,
) -> Result<Vec<u8>, AllocError>
    ensures { IfOk result (λ text. text.items ≡ explanation rows.now changes.now amount) }
{
    let mut table = WriterBuilder::new().from_writer(Vec::new(alloc));
    write_explanation(alloc, &mut table, rows, changes, amount)?;
    match table.into_inner() {
        Ok(text) => Ok(text),
        Err(_) => Err(AllocError),
    }
}
