//! Records of comma-separated values.

ghost use Rattle.std.specs.Prelude.{◌≡◌, Some, OnOk, map};
ghost use Rattle.std.specs.Io.KnownBytes.{Appends};
ghost use Rattle.csv.specs.Writing.{text_written};
ghost use Rattle.input_reports.specs.explain_cost.CostText.{record_text, header, cost_fields};
ghost use Rattle.input_reports.specs.explain_cost.Inner.Writers.{IsBetweenRecords};

use csv::Writer;
use std::alloc::AllocError;

#[tactic(auto, unfolding(crate::specs::explain_cost::CostText::record_text))]
pub fn write_record(table: &mut Writer<Vec<u8>>, fields: &[&[u8]; 5]) -> Result<(), AllocError>
    requires { IsBetweenRecords table.old }
    ensures between { OnOk result (IsBetweenRecords table.new) }
    ensures text { OnOk result (Appends (text_written (λ bytes. Some bytes.items) table.old)
        (text_written (λ bytes. Some bytes.items) table.new)
        (record_text (map (λ field. field.now) fields.now))) }
{
    match table.write_fields(fields) {
        Ok(()) => Ok(()),
        Err(_) => Err(AllocError),
    }
}

/// The heads of the columns.
#[tactic(auto, unfolding(crate::specs::explain_cost::CostText::header))]
pub fn write_header(table: &mut Writer<Vec<u8>>) -> Result<(), AllocError>
    requires { IsBetweenRecords table.old }
    ensures between { OnOk result (IsBetweenRecords table.new) }
    ensures text { OnOk result (Appends (text_written (λ bytes. Some bytes.items) table.old)
        (text_written (λ bytes. Some bytes.items) table.new) (record_text header)) }
{
    let fields: [&[u8]; 5] = [b"component", b"period", b"volume", b"price", b"cost"];
    write_record(table, &fields)
}

/// A record of nothing but a name and a cost.
pub fn write_only_cost(
    table: &mut Writer<Vec<u8>>,
    name: &[u8],
    cost: &[u8],
) -> Result<(), AllocError>
    requires { IsBetweenRecords table.old }
    ensures between { OnOk result (IsBetweenRecords table.new) }
    ensures text { OnOk result (Appends (text_written (λ bytes. Some bytes.items) table.old)
        (text_written (λ bytes. Some bytes.items) table.new) (record_text (cost_fields name.now cost.now))) }
{
    let fields: [&[u8]; 5] = [name, b"", b"", b"", cost];
    write_record(table, &fields)
}
