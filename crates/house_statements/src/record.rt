//! Records of comma-separated values.

ghost use Rattle.std.specs.Prelude.{Some, OnOk, map};
ghost use Rattle.std.specs.Io.KnownBytes.{Appends};
ghost use Rattle.csv.specs.Writing.{text_written};
ghost use Rattle.house_statements.specs.Table.{record_text};
ghost use Rattle.house_statements.specs.Inner.Writers.{IsBetweenRecords};

use csv::Writer;
use std::alloc::AllocError;

#[tactic(auto, unfolding(crate::specs::Table::record_text))]
pub fn write_record(table: &mut Writer<Vec<u8>>, fields: &[&[u8]]) -> Result<(), AllocError>
    requires { IsBetweenRecords table.old }
    ensures between { OnOk result (IsBetweenRecords table.new) }
    ensures text { OnOk result (Appends (text_written (λ bytes. Some bytes.items) table.old)
        (text_written (λ bytes. Some bytes.items) table.new)
        (record_text (map (λ field. field.now) fields.now))) }
{
    match table.write_fields(fields) {
        Ok(()) => Ok(()),
        Err(_) => Err(AllocError),
    }
}
