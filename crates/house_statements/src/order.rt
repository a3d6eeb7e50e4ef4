//! The text of the order of events.

ghost use Rattle.std.specs.Prelude.{◌≡◌, Some, IfOk, OnOk};
ghost use Rattle.std.specs.Io.KnownBytes.{Appends};
ghost use Rattle.csv.specs.Writing.{text_written};
ghost use Rattle.house_statements.specs.Order.{event_fields, event_name, order_header, order_text};
ghost use Rattle.house_statements.specs.Table.{record_text};
ghost use Rattle.house_statements.specs.Inner.Writers.{IsBetweenRecords};

use super::record::write_record;
use csv::{Writer, WriterBuilder};
use itoa::Buffer;
use plain_house::{Event, period_after};
use std::alloc::{AllocError, Global};

/// Returns the name of an event, as the order has it.
#[tactic(auto, unfolding(crate::specs::Order::event_name))]
pub fn event_name(event: &Event) -> &'static str
    ensures { result.now ≡ event_name event.now }
{
    match event {
        Event::Tariff(_) => "Tariff",
        Event::Token(_) => "Token",
        Event::Authorised(_) => "Authorised",
        Event::Released(_) => "Released",
        Event::Cdr { .. } => "Cdr",
        Event::Credit { .. } => "Credit",
        Event::Settled(_) => "Settled",
        Event::Closed { .. } => "Closed",
    }
}

fn write_header(table: &mut Writer<Vec<u8>>) -> Result<(), AllocError>
    requires { IsBetweenRecords table.old }
    ensures between { OnOk result (IsBetweenRecords table.new) }
    ensures text { OnOk result (Appends (text_written (λ bytes. Some bytes.items) table.old)
        (text_written (λ bytes. Some bytes.items) table.new) (record_text order_header)) }
{
    let fields: [&[u8]; 3] = [b"point", b"event", b"period"];
    write_record(table, &fields)
}

fn write_event(
    table: &mut Writer<Vec<u8>>,
    point: usize,
    event: &Event,
    period: u64,
) -> Result<(), AllocError>
    requires { IsBetweenRecords table.old }
    ensures between { OnOk result (IsBetweenRecords table.new) }
    ensures text { OnOk result (Appends (text_written (λ bytes. Some bytes.items) table.old)
        (text_written (λ bytes. Some bytes.items) table.new)
        (record_text (event_fields point (record { event = event.now; period = period })))) }
{
    let mut point_digits = Buffer::new();
    let mut period_digits = Buffer::new();
    let fields = [
        point_digits.format(point).as_bytes(),
        event_name(event).as_bytes(),
        period_digits.format(period).as_bytes(),
    ];
    write_record(table, &fields)
}

/// The CSV text of the order of events: a header and a line for each event, which tells its place from 0, its name and
/// its period.
pub fn write_order(alloc: Global, events: &[Event]) -> Result<Vec<u8>, AllocError>
    ensures { IfOk result (λ text. text.items ≡ order_text events.now) }
{
    let mut table = WriterBuilder::new().from_writer(Vec::new(alloc));
    write_header(&mut table)?;
    let mut point = 0;
    let mut period = 0;
    let mut rest = events;
    while let Some((event, later)) = rest.split_first() {
        write_event(&mut table, point, event, period)?;
        point += 1;
        period = period_after(period, event);
        rest = later;
    }
    match table.into_inner() {
        Ok(text) => Ok(text),
        Err(_) => Err(AllocError),
    }
}
