ghost use Rattle.std.specs.Prelude.{◌≡◌};
ghost use Rattle.ocpi_json.specs.Faults.{Finds};
ghost use Rattle.ocpi_types.specs.Inner.RestrictionParts.{times_at, bounds_at, restrictions_in_parts};
ghost use Rattle.ocpi_types.specs.Restrictions.{days_at, electric_bounds_at};

use super::bounded::AtMost;
use super::day_of_week::DayOfWeek;
use super::members::{self, Quantity};
use jiff::civil::{Date, Time};
use ocpi_json::fields::{self, FieldFault};
use ocpi_json::name::Name;
use ocpi_json::objects::{FromNodeIn, parsed_each};
use ocpi_json::sequence::Sequence;
use ocpi_json::text::Text;
use ocpi_json::{HasMembers, MemberFault, Node};
use std::alloc::Global;

/// A whole number of seconds.
pub type Seconds = AtMost<999_999_999_999_999_999>;

/// Which bounds on current and power are given. What they are is not kept.
#[derive(Clone, Copy, PartialEq, Eq)]
pub struct ElectricBounds {
    pub min_current: bool,
    pub max_current: bool,
    pub min_power: bool,
    pub max_power: bool,
}

/// When a tariff element applies (OCPI 2.2.1, TariffRestrictions object). A missing member restricts nothing.
#[derive(Drop)]
pub struct Restrictions {
    pub start_time: Option<Time>,
    pub end_time: Option<Time>,
    pub start_date: Option<Date>,
    pub end_date: Option<Date>,
    /// In millionths of a kWh.
    pub min_kwh: Option<Quantity>,
    /// In millionths of a kWh.
    pub max_kwh: Option<Quantity>,
    pub min_duration: Option<Seconds>,
    pub max_duration: Option<Seconds>,
    /// As listed; an empty list restricts nothing.
    pub day_of_week: Sequence<DayOfWeek>,
    pub reservation: Option<Text>,
    pub electric: ElectricBounds,
}

#[tactic(auto, unfolding(crate::specs::Restrictions::days_at))]
fn read_days<'n, M: HasMembers<'n>>(
    alloc: Global,
    node: &M,
) -> Result<Sequence<DayOfWeek>, FieldFault>
    ensures { Finds result (days_at (M.object node.now)) }
{
    let items = fields::list_or_empty(node, Name::DayOfWeek, 1_048_576)?;
    parsed_each(alloc, Name::DayOfWeek, items)
}

#[tactic(auto, unfolding(crate::specs::Restrictions::electric_bounds_at))]
fn read_electric_bounds<'n, M: HasMembers<'n>>(node: &M) -> Result<ElectricBounds, MemberFault>
    ensures { result ≡ electric_bounds_at (M.object node.now) }
{
    let min_current = fields::number_or_none(node, Name::MinCurrent)?.is_some();
    let max_current = fields::number_or_none(node, Name::MaxCurrent)?.is_some();
    let min_power = fields::number_or_none(node, Name::MinPower)?.is_some();
    let max_power = fields::number_or_none(node, Name::MaxPower)?.is_some();
    Ok(ElectricBounds {
        min_current,
        max_current,
        min_power,
        max_power,
    })
}

/// The times of day and dates of restrictions.
#[derive(Clone, Copy)]
struct Times {
    start_time: Option<Time>,
    end_time: Option<Time>,
    start_date: Option<Date>,
    end_date: Option<Date>,
}

/// The bounds of restrictions on energy and time.
#[derive(Clone, Copy)]
struct Bounds {
    min_kwh: Option<Quantity>,
    max_kwh: Option<Quantity>,
    min_duration: Option<Seconds>,
    max_duration: Option<Seconds>,
}

#[tactic(auto, unfolding(crate::specs::Inner::RestrictionParts::times_at))]
fn read_times<'n, M: HasMembers<'n>>(node: &M) -> Result<Times, MemberFault>
    ensures { result ≡ times_at (M.object node.now) }
{
    let start_time = fields::clock_or_none(node, Name::StartTime)?;
    let end_time = fields::clock_or_none(node, Name::EndTime)?;
    let start_date = fields::date_or_none(node, Name::StartDate)?;
    let end_date = fields::date_or_none(node, Name::EndDate)?;
    Ok(Times {
        start_time,
        end_time,
        start_date,
        end_date,
    })
}

#[tactic(auto, unfolding(crate::specs::Inner::RestrictionParts::bounds_at))]
fn read_bounds<'n, M: HasMembers<'n>>(node: &M) -> Result<Bounds, MemberFault>
    ensures { result ≡ bounds_at (M.object node.now) }
{
    let min_kwh = members::quantity_or_none(node, Name::MinKwh)?;
    let max_kwh = members::quantity_or_none(node, Name::MaxKwh)?;
    let min_duration = members::at_most_or_none(node, Name::MinDuration, 0)?;
    let max_duration = members::at_most_or_none(node, Name::MaxDuration, 0)?;
    Ok(Bounds {
        min_kwh,
        max_kwh,
        min_duration,
        max_duration,
    })
}

#[tactic(auto, unfolding(crate::specs::Inner::RestrictionParts::restrictions_in_parts))]
fn read_parts(alloc: Global, node: &Node) -> Result<Restrictions, FieldFault>
    ensures { Finds result (restrictions_in_parts node.now) }
{
    let node = &node.pick(&[
        Name::StartTime,
        Name::EndTime,
        Name::StartDate,
        Name::EndDate,
        Name::MinKwh,
        Name::MaxKwh,
        Name::MinCurrent,
        Name::MaxCurrent,
        Name::MinPower,
        Name::MaxPower,
        Name::MinDuration,
        Name::MaxDuration,
        Name::DayOfWeek,
        Name::Reservation,
    ]);
    let times = read_times(node)?;
    let bounds = read_bounds(node)?;
    let day_of_week = read_days(alloc, node)?;
    let reservation = fields::text_or_none(alloc, node, Name::Reservation)?;
    let electric = read_electric_bounds(node)?;
    Ok(Restrictions {
        start_time: times.start_time,
        end_time: times.end_time,
        start_date: times.start_date,
        end_date: times.end_date,
        min_kwh: bounds.min_kwh,
        max_kwh: bounds.max_kwh,
        min_duration: bounds.min_duration,
        max_duration: bounds.max_duration,
        day_of_week,
        reservation,
        electric,
    })
}

impl FromNodeIn for Restrictions {
    ghost use Rattle.ocpi_types.specs.Restrictions.{restrictions_at};

    ghost at = { restrictions_at };

    fn from_node_in(alloc: Global, node: &Node) -> Result<Restrictions, FieldFault> {
        read_parts(alloc, node)
    }
}
