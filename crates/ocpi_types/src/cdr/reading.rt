//! Reading a CDR, its members in groups.

ghost use Rattle.std.specs.Prelude.{◌≡◌, ◌||◌, find, is_some, not, option_and_then, option_copied, pos, position, int_le, nat_le, length};
ghost use Rattle.std.specs.List.{list_all};
ghost use Rattle.ocpi_json.specs.Faults.{Finds};
ghost use Rattle.ocpi_types.specs.Cdr.{cost_at, credit_at, fault_of_volume, periods_at, reference_at, session_token_at, tariffs_at};
ghost use Rattle.ocpi_types.specs.ChargingPeriod.{has_volumes_in_range};
ghost use Rattle.ocpi_types.specs.Dimension.{is_in_range};
ghost use Rattle.ocpi_types.specs.Inner.CdrParts.{authorised_at, cdr_in_parts, cdr_of, opening_at, parts_at, totals_at};

use super::Cdr;
use crate::cdr_token::{AuthMethod, CdrToken};
use crate::charging_period::ChargingPeriod;
use crate::currency::Currency;
use crate::dimension::Dimension;
use crate::known_tariffs::KnownTariffs;
use crate::members;
use crate::party::Party;
use crate::tariffs::Tariffs;
use crate::up_to::{UpTo, read_up_to};
use exact_money::Millionths;
use jiff::Timestamp;
use ocpi_json::ci_text::CiText;
use ocpi_json::fields::{self, FieldFault};
use ocpi_json::name::Name;
use ocpi_json::objects::{FromNode, FromNodeIn, within};
use ocpi_json::{Expected, HasMembers, MemberFault, Node, Step};
use std::alloc::Global;

#[tactic(auto, unfolding(crate::specs::Cdr::session_token_at))]
fn read_session_token<'n, M: HasMembers<'n>>(node: &M) -> Result<CdrToken, MemberFault>
    ensures { result ≡ session_token_at (M.object node.now) }
{
    let object = fields::object(node, Name::CdrToken)?;
    within(Step::Member(Name::CdrToken), CdrToken::from_node(&object))
}

#[tactic(auto, unfolding(crate::specs::Cdr::tariffs_at))]
fn read_tariffs<'n, M: HasMembers<'n>>(
    alloc: Global,
    known: &mut KnownTariffs,
    node: &M,
) -> Result<Tariffs, FieldFault>
    ensures { Finds result (tariffs_at (M.object node.now)) }
{
    known.read_each(alloc, fields::list_or_empty(node, Name::Tariffs, 10)?)
}

#[tactic(auto, unfolding(crate::specs::Cdr::periods_at))]
fn read_periods<'n, M: HasMembers<'n>>(
    alloc: Global,
    node: &M,
) -> Result<UpTo<ChargingPeriod, 1000>, FieldFault>
    ensures { Finds result (periods_at (M.object node.now)) }
{
    let items = fields::list(node, Name::ChargingPeriods, 1, 1000)?;
    read_up_to(alloc, Name::ChargingPeriods, items)
}

#[tactic(auto, unfolding(crate::specs::Cdr::cost_at))]
fn read_cost<'n, M: HasMembers<'n>>(node: &M) -> Result<Millionths, MemberFault>
    ensures { result ≡ cost_at (M.object node.now) }
{
    let object = fields::object(node, Name::TotalCost)?;
    within(
        Step::Member(Name::TotalCost),
        fields::number(&object, Name::ExclVat),
    )
}

#[tactic(auto, unfolding(crate::specs::Cdr::reference_at))]
fn read_reference<'n, M: HasMembers<'n>>(
    is_credit: bool,
    node: &M,
) -> Result<Option<CiText<39>>, MemberFault>
    ensures { result ≡ reference_at is_credit (M.object node.now) }
{
    if is_credit {
        let id = fields::ci_text(node, Name::CreditReferenceId)?;
        Ok(Some(id))
    } else {
        Ok(None)
    }
}

#[tactic(auto, unfolding(crate::specs::Cdr::credit_at))]
fn read_credit<'n, M: HasMembers<'n>>(node: &M) -> Result<Option<CiText<39>>, MemberFault>
    ensures { result ≡ credit_at (M.object node.now) }
{
    let is_credit = fields::flag_or_none(node, Name::Credit)?.unwrap_or(false);
    read_reference(is_credit, node)
}

/// Whose the CDR is, and when its session was.
#[derive(Clone, Copy)]
struct Opening {
    operator: Party,
    id: CiText<39>,
    start_date_time: Timestamp,
    end_date_time: Timestamp,
}

/// Who charged, by which authorisation.
#[derive(Clone, Copy)]
struct Authorised {
    cdr_token: CdrToken,
    auth_method: AuthMethod,
    authorization_reference: Option<CiText<36>>,
    currency: Currency,
}

/// The totals, and what stands behind them.
#[derive(Clone, Copy)]
struct Totals {
    total_cost: Millionths,
    total_energy: Millionths,
    total_time: Millionths,
    credit: Option<CiText<39>>,
    last_updated: Timestamp,
}

#[tactic(auto, unfolding(crate::specs::Inner::CdrParts::opening_at))]
fn read_opening<'n, M: HasMembers<'n>>(node: &M) -> Result<Opening, MemberFault>
    ensures { result ≡ opening_at (M.object node.now) }
{
    let operator = Party::from_members(node)?;
    let id = fields::ci_text(node, Name::Id)?;
    let start_date_time = fields::instant(node, Name::StartDateTime)?;
    let end_date_time = fields::instant(node, Name::EndDateTime)?;
    Ok(Opening {
        operator,
        id,
        start_date_time,
        end_date_time,
    })
}

#[tactic(auto, unfolding(crate::specs::Inner::CdrParts::authorised_at))]
fn read_authorised<'n, M: HasMembers<'n>>(node: &M) -> Result<Authorised, MemberFault>
    ensures { result ≡ authorised_at (M.object node.now) }
{
    let cdr_token = read_session_token(node)?;
    let auth_method = fields::parsed(node, Name::AuthMethod)?;
    let authorization_reference = fields::ci_text_or_none(node, Name::AuthorizationReference)?;
    let currency = members::currency(node, Name::Currency)?;
    Ok(Authorised {
        cdr_token,
        auth_method,
        authorization_reference,
        currency,
    })
}

#[tactic(auto, unfolding(crate::specs::Inner::CdrParts::totals_at))]
fn read_totals<'n, M: HasMembers<'n>>(node: &M) -> Result<Totals, MemberFault>
    ensures { result ≡ totals_at (M.object node.now) }
{
    let total_cost = read_cost(node)?;
    let total_energy = fields::number(node, Name::TotalEnergy)?;
    let total_time = fields::number(node, Name::TotalTime)?;
    let credit = read_credit(node)?;
    let last_updated = fields::instant(node, Name::LastUpdated)?;
    Ok(Totals {
        total_cost,
        total_energy,
        total_time,
        credit,
        last_updated,
    })
}

/// All members, before what is tested between them.
#[derive(Drop)]
struct CdrMembers {
    opening: Opening,
    authorised: Authorised,
    tariffs: Tariffs,
    charging_periods: UpTo<ChargingPeriod, 1000>,
    totals: Totals,
}

#[tactic(auto, unfolding(crate::specs::Inner::CdrParts::parts_at))]
fn read_parts<'n, M: HasMembers<'n>>(
    alloc: Global,
    known: &mut KnownTariffs,
    node: &M,
) -> Result<CdrMembers, FieldFault>
    ensures { Finds result (parts_at (M.object node.now)) }
{
    let opening = read_opening(node)?;
    let authorised = read_authorised(node)?;
    let tariffs = read_tariffs(alloc, known, node)?;
    let charging_periods = read_periods(alloc, node)?;
    let totals = read_totals(node)?;
    Ok(CdrMembers {
        opening,
        authorised,
        tariffs,
        charging_periods,
        totals,
    })
}

fn have_volumes_in_range(periods: &[ChargingPeriod]) -> bool
    ensures { result ≡ list_all has_volumes_in_range periods.now }
{
    periods.iter().all(|period| period.has_volumes_in_range())
}

fn period_below_0(periods: &[ChargingPeriod]) -> Option<usize>
    ensures { result ≡ position (λ period. not (has_volumes_in_range period)) periods.now }
{
    periods
        .iter()
        .position(|period| !period.has_volumes_in_range())
}

fn dimension_below_0(dimensions: &[Dimension]) -> Option<usize>
    ensures { result ≡ position (λ dimension. not (is_in_range dimension)) dimensions.now }
{
    dimensions
        .iter()
        .position(|dimension| !dimension.is_in_range())
}

fn first_period_below_0(periods: &[ChargingPeriod]) -> Option<&ChargingPeriod>
    ensures { option_copied result ≡ find (λ period. not (has_volumes_in_range period)) periods.now }
{
    periods.iter().find(|period| !period.has_volumes_in_range())
}

fn first_dimension_below_0(periods: &[ChargingPeriod]) -> Option<usize>
    ensures { result ≡ option_and_then (λ period. position (λ dimension. not (is_in_range dimension)) period.dimensions)
        (find (λ period. not (has_volumes_in_range period)) periods.now) }
{
    match first_period_below_0(periods) {
        Some(period) => dimension_below_0(period.dimensions.as_slice()),
        None => None,
    }
}

#[tactic(auto, unfolding(crate::specs::Cdr::fault_of_volume))]
fn fault_of_volume(periods: &[ChargingPeriod]) -> MemberFault
    ensures { result ≡ fault_of_volume periods.now }
{
    let period = Step::new(Name::ChargingPeriods, period_below_0(periods));
    let dimension = Step::new(Name::Dimensions, first_dimension_below_0(periods));
    let volume = MemberFault::at(Step::Member(Name::Volume), Expected::CdrNumber);
    volume.seen_from(dimension).seen_from(period)
}

impl CdrMembers {
    fn is_credit(&self) -> bool
        ensures { result ≡ is_some self.now.totals.credit }
    {
        self.totals.credit.is_some()
    }

    fn has_id_in_range(&self) -> bool
        ensures { result ≡ (is_some self.now.totals.credit || nat_le (length self.now.opening.id) 36) }
    {
        self.is_credit() || self.opening.id.as_str().len() <= 36
    }

    fn has_volumes_in_range(&self) -> bool
        ensures { result ≡ (is_some self.now.totals.credit || list_all has_volumes_in_range self.now.charging_periods) }
    {
        self.is_credit() || have_volumes_in_range(self.charging_periods.as_slice())
    }

    fn has_energy_in_range(&self) -> bool
        ensures { result ≡ (is_some self.now.totals.credit || int_le (pos 0) self.now.totals.total_energy) }
    {
        self.is_credit() || self.totals.total_energy.get() >= 0
    }

    fn into_cdr(self) -> Result<Cdr, MemberFault>
        ensures { result ≡ cdr_of self }
    {
        if !self.has_id_in_range() {
            let expected = Expected::CdrId;
            return Err(MemberFault::at(Step::Member(Name::Id), expected));
        }
        if !self.has_volumes_in_range() {
            return Err(fault_of_volume(self.charging_periods.as_slice()));
        }
        if !self.has_energy_in_range() {
            let energy = Step::Member(Name::TotalEnergy);
            return Err(MemberFault::at(energy, Expected::CdrNumber));
        }
        Ok(Cdr {
            operator: self.opening.operator,
            id: self.opening.id,
            start_date_time: self.opening.start_date_time,
            end_date_time: self.opening.end_date_time,
            cdr_token: self.authorised.cdr_token,
            auth_method: self.authorised.auth_method,
            authorization_reference: self.authorised.authorization_reference,
            currency: self.authorised.currency,
            tariffs: self.tariffs,
            charging_periods: self.charging_periods,
            total_cost: self.totals.total_cost,
            total_energy: self.totals.total_energy,
            total_time: self.totals.total_time,
            credit: self.totals.credit,
            last_updated: self.totals.last_updated,
        })
    }
}

#[tactic(auto, unfolding(crate::specs::Inner::CdrParts::cdr_in_parts))]
fn read_in_parts(alloc: Global, known: &mut KnownTariffs, node: &Node) -> Result<Cdr, FieldFault>
    ensures { Finds result (cdr_in_parts node.now) }
{
    let node = &node.pick(&[
        Name::CountryCode,
        Name::PartyId,
        Name::Id,
        Name::StartDateTime,
        Name::EndDateTime,
        Name::CdrToken,
        Name::AuthMethod,
        Name::AuthorizationReference,
        Name::Currency,
        Name::Tariffs,
        Name::ChargingPeriods,
        Name::TotalCost,
        Name::TotalEnergy,
        Name::TotalTime,
        Name::Credit,
        Name::CreditReferenceId,
        Name::LastUpdated,
    ]);
    let cdr = read_parts(alloc, known, node)?.into_cdr()?;
    Ok(cdr)
}

impl FromNodeIn for Cdr {
    ghost use Rattle.ocpi_types.specs.Cdr.{cdr_at};

    ghost at = { cdr_at };

    fn from_node_in(alloc: Global, node: &Node) -> Result<Cdr, FieldFault> {
        read_in_parts(alloc, &mut KnownTariffs::none(alloc), node)
    }
}

impl Cdr {
    ghost use Rattle.ocpi_types.specs.Cdr.{cdr_at};

    /// Reads a CDR as `from_node_in` does, but not those of its tariffs again that were read before.
    ///
    /// # Errors
    ///
    /// Those of `from_node_in`.
    pub fn read_knowing(
        alloc: Global,
        known: &mut KnownTariffs,
        node: &Node,
    ) -> Result<Cdr, FieldFault>
        ensures { Finds result (cdr_at node.now) }
    {
        read_in_parts(alloc, known, node)
    }
}
