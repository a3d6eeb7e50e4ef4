//! The names of members, of the formats of OCPI and of the files and lines of a clearing house.

ghost use Rattle.std.specs.Prelude.{◌≡◌};

use std::fmt;

/// The name of a member of an object.
#[derive(Clone, Copy, PartialEq, Eq)]
pub enum Name {
    CountryCode,
    PartyId,
    Uid,
    Type,
    ContractId,
    Valid,
    Whitelist,
    LastUpdated,
    Id,
    Currency,
    MinPrice,
    MaxPrice,
    ExclVat,
    Elements,
    PriceComponents,
    Price,
    StepSize,
    Restrictions,
    StartTime,
    EndTime,
    StartDate,
    EndDate,
    MinKwh,
    MaxKwh,
    MinDuration,
    MaxDuration,
    DayOfWeek,
    Reservation,
    MinCurrent,
    MaxCurrent,
    MinPower,
    MaxPower,
    StartDateTime,
    EndDateTime,
    CdrToken,
    AuthMethod,
    AuthorizationReference,
    Tariffs,
    ChargingPeriods,
    Dimensions,
    Volume,
    TariffId,
    TotalCost,
    TotalEnergy,
    TotalTime,
    Credit,
    CreditReferenceId,
    Version,
    Tolerance,
    Currencies,
    Operators,
    Party,
    Zone,
    Providers,
    Limits,
    Limit,
    Hold,
    Platforms,
    Name,
    Parties,
    Hub,
    Cdrs,
    Entries,
    Order,
    Periods,
    PairLimits,
    Operator,
    Provider,
    CreditWindow,
    Platform,
    Do,
    Token,
    Tariff,
    Cdr,
    Reference,
    Period,
    Configuration,
    RequestId,
}

impl Name {
    ghost use Rattle.ocpi_json.specs.Name.{key_text};

    /// The key of the member: its name as a document writes it.
    pub fn key(self) -> &'static str
        ensures { result.now ≡ key_text self }
    {
        match self {
            Name::CountryCode => "country_code",
            Name::PartyId => "party_id",
            Name::Uid => "uid",
            Name::Type => "type",
            Name::ContractId => "contract_id",
            Name::Valid => "valid",
            Name::Whitelist => "whitelist",
            Name::LastUpdated => "last_updated",
            Name::Id => "id",
            Name::Currency => "currency",
            Name::MinPrice => "min_price",
            Name::MaxPrice => "max_price",
            Name::ExclVat => "excl_vat",
            Name::Elements => "elements",
            Name::PriceComponents => "price_components",
            Name::Price => "price",
            Name::StepSize => "step_size",
            Name::Restrictions => "restrictions",
            Name::StartTime => "start_time",
            Name::EndTime => "end_time",
            Name::StartDate => "start_date",
            Name::EndDate => "end_date",
            Name::MinKwh => "min_kwh",
            Name::MaxKwh => "max_kwh",
            Name::MinDuration => "min_duration",
            Name::MaxDuration => "max_duration",
            Name::DayOfWeek => "day_of_week",
            Name::Reservation => "reservation",
            Name::MinCurrent => "min_current",
            Name::MaxCurrent => "max_current",
            Name::MinPower => "min_power",
            Name::MaxPower => "max_power",
            Name::StartDateTime => "start_date_time",
            Name::EndDateTime => "end_date_time",
            Name::CdrToken => "cdr_token",
            Name::AuthMethod => "auth_method",
            Name::AuthorizationReference => "authorization_reference",
            Name::Tariffs => "tariffs",
            Name::ChargingPeriods => "charging_periods",
            Name::Dimensions => "dimensions",
            Name::Volume => "volume",
            Name::TariffId => "tariff_id",
            Name::TotalCost => "total_cost",
            Name::TotalEnergy => "total_energy",
            Name::TotalTime => "total_time",
            Name::Credit => "credit",
            Name::CreditReferenceId => "credit_reference_id",
            Name::Version => "version",
            Name::Tolerance => "tolerance",
            Name::Currencies => "currencies",
            Name::Operators => "operators",
            Name::Party => "party",
            Name::Zone => "zone",
            Name::Providers => "providers",
            Name::Limits => "limits",
            Name::Limit => "limit",
            Name::Hold => "hold",
            Name::Platforms => "platforms",
            Name::Name => "name",
            Name::Parties => "parties",
            Name::Hub => "hub",
            Name::Cdrs => "cdrs",
            Name::Entries => "entries",
            Name::Order => "order",
            Name::Periods => "periods",
            Name::PairLimits => "pair_limits",
            Name::Operator => "operator",
            Name::Provider => "provider",
            Name::CreditWindow => "credit_window",
            Name::Platform => "platform",
            Name::Do => "do",
            Name::Token => "token",
            Name::Tariff => "tariff",
            Name::Cdr => "cdr",
            Name::Reference => "reference",
            Name::Period => "period",
            Name::Configuration => "configuration",
            Name::RequestId => "request_id",
        }
    }
}

/// Writes the key.
impl fmt::Display for Name {
    ghost use Rattle.std.specs.Prelude.{Some};
    ghost use Rattle.ocpi_json.specs.Name.{key_text};

    ghost output = { λ name. Some (key_text name) };

    fn fmt<W: fmt::Write>(&self, f: &mut fmt::Formatter<W>) -> fmt::Result {
        f.write_str(self.key())
    }
}

/// Writes the key too: derived, it would repeat the table of the keys.
impl fmt::Debug for Name {
    fn fmt<W: fmt::Write>(&self, f: &mut fmt::Formatter<W>) -> fmt::Result {
        f.write_str(self.key())
    }
}
