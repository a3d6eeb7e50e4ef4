//! The values in the columns `found` and `against`.

ghost use Rattle.std.specs.Prelude.{◌≡◌};
ghost use Rattle.line_causes.specs.Value.{kind_text};

use crate::decimals::{write_energy, write_millionths};
use crate::moment::write_moment;
use exact_money::{Amount, Millionths};
use jiff::Timestamp;
use ocpi_json::Expected;
use ocpi_json::ci_text::CiText;
use ocpi_types::{Currency, Party, TokenKind};
use std::fmt;

/// A value of a line, or a value that it is compared with.
#[derive(Clone, Copy)]
pub enum Value {
    /// The column has no value.
    Nothing,
    /// The line has nothing in the place of the member.
    Absent,
    Id(CiText<39>),
    Reference(CiText<36>),
    Party(Party),
    Currency(Currency),
    Kind(TokenKind),
    Moment(Timestamp),
    Number(u64),
    Amount(Amount),
    /// A volume, an energy or a cost that a line declares.
    Decimal(Millionths),
    /// A sum of energy in millionths of a kWh.
    Energy(u128),
    /// A value of the line, as text.
    Written(CiText<64>),
    /// What a member has to be.
    Expected(Expected),
    /// The commands of a stream.
    StreamCommand,
}

fn kind_word(kind: TokenKind) -> &'static str
    ensures { result.now ≡ kind_text kind }
{
    match kind {
        TokenKind::AdHocUser => "AD_HOC_USER",
        TokenKind::AppUser => "APP_USER",
        TokenKind::Other => "OTHER",
        TokenKind::Rfid => "RFID",
    }
}

/// Writes amounts with four decimals, volumes, energies and declared costs with six, and moments in UTC with a `Z`.
impl fmt::Display for Value {
    ghost use Rattle.std.specs.Prelude.{Some};
    ghost use Rattle.line_causes.specs.Value.{value_text};

    ghost output = { λ value. Some (value_text value) };

    #[tactic(auto, unfolding(crate::specs::Value::value_text))]
    fn fmt<W: fmt::Write>(&self, f: &mut fmt::Formatter<W>) -> fmt::Result {
        match self {
            Value::Nothing => Ok(()),
            Value::Absent => f.write_str("nothing"),
            Value::Id(id) => f.write_str(id.as_str()),
            Value::Reference(reference) => f.write_str(reference.as_str()),
            Value::Party(party) => write!(f, "{party}"),
            Value::Currency(currency) => f.write_str(currency.as_str()),
            Value::Kind(kind) => f.write_str(kind_word(*kind)),
            Value::Moment(moment) => write_moment(f, *moment),
            Value::Number(number) => write!(f, "{number}"),
            Value::Amount(amount) => write!(f, "{amount}"),
            Value::Decimal(value) => write_millionths(f, *value),
            Value::Energy(millionths) => write_energy(f, *millionths),
            Value::Written(text) => f.write_str(text.as_str()),
            Value::Expected(expected) => write!(f, "{expected}"),
            Value::StreamCommand => write!(f, "{} {}", Expected::Command, Expected::Change),
        }
    }
}
