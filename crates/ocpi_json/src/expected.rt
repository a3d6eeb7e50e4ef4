//! What a member has to be.

ghost use Rattle.std.specs.Prelude.{◌≡◌};
ghost use Rattle.std.specs.Fmt.{WritesOnOk};
ghost use Rattle.ocpi_json.specs.ExpectedText.{bounds_text, kind_words};

use std::fmt;

/// What a member has to be, with its bounds.
#[derive(Clone, Copy, Debug, PartialEq, Eq)]
pub enum Expected {
    /// A text of 1 to `most` printable ASCII characters.
    Ascii { most: usize },
    Text,
    /// `true` or `false`.
    Flag,
    /// A number, in millionths.
    Number,
    /// A number of at least 0, in millionths.
    NotBelow0,
    /// A number of 1 to 18 digits, with no sign, point or exponent, from `least` to `most`.
    Whole { least: u8, most: u64 },
    Moment,
    Date,
    Clock,
    /// An array of `least` to `most` items.
    List { least: u8, most: usize },
    Object,
    Party,
    Currency,
    Zone,
    /// The type of a token (OCPI 2.2.1, TokenType enum).
    TokenKind,
    /// How a session was authorised (OCPI 2.2.1, AuthMethod enum).
    AuthMethod,
    /// What a price component charges for (OCPI 2.2.1, TariffDimensionType enum).
    ComponentKind,
    /// A day of the week (OCPI 2.2.1, DayOfWeek enum).
    Day,
    /// The id of a CDR that is no Credit CDR.
    CdrId,
    /// A number of a CDR that is no Credit CDR: at least 0.
    CdrNumber,
    /// The command of a request line.
    Command,
    /// The command of a line by which a hub changes the configuration.
    Change,
    /// The id by which a platform asks again.
    RequestId,
    /// A currency that the configuration lists.
    ListedCurrency,
    /// The party of an operator that the configuration lists.
    ListedOperator,
    /// The party of a provider that the configuration lists.
    ListedProvider,
    /// The party of an operator or a provider that the configuration lists.
    ListedParty,
    /// A list in which no two items are alike.
    Different,
    /// Platforms, one of which is a hub.
    Hub,
}

// What it is without its bounds, with an example if the form is not plain.
#[tactic(auto, unfolding(crate::specs::ExpectedText::kind_words))]
fn kind_words(expected: Expected) -> &'static str
    ensures { result.now ≡ kind_words expected }
{
    match expected {
        Expected::Ascii { .. } | Expected::Text => "a string",
        Expected::Whole { .. } => "a whole number",
        Expected::List { .. } => "a list",
        Expected::Flag => "true or false",
        Expected::Number => "a decimal without exponent of 1 to 9 digits and up to 30 decimals",
        Expected::NotBelow0 =>
            "a decimal without exponent of 1 to 9 digits and up to 30 decimals and at least 0",
        Expected::Moment => "a string with a moment in UTC as 2024-07-01T10:00:00Z",
        Expected::Date => "a string with a date as 2024-07-01",
        Expected::Clock => "a string with a time from 00:00 to 23:59",
        Expected::Object => "an object",
        Expected::Party => "a string of two letters and / and three letters or digits as NL/CPA",
        Expected::Currency => "a string of three letters A to Z as EUR",
        Expected::Zone =>
            "a string with an offset as +01:00 or a POSIX time zone rule as CET-1CEST,M3.5.0,M10.5.0/3 for Europe/Amsterdam",
        Expected::TokenKind => "one of AD_HOC_USER APP_USER OTHER RFID",
        Expected::AuthMethod => "one of AUTH_REQUEST COMMAND WHITELIST",
        Expected::ComponentKind => "one of ENERGY FLAT PARKING_TIME TIME",
        Expected::Day => "one of MONDAY TUESDAY WEDNESDAY THURSDAY FRIDAY SATURDAY SUNDAY",
        Expected::CdrId => "at most 36 characters without credit true",
        Expected::CdrNumber => "at least 0 without credit true",
        Expected::Command =>
            "one of put_tariff put_token authorize release post close settle exposure find statement",
        Expected::Change => "configure",
        Expected::RequestId => "a string of 1 to 64 bytes",
        Expected::ListedCurrency => "one of the configured currencies as EUR",
        Expected::ListedOperator => "the party of a configured operator as NL/CPA",
        Expected::ListedProvider => "the party of a configured provider as NL/MSA",
        Expected::ListedParty => "the party of a configured operator or provider as NL/CPA",
        Expected::Different => "no two alike",
        Expected::Hub => "platforms of which one is a hub",
    }
}

// Writes the bounds of what has some.
#[tactic(auto, unfolding(crate::specs::ExpectedText::bounds_text))]
fn write_bounds<W: fmt::Write>(f: &mut fmt::Formatter<W>, expected: Expected) -> fmt::Result
    ensures { WritesOnOk W.write_str_gives f.old result (bounds_text expected) f.new }
{
    match expected {
        Expected::Ascii { most } => write!(f, " of 1 to {most} printable ASCII characters"),
        Expected::Whole { least, most } => write!(f, " from {least} to {most} in digits alone"),
        Expected::List { least, most } => write!(f, " of {least} to {most} items"),
        _ => Ok(()),
    }
}

/// Writes what it is in words, with an example where the form is not plain: `a list of 1 to 64 items`.
impl fmt::Display for Expected {
    ghost use Rattle.std.specs.Prelude.{Some};
    ghost use Rattle.ocpi_json.specs.ExpectedText.{expected_text};

    ghost output = { λ expected. Some (expected_text expected) };

    fn fmt<W: fmt::Write>(&self, f: &mut fmt::Formatter<W>) -> fmt::Result {
        f.write_str(kind_words(*self))?;
        write_bounds(f, *self)
    }
}
