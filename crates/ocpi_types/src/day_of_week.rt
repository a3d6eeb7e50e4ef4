use ocpi_json::Expected;
use ocpi_json::objects::FromText;

/// A day of the week (OCPI 2.2.1, DayOfWeek enum).
#[derive(Clone, Copy, PartialEq, Eq)]
pub enum DayOfWeek {
    Monday,
    Tuesday,
    Wednesday,
    Thursday,
    Friday,
    Saturday,
    Sunday,
}

impl DayOfWeek {
    ghost use Rattle.std.specs.Prelude.{◌≡◌, pos};
    ghost use Rattle.ocpi_types.specs.DayOfWeek.{days_after_monday};

    /// How many days it comes after Monday.
    pub fn days_after_monday(self) -> i8
        ensures { result ≡ pos (days_after_monday self) }
    {
        match self {
            DayOfWeek::Monday => 0,
            DayOfWeek::Tuesday => 1,
            DayOfWeek::Wednesday => 2,
            DayOfWeek::Thursday => 3,
            DayOfWeek::Friday => 4,
            DayOfWeek::Saturday => 5,
            DayOfWeek::Sunday => 6,
        }
    }
}

impl FromText for DayOfWeek {
    ghost use Rattle.ocpi_types.specs.DayOfWeek.{day_named};
    ghost use Rattle.ocpi_json.specs.declared.expected.Expected.TheVariants as expected;

    ghost of_text = { day_named };

    ghost expects = { expected.Day };

    fn from_text(text: &str) -> Option<DayOfWeek> {
        match text {
            "MONDAY" => Some(DayOfWeek::Monday),
            "TUESDAY" => Some(DayOfWeek::Tuesday),
            "WEDNESDAY" => Some(DayOfWeek::Wednesday),
            "THURSDAY" => Some(DayOfWeek::Thursday),
            "FRIDAY" => Some(DayOfWeek::Friday),
            "SATURDAY" => Some(DayOfWeek::Saturday),
            "SUNDAY" => Some(DayOfWeek::Sunday),
            _ => None,
        }
    }

    fn expected() -> Expected {
        Expected::Day
    }
}
