//! Why a line is refused.

use house_causes::RequestCause;
use ocpi_json::MemberFault;
use ocpi_json::ci_text::CiText;

/// Why a line is refused.
#[derive(Clone, Copy)]
pub enum LineCause {
    /// The bytes stop being UTF-8 at this column, in characters from 1.
    NotUtf8 {
        column: usize,
    },
    /// The text stops being JSON at this column, in characters from 1.
    NotJson {
        column: usize,
    },
    /// A member is missing, of a wrong kind or out of bounds.
    Member {
        fault: MemberFault,
        /// What stands there, as `text_of_found` writes it; none if nothing does.
        found: Option<CiText<64>>,
        /// Whether the line is one of a stream, which takes the command `configure` too.
        of_stream: bool,
    },
    /// A request, or a change of the configuration, is not admitted, or the house refuses the command.
    Request(RequestCause),
    /// With the configuration that the line asks for, the event of this number, from 0, and of this kind would come out otherwise.
    ComesOutOtherwise {
        event: usize,
        kind: CiText<64>,
    },
    /// The request id was given to another line.
    IdOfAnotherLine {
        id: CiText<64>,
    },
    /// No cause is known beside the refusal.
    Unknown,
}
