//! The id by which a platform asks again.

ghost use Rattle.std.specs.Prelude.{◌≡◌};

use arrayvec::ArrayString;
use ocpi_json::Expected;
use ocpi_json::ci_text::CiText;
use ocpi_json::objects::FromText;
use std::marker::Model;

/// How many bytes a request id may have.
const MOST_ID_BYTES: usize = 64;

/// A request id: a text of 1 to 64 bytes, compared byte by byte.
#[derive(Drop)]
pub struct RequestId {
    text: ArrayString<MOST_ID_BYTES>,
}

impl Model for RequestId {
    ghost use Rattle.std.specs.Prelude.{ℕ, List};

    ghost Value = { List ℕ };

    ghost view = { λ id. id.text.bytes };
}

impl RequestId {
    ghost use Rattle.std.specs.Prelude.{◌≡◌};

    /// Returns the text.
    pub fn as_str(&self) -> &str
        ensures { result.now ≡ self.now }
    {
        self.text.as_str()
    }
}

impl FromText for RequestId {
    ghost use Rattle.ocpi_json.specs.declared.expected.Expected.TheVariants as expected;
    ghost use Rattle.line_streams.specs.Asked.{request_id_of};

    ghost of_text = { request_id_of };

    ghost expects = { expected.RequestId };

    fn from_text(text: &str) -> Option<RequestId> {
        if text.is_empty() {
            return None;
        }
        match ArrayString::from(text) {
            Ok(text) => Some(RequestId { text }),
            Err(_) => None,
        }
    }

    fn expected() -> Expected {
        Expected::RequestId
    }
}

/// A request id of a platform. Two are the same if the platform's names are, with letters folded, and the ids, byte by byte.
#[derive(Clone, Copy, PartialEq, Eq, Hash)]
pub struct IdKey {
    pub platform: CiText<36>,
    pub id: ArrayString<MOST_ID_BYTES>,
}

impl IdKey {
    ghost use Rattle.std.specs.Prelude.{◌≡◌};

    /// Returns the request id of a platform.
    pub fn new(platform: CiText<36>, id: RequestId) -> IdKey
        ensures platform { result.platform ≡ platform }
        ensures id { result.id.bytes ≡ id }
    {
        IdKey {
            platform,
            id: id.text,
        }
    }
}
