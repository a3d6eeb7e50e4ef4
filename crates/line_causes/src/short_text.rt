//! A text that a cause has, of a bounded length.

ghost use Rattle.std.specs.Prelude.{◌≡◌};
ghost use Rattle.line_causes.specs.ShortText.{short_text};

use ocpi_json::ci_text::CiText;

/// Returns a text of at most 64 printable characters as it is, and nothing in the place of another.
pub(crate) fn short_text(text: &str) -> CiText<64>
    ensures { result ≡ short_text text.now }
{
    match CiText::new(text) {
        Some(short) => short,
        None => CiText::new("").unwrap(),
    }
}
