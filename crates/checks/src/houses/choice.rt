//! A choice of a house.

/// A kind of house.
#[derive(Clone, Copy)]
pub enum Kind {
    /// Of one list of events.
    Plain,

    /// Of books and accounts.
    Books,

    /// Of books and accounts under locks, which threads share.
    Shared,
}

/// The house that answers lines.
#[derive(Clone, Copy)]
pub struct Choice<'a> {
    pub kind: Kind,

    /// Whether a line at which memory was refused is done once more.
    pub is_again: bool,

    /// The path of the configuration.
    pub config: &'a str,
}

impl<'a> Choice<'a> {
    /// The house that the word names, if it names one. A path that begins with a hyphen is none.
    pub fn of(word: &str, config: &'a str) -> Option<Choice<'a>> {
        let (name, is_again) = match word.strip_suffix("-again") {
            Some(name) => (name, true),
            None => (word, false),
        };
        let kind = match name {
            "plain" => Kind::Plain,
            "books" => Kind::Books,
            "shared" => Kind::Shared,
            _ => return None,
        };
        if config.starts_with("-") {
            return None;
        }
        Some(Choice {
            kind,
            is_again,
            config,
        })
    }
}
