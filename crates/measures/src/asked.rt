//! What is to be measured.

#[derive(Clone, Copy, PartialEq, Eq)]
pub enum Subject {
    Tariffs,
    Rating,
    Lines,
    ReRating,
}

impl Subject {
    fn of(word: &str) -> Option<Subject> {
        match word {
            "tariffs" => Some(Subject::Tariffs),
            "rating" => Some(Subject::Rating),
            "lines" => Some(Subject::Lines),
            "re_rating" => Some(Subject::ReRating),
            _ => None,
        }
    }
}

/// What is to be measured: of a subject or a part that the words leave out, every one.
#[derive(Clone, Copy)]
pub struct Asked<'a> {
    subject: Option<Subject>,
    part: Option<&'a str>,
    rounds: Option<u64>,
    file: Option<&'a str>,
}

impl<'a> Asked<'a> {
    /// Every part of every subject, with a few rounds.
    pub fn everything() -> Asked<'a> {
        Asked {
            subject: None,
            part: None,
            rounds: None,
            file: None,
        }
    }

    fn parts_of(subject: &str) -> Option<Asked<'a>> {
        Some(Asked {
            subject: Some(Subject::of(subject)?),
            ..Asked::everything()
        })
    }

    fn part_of(subject: &str, part: &'a str) -> Option<Asked<'a>> {
        Some(Asked {
            part: Some(part),
            ..Asked::parts_of(subject)?
        })
    }

    // The last word is a file of the subject that reads one, and else a number.
    fn with_last(self, word: &'a str) -> Option<Asked<'a>> {
        if self.names(Subject::Lines) {
            return Some(Asked {
                file: Some(word),
                ..self
            });
        }
        Some(Asked {
            rounds: Some(word.parse::<u64>().ok()?),
            ..self
        })
    }

    /// What the words ask for, if they are of that form.
    pub fn of(words: &'a [String]) -> Option<Asked<'a>> {
        match words {
            [] => Some(Asked::everything()),
            [subject] => Asked::parts_of(subject.as_str()),
            [subject, part] => Asked::part_of(subject.as_str(), part.as_str()),
            [subject, part, last] => {
                Asked::part_of(subject.as_str(), part.as_str())?.with_last(last.as_str())
            }
            _ => None,
        }
    }

    pub fn names(&self, subject: Subject) -> bool {
        self.subject.is_none_or(|asked| asked == subject)
    }

    pub fn names_part(&self, part: &str) -> bool {
        match self.part {
            Some(asked) => asked == part,
            None => true,
        }
    }

    pub fn rounds_or(&self, few: u64) -> u64 {
        self.rounds.unwrap_or(few)
    }

    /// The path of a file, of a subject that reads one.
    pub fn file(&self) -> Option<&'a str> {
        self.file
    }
}

/// The configuration's path and the files whose calls are to be made at once, if the words ask for that.
pub fn calls_at_once(words: &[String]) -> Option<(&str, &[String])> {
    match words {
        [subject, config, files @ ..] if subject.as_str() == "at_once" => {
            Some((config.as_str(), files))
        }
        _ => None,
    }
}
