//! What the words of a command line ask for.

use crate::check_fault::CheckFault;
use crate::houses::Choice;
use command_line::Fault;

/// What the program is to do.
#[derive(Clone, Copy)]
pub enum Job<'a> {
    /// A bit of everything.
    Everything,

    /// Answers lines by a house.
    Answer(Choice<'a>),

    /// Does commands to which memory may be refused, under the configuration of this path.
    Growths {
        config: &'a str,
    },

    /// Tells what is certified of changed values, under the configuration of this path.
    Changes {
        config: &'a str,
    },

    /// Answers the lines of four files, of which the second's are paused at the waypoint of this name.
    Paused {
        config: &'a str,
        waypoint: &'a str,
        files: &'a [String],
    },

    /// Answers the files' lines so many times, by a house of so many events each time.
    Often {
        config: &'a str,
        times: usize,
        events: usize,
        files: &'a [String],
    },

    Copies,

    Readings,

    Json,

    /// Prints the texts of errors.
    Errors,
}

// The job that the words behind `often` ask for.
fn often<'a>(
    config: &'a String,
    times: &str,
    events: &str,
    files: &'a [String],
) -> Option<Job<'a>> {
    Some(Job::Often {
        config: config.as_str(),
        times: times.parse::<usize>().ok()?,
        events: events.parse::<usize>().ok()?,
        files,
    })
}

/// The job that the words ask for, the program's name first.
pub fn job_of(words: &[String]) -> Result<Job<'_>, CheckFault<'static>> {
    let Some((_, words)) = words.split_first() else {
        return Err(CheckFault::from(Fault::Usage));
    };
    let Some((word, others)) = words.split_first() else {
        return Ok(Job::Everything);
    };
    let job = match (word.as_str(), others) {
        ("copies", []) => Some(Job::Copies),
        ("readings", []) => Some(Job::Readings),
        ("json", []) => Some(Job::Json),
        ("errors", []) => Some(Job::Errors),
        ("growths", [config]) => Some(Job::Growths {
            config: config.as_str(),
        }),
        ("changes", [config]) => Some(Job::Changes {
            config: config.as_str(),
        }),
        ("paused", [config, waypoint, files @ ..]) => Some(Job::Paused {
            config: config.as_str(),
            waypoint: waypoint.as_str(),
            files,
        }),
        ("often", [config, times, events, files @ ..]) => often(config, times, events, files),
        (house, [config]) => Choice::of(house, config.as_str()).map(Job::Answer),
        _ => None,
    };
    job.ok_or(CheckFault::from(Fault::Usage))
}
