use plain_house::{Event, Refused, Replied};
use std::alloc::{AllocError, Global};

/// How a call ended.
#[derive(Drop)]
pub enum Done {
    /// Replied to by the first `point` events.
    Answered {
        point: u64,
        reply: Result<Replied, Refused>,
    },
    Abandoned,
}

/// A call that has ended.
#[derive(Drop)]
pub struct Finished {
    /// Its number, from 0.
    pub call: usize,
    /// The number of events when it began.
    pub begin: u64,
    /// The number of events when it ended.
    pub end: u64,
    pub done: Done,
}

/// What came of a list of steps.
#[derive(Drop)]
pub struct Trace {
    /// The calls that have ended, in the order in which they did.
    pub finished: Vec<Finished>,
    /// What has happened, the first event first.
    pub events: Vec<Event>,
}

impl Trace {
    ghost use Rattle.std.specs.Prelude.{◌≡◌, ◌++◌, [], OnOk};
    ghost use Rattle.std.specs.Option.{option_to_list};
    ghost use Rattle.plain_house.specs.Replies.{with_event};

    /// Of no steps yet.
    pub(crate) fn new(alloc: Global) -> Trace
        ensures finished { result.finished.items ≡ [] }
        ensures events { result.events.items ≡ [] }
    {
        Trace {
            finished: Vec::new(alloc),
            events: Vec::new(alloc),
        }
    }

    /// Puts a call behind the others, where one has ended.
    pub(crate) fn add_finished(&mut self, call: Option<Finished>) -> Result<(), AllocError>
        ensures finished { OnOk result (self.new.finished.items ≡ self.old.finished.items ++ option_to_list call) }
        ensures events { self.new.events ≡ self.old.events }
    {
        if let Some(call) = call {
            self.finished.push(call)?;
        }
        Ok(())
    }

    /// Puts an event behind the others, where one is added.
    pub(crate) fn add_event(&mut self, event: Option<Event>) -> Result<(), AllocError>
        ensures events { OnOk result (self.new.events.items ≡ with_event self.old.events.items event) }
        ensures finished { self.new.finished ≡ self.old.finished }
    {
        if let Some(event) = event {
            self.events.push(event)?;
        }
        Ok(())
    }
}
