//! The house between two steps.

ghost use Rattle.std.specs.Prelude.{◌≡◌};
ghost use Rattle.period_order.specs.Kept.{IsConfiguration};

use crate::finished::{Finished, Trace};
use crate::laws::steps_keep;
use crate::locks::{free_accounts, free_books};
use crate::parts::Parts;
use crate::running_call::waiting_calls;
use crate::step::Step;
use cdr_checks::Command;
use ocpi_types::{Config, TryCopy};
use period_order::Order;
use plain_house::Event;
use std::alloc::{AllocError, Global};
use std::marker::Model;

// States what each configuration is.
fn is_configuration(config: &Config)
    ensures { IsConfiguration config.now }
{
    config.has_distinct_parts();
    config.is_bounded();
}

/// Books and accounts under their locks, the order of events, and the calls.
#[derive(Drop)]
pub struct World {
    parts: Parts,
}

impl Model for World {
    ghost use Rattle.house_core.specs.Inner.Ready.{AreSound, shown};
    ghost use Rattle.house_core.specs.World.{PlainWorld};

    ghost Value = { PlainWorld };

    ghost view = { λ world. shown world.parts };

    ghost invariant = { λ world. AreSound world.parts };
}

impl World {
    ghost use Rattle.std.specs.Prelude.{◌≡◌, ◌++◌, true, length, IfOk, OnErr, OnOk};
    ghost use Rattle.std.specs.Option.{option_to_list};
    ghost use Rattle.std.specs.List.{All};
    ghost use Rattle.cdr_checks.specs.Admission.{IsAdmitted};
    ghost use Rattle.house_core.specs.Inner.Steps.{EventsGo, event_added};
    ghost use Rattle.house_core.specs.Events.{events_of};
    ghost use Rattle.house_core.specs.Start.{start};
    ghost use Rattle.house_core.specs.Steps.{finishes, gives_place, step as step_of};

    /// A house in which nothing has happened, and a call for each command, none of which has begun.
    ///
    /// `AllocError` where memory is refused.
    pub fn new(alloc: Global, config: &Config, commands: Vec<Command>) -> Result<World, AllocError>
        requires admitted { All (IsAdmitted config.now) commands.items }
        ensures { IfOk result (λ world. world ≡ start config.now commands.items) }
    {
        steps_keep();
        is_configuration(config);
        let calls = waiting_calls(alloc, config, commands)?;
        let books = free_books(alloc, config)?;
        let accounts = free_accounts(alloc, config)?;
        let config = config.copy(alloc)?;
        Ok(World {
            parts: Parts {
                config,
                books,
                accounts,
                order: Order::new(alloc),
                calls,
            },
        })
    }

    /// A call takes a step, if it can; a step that cannot be taken leaves the world as it is.
    ///
    /// `AllocError` where memory is refused; the world is as before. Only a step that gives a command its place in the order takes
    /// memory.
    pub fn step(&mut self, step: Step) -> Result<(), AllocError>
        ensures ok { OnOk result (self.new ≡ step_of self.old step) }
        ensures err { OnErr result (self.new ≡ self.old) }
        ensures memory { OnErr result (gives_place self.old step ≡ true) }
    {
        self.take(step)?;
        Ok(())
    }

    /// The same; with the call that ends by it.
    fn take(&mut self, step: Step) -> Result<Option<Finished>, AllocError>
        ensures ok { OnOk result (self.new ≡ step_of self.old step) }
        ensures finished { IfOk result (λ finished. finished ≡ finishes self.old step) }
        ensures events { OnOk result (EventsGo self.old self.new step.call) }
        ensures err { OnErr result (self.new ≡ self.old) }
        ensures memory { OnErr result (gives_place self.old step ≡ true) }
    {
        steps_keep();
        self.parts.take(step)
    }

    /// The same; the call that ends by it and the event that it adds are put behind those of the trace.
    pub(crate) fn record(
        &mut self,
        alloc: Global,
        step: Step,
        trace: &mut Trace,
    ) -> Result<(), AllocError>
        ensures world { OnOk result (self.new ≡ step_of self.old step) }
        ensures finished { OnOk result (trace.new.finished.items ≡ trace.old.finished.items ++ option_to_list (finishes self.old step)) }
        ensures events { OnOk result (trace.old.events.items ≡ events_of self.old → trace.new.events.items ≡ events_of self.new) }
    {
        let point = self.point();
        let finished = self.take(step)?;
        trace.add_finished(finished)?;
        if self.point() > point {
            let event = self.event_added(alloc, step.call)?;
            trace.add_event(event)?;
        }
        Ok(())
    }

    /// The number of events so far.
    fn point(&self) -> u64
        ensures { result ≡ length self.now.order }
    {
        self.parts.order.point()
    }

    /// The event that the call of that number has added, and not put yet.
    fn event_added(&self, alloc: Global, call: usize) -> Result<Option<Event>, AllocError>
        ensures { IfOk result (λ event. event ≡ event_added self.now call) }
    {
        match self.parts.calls.get(call) {
            Some(call) => call.event_added(alloc),
            None => Ok(None),
        }
    }
}
