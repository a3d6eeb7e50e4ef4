//! The call of a pass.

ghost use Rattle.cdr_checks.specs.Admission.{IsAdmitted};
ghost use Rattle.shared_house.specs.Calls.{IsCall};

use super::collecting::is_configuration;
use super::keeping::{filled, refused, room_for_call};
use super::locks::House;
use crate::gate::Gate;
use crate::laws::replies_of_calls_fit;
use crate::ledgers::{Configured, Names, Part};
use crate::pass::Pass;
use cdr_checks::Command;
use plain_house::{Refused, Replied};
use std::sync::Wait;

impl<N: Names> House<N> {
    /// Replies to a command that the house's configuration admits, and keeps the call in the pass. It may wait for locks.
    ///
    /// `NoMemory` where memory is refused: that comes before the command's place in the order, and changes nothing but that
    /// the pass keeps the call. The pass does not keep it if it has no place for it and is refused the memory for one.
    pub fn call<R: Wait, G: Gate>(
        &self,
        rt: &R,
        pass: &mut Pass<N>,
        gate: &G,
        command: Command,
    ) -> Result<Replied, Refused>
        requires { IsAdmitted N.BookEntries.config command }
        ensures { IsCall N.BookEntries.config command pass.old pass.new result }
    {
        replies_of_calls_fit();
        is_configuration(&self.config);
        let Pass {
            number,
            calls,
            events,
        } = pass;
        let Ok(kept) = room_for_call(&self.config, calls, &command) else {
            return refused(calls, command);
        };
        let reply = self.reply(rt, *number, events, gate, command);
        calls.push_reserved(filled(kept, &reply));
        reply
    }
}
