//! The ten calls by the names of their commands.

ghost use Rattle.cdr_checks.specs.Admission.{IsAdmitted};
ghost use Rattle.cdr_checks.specs.declared.request.Command.TheVariants as command;
ghost use Rattle.shared_house.specs.Calls.{IsCall};

use super::locks::House;
use crate::gate::Gate;
use crate::ledgers::{Configured, Names, Part};
use crate::pass::Pass;
use cdr_checks::{
    Authorize, Checked, Close, Command, ExposureOf, Find, Release, Settlement, StatementOf,
};
use ocpi_types::{Shared, Tariff, Token};
use plain_house::{Refused, Replied};
use std::sync::Wait;

impl<N: Names> House<N> {
    /// Stores a tariff version of an operator, as `call` with that command.
    pub fn put_tariff<R: Wait, G: Gate>(
        &self,
        rt: &R,
        pass: &mut Pass<N>,
        gate: &G,
        tariff: Shared<Tariff>,
    ) -> Result<Replied, Refused>
        requires { IsAdmitted N.BookEntries.config (command.PutTariff tariff) }
        ensures { IsCall N.BookEntries.config (command.PutTariff tariff) pass.old pass.new result }
    {
        self.call(rt, pass, gate, Command::PutTariff(tariff))
    }

    /// Stores a token of a provider, as `call` with that command.
    pub fn put_token<R: Wait, G: Gate>(
        &self,
        rt: &R,
        pass: &mut Pass<N>,
        gate: &G,
        token: Token,
    ) -> Result<Replied, Refused>
        requires { IsAdmitted N.BookEntries.config (command.PutToken token) }
        ensures { IsCall N.BookEntries.config (command.PutToken token) pass.old pass.new result }
    {
        self.call(rt, pass, gate, Command::PutToken(token))
    }

    /// Asks a provider for leave to charge, which holds credit, as `call` with that command.
    pub fn authorize<R: Wait, G: Gate>(
        &self,
        rt: &R,
        pass: &mut Pass<N>,
        gate: &G,
        ask: Authorize,
    ) -> Result<Replied, Refused>
        requires { IsAdmitted N.BookEntries.config (command.Authorize ask) }
        ensures { IsCall N.BookEntries.config (command.Authorize ask) pass.old pass.new result }
    {
        self.call(rt, pass, gate, Command::Authorize(ask))
    }

    /// Gives a hold back, as `call` with that command.
    pub fn release<R: Wait, G: Gate>(
        &self,
        rt: &R,
        pass: &mut Pass<N>,
        gate: &G,
        release: Release,
    ) -> Result<Replied, Refused>
        requires { IsAdmitted N.BookEntries.config (command.Release release) }
        ensures { IsCall N.BookEntries.config (command.Release release) pass.old pass.new result }
    {
        self.call(rt, pass, gate, Command::Release(release))
    }

    /// Books a CDR or a Credit CDR, as `call` with that command.
    pub fn post<R: Wait, G: Gate>(
        &self,
        rt: &R,
        pass: &mut Pass<N>,
        gate: &G,
        checked: Checked,
    ) -> Result<Replied, Refused>
        requires { IsAdmitted N.BookEntries.config (command.Post checked) }
        ensures { IsCall N.BookEntries.config (command.Post checked) pass.old pass.new result }
    {
        self.call(rt, pass, gate, Command::Post(checked))
    }

    /// Closes the current period, and tells the net positions in it, as `call` with that command.
    pub fn close<R: Wait, G: Gate>(
        &self,
        rt: &R,
        pass: &mut Pass<N>,
        gate: &G,
        close: Close,
    ) -> Result<Replied, Refused>
        requires { IsAdmitted N.BookEntries.config (command.Close close) }
        ensures { IsCall N.BookEntries.config (command.Close close) pass.old pass.new result }
    {
        self.call(rt, pass, gate, Command::Close(close))
    }

    /// Ends what a provider owes of a closed period in a currency, as `call` with that command.
    pub fn settle<R: Wait, G: Gate>(
        &self,
        rt: &R,
        pass: &mut Pass<N>,
        gate: &G,
        settlement: Settlement,
    ) -> Result<Replied, Refused>
        requires { IsAdmitted N.BookEntries.config (command.Settle settlement) }
        ensures { IsCall N.BookEntries.config (command.Settle settlement) pass.old pass.new result }
    {
        self.call(rt, pass, gate, Command::Settle(settlement))
    }

    /// Tells what a provider holds and owes in a currency, as `call` with that command.
    pub fn exposure<R: Wait, G: Gate>(
        &self,
        rt: &R,
        pass: &mut Pass<N>,
        gate: &G,
        ask: ExposureOf,
    ) -> Result<Replied, Refused>
        requires { IsAdmitted N.BookEntries.config (command.Exposure ask) }
        ensures { IsCall N.BookEntries.config (command.Exposure ask) pass.old pass.new result }
    {
        self.call(rt, pass, gate, Command::Exposure(ask))
    }

    /// Tells where a CDR stands, as `call` with that command.
    pub fn find<R: Wait, G: Gate>(
        &self,
        rt: &R,
        pass: &mut Pass<N>,
        gate: &G,
        find: Find,
    ) -> Result<Replied, Refused>
        requires { IsAdmitted N.BookEntries.config (command.Find find) }
        ensures { IsCall N.BookEntries.config (command.Find find) pass.old pass.new result }
    {
        self.call(rt, pass, gate, Command::Find(find))
    }

    /// Tells what a party and its counterparts owe each other of a closed period, as `call` with that command.
    pub fn statement<R: Wait, G: Gate>(
        &self,
        rt: &R,
        pass: &mut Pass<N>,
        gate: &G,
        ask: StatementOf,
    ) -> Result<Replied, Refused>
        requires { IsAdmitted N.BookEntries.config (command.Statement ask) }
        ensures { IsCall N.BookEntries.config (command.Statement ask) pass.old pass.new result }
    {
        self.call(rt, pass, gate, Command::Statement(ask))
    }
}
