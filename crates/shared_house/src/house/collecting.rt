//! A close and a statement read all books behind their place in the order, one after another, without taking memory.

ghost use Rattle.std.specs.Prelude.{◌≡◌, ◌+◌, ◌<◌, ◌^◌, ◌++◌, []};
ghost use Rattle.netting_positions.specs.Netting.{parties, total_size};
ghost use Rattle.operator_book.specs.Due.{due};
ghost use Rattle.operator_book.specs.Together.{owed_by_all};
ghost use Rattle.plain_house.specs.LegalEntries.{IsLegalBook};
ghost use Rattle.period_order.specs.Kept.{IsConfiguration};
ghost use Rattle.shared_house.specs.Inner.Collecting.{IsCollected, IsNetted, IsStated};

use super::locks::House;
use crate::gate::{Gate, Waypoint};
use crate::laws::collecting_laws;
use crate::ledgers::{Configured, Names, Part};
use crate::locked::LockedBook;
use crate::waiting::take_lock;
use cdr_checks::StatementOf;
use netting_positions::{NetPosition, ObligationTable, Positions, StatementRow, StatementTable};
use ocpi_json::sequence::Sequence;
use ocpi_types::{Config, Party};
use std::sync::Wait;

/// States what is so of every configuration.
pub fn is_configuration(config: &Config)
    ensures { IsConfiguration config.now }
{
    config.has_distinct_parts();
    config.is_bounded();
}

// Adds what the operator is owed of the period by a book that is held.
fn collect_from<N: Names, T: ObligationTable>(
    config: &Config,
    held: &LockedBook<N>,
    operator: &Party,
    period: u64,
    table: &mut T,
)
    requires config { config.now ≡ N.BookEntries.config }
    requires parties { (T.scope table.old).parties ≡ parties config.now }
    requires currencies { (T.scope table.old).currencies ≡ config.now.currencies }
    requires fits { total_size (T.obligations table.old) + 10 ^ 17 < 2 ^ 63 }
    ensures legal { IsLegalBook config.now held.now.entries }
    ensures scope { T.scope table.new ≡ T.scope table.old }
    ensures obligations { T.obligations table.new ≡ T.obligations table.old ++ owed_by_all operator.now (due operator.now period held.now.entries) config.now.currencies config.now.providers }
{
    collecting_laws();
    is_configuration(config);
    held.book.period_sums(config, operator, period, table);
}

impl<N: Names> House<N> {
    // Adds what each operator is owed of the period. Each book is taken once, and given back when it is read.
    fn collect<R: Wait, G: Gate, T: ObligationTable>(
        &self,
        rt: &R,
        pass: usize,
        gate: &G,
        period: u64,
        table: &mut T,
    )
        requires empty { T.obligations table.old ≡ [] }
        requires parties { (T.scope table.old).parties ≡ parties N.BookEntries.config }
        requires currencies { (T.scope table.old).currencies ≡ N.BookEntries.config.currencies }
        ensures scope { T.scope table.new ≡ T.scope table.old }
        ensures collected { IsCollected N.BookEntries.config period (T.obligations table.new) }
    {
        collecting_laws();
        is_configuration(&self.config);
        let operators = self.config.operators.as_slice();
        for number in 0..self.locks.books.len() {
            gate.at(pass, Waypoint::Collecting(number));
            let held = take_lock(rt, &self.locks.books[number]);
            collect_from(&self.config, &held, &operators[number].party, period, table);
        }
    }

    /// The net positions of what all operators are owed of the period.
    pub(super) fn net<R: Wait, G: Gate>(
        &self,
        rt: &R,
        pass: usize,
        gate: &G,
        period: u64,
        mut positions: Positions,
    ) -> Sequence<NetPosition>
        requires { positions ≡ record { parties = parties N.BookEntries.config; currencies = N.BookEntries.config.currencies; obligations = [] } }
        ensures { IsNetted N.BookEntries.config period result }
    {
        collecting_laws();
        self.collect(rt, pass, gate, period, &mut positions);
        positions.into_list()
    }

    /// The rows of the statement of what all operators are owed of its period.
    pub(super) fn state<R: Wait, G: Gate>(
        &self,
        rt: &R,
        pass: usize,
        gate: &G,
        ask: &StatementOf,
        mut table: StatementTable,
    ) -> Sequence<StatementRow>
        requires { table ≡ record { party = ask.now.party; parties = parties N.BookEntries.config; currencies = N.BookEntries.config.currencies; obligations = [] } }
        ensures { IsStated N.BookEntries.config ask.now result }
    {
        collecting_laws();
        self.collect(rt, pass, gate, ask.period, &mut table);
        table.into_rows()
    }
}
