//! What a close or a statement collects from all books, one book after another.

ghost use Rattle.std.specs.Prelude.{◌≡◌, ◌+◌, ◌<◌, ◌^◌, ◌++◌, length, replicate, slice_set, true, false, IfOk};
ghost use Rattle.std.specs.List.{list_all};
ghost use Rattle.netting_positions.specs.Netting.{is_configured, total_size};
ghost use Rattle.operator_book.specs.Due.{due};
ghost use Rattle.house_core.specs.Collections.{is_complete, is_open, sums};

use netting_positions::ObligationTable;
use ocpi_types::Config;
use ocpi_types::config::Operator;
use operator_book::Book;
use std::alloc::{AllocError, Global};
use std::marker::Model;

fn none_collected(alloc: Global, config: &Config) -> Result<Vec<bool>, AllocError>
    ensures { IfOk result (λ collected. collected.items ≡ replicate (length config.now.operators) false) }
{
    vec![in alloc; false; config.operators.as_slice().len()]
}

fn is_open(collected: &[bool], operator: usize) -> bool
    ensures { result ≡ is_open collected.now operator }
{
    match collected.get(operator) {
        Some(is_collected) => !*is_collected,
        None => false,
    }
}

fn is_complete(collected: &[bool]) -> bool
    ensures { result ≡ is_complete collected.now }
{
    collected.iter().all(|is_collected| *is_collected)
}

/// A table, and which operators' books are in it.
#[derive(Drop)]
pub struct Collection<T: ObligationTable> {
    collected: Vec<bool>,
    table: T,
}

impl<T: ObligationTable> Model for Collection<T> {
    ghost use Rattle.house_core.specs.Collections.{PlainCollection};

    ghost Value = { PlainCollection T };

    ghost view = { λ collection. record { collected = collection.collected.items; table = collection.table } };
}

impl<T: ObligationTable + Drop> Collection<T> {
    ghost use Rattle.std.specs.Prelude.{◌≡◌, ◌+◌, ◌<◌, ◌^◌, ◌++◌, slice_set, true, IfOk};
    ghost use Rattle.house_core.specs.Collections.{of_no_book};

    /// From no book yet.
    pub fn new(alloc: Global, config: &Config, table: T) -> Result<Collection<T>, AllocError>
        ensures { IfOk result (λ collection. collection ≡ of_no_book config.now table) }
    {
        let collected = none_collected(alloc, config)?;
        Ok(Collection { collected, table })
    }

    /// The book of the operator of that number is still to be collected.
    pub fn is_open(&self, operator: usize) -> bool
        ensures { result ≡ is_open self.now.collected operator }
    {
        is_open(self.collected.as_slice(), operator)
    }

    /// All books are collected.
    pub fn is_complete(&self) -> bool
        ensures { result ≡ is_complete self.now.collected }
    {
        is_complete(self.collected.as_slice())
    }

    /// Adds what the operator of that number is owed of the period, without taking memory.
    pub fn collect(
        &mut self,
        config: &Config,
        number: usize,
        operator: &Operator,
        period: u64,
        book: &Book,
    )
        requires open { is_open self.old.collected number ≡ true }
        requires configured { list_all (is_configured (T.scope self.old.table).parties (T.scope self.old.table).currencies) (due operator.now.party period book.now.entries) ≡ true }
        requires fits { total_size (T.obligations self.old.table) + total_size (due operator.now.party period book.now.entries) < 2 ^ 63 }
        ensures collected { self.new.collected ≡ slice_set self.old.collected number true }
        ensures scope { T.scope self.new.table ≡ T.scope self.old.table }
        ensures obligations { T.obligations self.new.table ≡ T.obligations self.old.table ++ sums config.now operator.now period book.now.entries }
    {
        book.period_sums(config, &operator.party, period, &mut self.table);
        self.collected[number] = true;
    }

    /// The table, without taking memory.
    pub fn into_table(self) -> T
        ensures { result ≡ self.table }
    {
        self.table
    }
}
