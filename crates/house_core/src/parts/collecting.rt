//! Collecting a closed period from a book.

ghost use Rattle.std.specs.Prelude.{◌≡◌, slice_get, unwrap_or};
ghost use Rattle.operator_book.specs.Due.{due};
ghost use Rattle.house_core.specs.Collections.{is_open};
ghost use Rattle.house_core.specs.Inner.Moves.{collected_call, netting_with, stating_with};
ghost use Rattle.house_core.specs.Inner.Ready.{CanCollect, CanCollectOf, IsCollectable};
ghost use Rattle.house_core.specs.Inner.Shown.{shown_books};
ghost use Rattle.house_core.specs.Steps.{collected};

use super::Parts;
use crate::locks::BookLock;
use crate::running_call::RunningCall;
use crate::stage::{Netting, Stage, Stating};
use ocpi_types::Config;
use ocpi_types::config::Operator;
use operator_book::{Book, sums_are_no_larger};
use period_order::dues_are_of_own_books;
use plain_house::legal_lists_can_be_netted;

// Adds what the operator is owed of the closed period, where its book is still to be collected.
fn collect_netting(
    config: &Config,
    netting: &mut Netting,
    number: usize,
    operator: &Operator,
    book: &Book,
)
    requires fits { IsCollectable netting.old.collection.collected number netting.old.collection.table.parties netting.old.collection.table.currencies
        netting.old.collection.table.obligations (due operator.now.party netting.old.period book.now.entries) }
    ensures { netting.new ≡ netting_with config.now number operator.now book.now.entries (is_open netting.old.collection.collected number) netting.old }
{
    if netting.collection.is_open(number) {
        let period = netting.period;
        netting
            .collection
            .collect(config, number, operator, period, book);
    }
}

// The same for a statement.
fn collect_stating(
    config: &Config,
    stating: &mut Stating,
    number: usize,
    operator: &Operator,
    book: &Book,
)
    requires fits { IsCollectable stating.old.collection.collected number stating.old.collection.table.parties stating.old.collection.table.currencies
        stating.old.collection.table.obligations (due operator.now.party stating.old.period book.now.entries) }
    ensures { stating.new ≡ stating_with config.now number operator.now book.now.entries (is_open stating.old.collection.collected number) stating.old }
{
    if stating.collection.is_open(number) {
        let period = stating.period;
        stating
            .collection
            .collect(config, number, operator, period, book);
    }
}

fn collect_stage(
    config: &Config,
    stage: &mut Stage,
    number: usize,
    operator: &Operator,
    book: &Book,
)
    requires fits { CanCollectOf number operator.now book.now.entries stage.old }
    ensures { stage.new ≡ unwrap_or (collected config.now number operator.now book.now.entries stage.old) stage.old }
{
    match stage {
        Stage::Netting(netting) => collect_netting(config, netting, number, operator, book),
        Stage::Stating(stating) => collect_stating(config, stating, number, operator, book),
        Stage::Waiting(_) | Stage::Begun(_) | Stage::Ordered(_) | Stage::Ended => {}
    }
}

// Adds to the call's table what the operator of that number is owed, where its book is free and still to be collected.
fn collect_book(config: &Config, locks: &[BookLock], call: &mut RunningCall, number: usize)
    requires fits { CanCollect config.now (shown_books locks.now) number call.old.stage }
    ensures { call.new ≡ collected_call config.now number (slice_get config.now.operators number) (slice_get (shown_books locks.now) number) call.old }
{
    let Some(operator) = config.operators.as_slice().get(number) else {
        return;
    };
    let Some(lock) = locks.get(number) else {
        return;
    };
    if lock.holder.is_some() {
        return;
    }
    collect_stage(config, &mut call.stage, number, operator, &lock.book);
}

impl Parts {
    ghost use Rattle.std.specs.Prelude.{◌≡◌, ◌<◌, length};
    ghost use Rattle.house_core.specs.Inner.Ready.{ArePartsReady, AreSound, shown};
    ghost use Rattle.house_core.specs.Steps.{step};
    ghost use Rattle.house_core.specs.declared.step.Action.TheVariants as action;

    pub fn collect(&mut self, call: usize, operator: usize)
        requires there { call < length self.old.calls.items }
        requires sound { AreSound self.old }
        ensures world { shown self.new ≡ step (shown self.old) (record { call = call; action = action.Collect operator }) }
        ensures ready { ArePartsReady self.new }
    {
        dues_are_of_own_books();
        legal_lists_can_be_netted();
        sums_are_no_larger();
        collect_book(
            &self.config,
            self.books.as_slice(),
            &mut self.calls[call],
            operator,
        );
    }
}
