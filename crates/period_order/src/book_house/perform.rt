//! Each command answered.

ghost use Rattle.std.specs.Prelude.{◌≡◌, IfOk, OnErr};
ghost use Rattle.cdr_checks.specs.Admission.{IsAdmitted};
ghost use Rattle.plain_house.specs.House.{Does};
ghost use Rattle.period_order.specs.Inner.Collected.{IsReached};
ghost use Rattle.period_order.specs.Inner.Kept.{IsKept, kept_events};
ghost use Rattle.period_order.specs.Judging.{MayJudge};

use super::collect::collected_reply;
use super::collectable::kept_books_are_collectable;
use super::keep::keep;
use super::table::Table;
use crate::decided::Decided;
use crate::laws::orders_are_resolved;
use crate::order::Order;
use cdr_checks::Command;
use netting_positions::{sums_decide_net_positions, sums_decide_statements};
use ocpi_types::Config;
use operator_book::Book;
use plain_house::{Refused, Replied, out_of_memory, stamped, verdicts_are_told};
use provider_account::Account;
use std::alloc::{AllocError, Global};

// Gives the command its place behind the events of the house.
fn reach(
    config: &Config,
    base: &Config,
    books: &mut Vec<Book>,
    accounts: &mut Vec<Account>,
    order: &mut Order,
    command: Command,
) -> Result<Decided, AllocError>
    requires admitted { IsAdmitted config.now command }
    requires judges { MayJudge config.now base.now }
    requires kept { IsKept base.now books.old.items accounts.old.items order.old }
    ensures kept { IsKept base.now books.new.items accounts.new.items order.new }
    ensures ok { IfOk result (λ decided. IsReached config.now base.now (kept_events books.old.items accounts.old.items order.old) command decided
        (kept_events books.new.items accounts.new.items order.new)) }
    ensures err { OnErr result (kept_events books.new.items accounts.new.items order.new ≡ kept_events books.old.items accounts.old.items order.old) }
{
    orders_are_resolved();
    keep(config, base, books, accounts, order, command)
}

/// Replies to a command by `config` and adds its event, in a house whose list is legal under `base`. All memory is taken before
/// the command has its place in the order.
pub fn perform(
    alloc: Global,
    config: &Config,
    base: &Config,
    books: &mut Vec<Book>,
    accounts: &mut Vec<Account>,
    order: &mut Order,
    command: Command,
) -> Result<Replied, Refused>
    requires admitted { IsAdmitted config.now command }
    requires judges { MayJudge config.now base.now }
    requires kept { IsKept base.now books.old.items accounts.old.items order.old }
    ensures kept { IsKept base.now books.new.items accounts.new.items order.new }
    ensures does { Does config.now (kept_events books.old.items accounts.old.items order.old) command result
        (kept_events books.new.items accounts.new.items order.new) }
{
    sums_decide_net_positions();
    sums_decide_statements();
    verdicts_are_told();
    let Ok(table) = Table::new(alloc, base, &command) else {
        return Err(out_of_memory());
    };
    let Ok(decided) = reach(config, base, books, accounts, order, command) else {
        return Err(out_of_memory());
    };
    kept_books_are_collectable(base, books.as_slice(), accounts.as_slice(), order);
    let reply = collected_reply(base, books.as_slice(), table, decided.outcome);
    stamped(decided.point, reply)
}
