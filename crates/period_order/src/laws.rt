//! What follows from the definitions.

ghost use Rattle.period_order.specs.Decided.{OutcomesAreVerdicts};
ghost use Rattle.period_order.specs.Dues.{BooksAreCollectable, CollectedOwesAlike, DuesAreOfOwnBooks};
ghost use Rattle.period_order.specs.Judging.{ConfigurationsJudgeForThemselves, JudgedByOwnEntries};
ghost use Rattle.period_order.specs.Kept.{EventsAreKept};
ghost use Rattle.period_order.specs.Places.{OrdersAreCounted};
ghost use Rattle.period_order.specs.Resolved.{OrdersAreResolved, PartiesStandAtTheirNumbers};
ghost use Rattle.period_order.specs.Resolves.{OrdersResolve, ResolvingIsUnique, ResolvingIsWhole};

use cdr_checks::commands_have_parties;
use netting_positions::{joined_lists_owe_alike, operators_owe_alike};
use operator_book::sums_owe_alike;
use plain_house::{
    accounts_are_of_own_entries, books_are_of_own_entries, commands_keep_lists_legal,
    events_are_of_configured, events_are_of_their_command, exposure_is_of_own_entries,
    exposure_with_charge_is_of_own_entries, legal_lists_can_be_netted,
};

/// The order of a legal list, resolved in its books and accounts, is the list.
pub fn orders_are_resolved()
    ensures { OrdersAreResolved }
{
    orders_resolve();
    resolving_is_unique();
}

/// The order of a legal list names its events one by one in its books and accounts.
pub fn orders_resolve()
    ensures { OrdersResolve }
{
    events_are_of_configured();
}

/// An order names no other events than those to which it resolves.
pub fn resolving_is_unique()
    ensures { ResolvingIsUnique }
{}

/// An order that resolves fails at none of its entries.
pub fn resolving_is_whole()
    ensures { ResolvingIsWhole }
{}

/// The order of a list has an entry for each event, a close for each closed period, and names each entry of books and accounts.
pub fn orders_are_counted()
    ensures { OrdersAreCounted }
{}

/// What a command comes to is its verdict, with what is collected where it closes a period or gives a statement.
pub fn outcomes_are_verdicts()
    ensures { OutcomesAreVerdicts }
{}

/// At the number of a configured operator stands its own book, and at that of a provider its own account.
pub fn parties_stand_at_their_numbers()
    ensures { PartiesStandAtTheirNumbers }
{}

/// Books, accounts and order that keep a list, with the entries of the event that an admitted command adds, keep the list with
/// the event.
pub fn events_are_kept()
    ensures { EventsAreKept }
{
    commands_have_parties();
    commands_keep_lists_legal();
    events_are_of_their_command();
}

/// A configuration may judge the commands of a house of its own.
pub fn configurations_judge_for_themselves()
    ensures { ConfigurationsJudgeForThemselves }
{}

/// On a legal list a verdict under any configuration is decided by the entries of the command's own operator and provider.
pub(crate) fn judged_by_own_entries()
    ensures { JudgedByOwnEntries }
{
    accounts_are_of_own_entries();
    books_are_of_own_entries();
    exposure_is_of_own_entries();
    exposure_with_charge_is_of_own_entries();
}

/// What the operators of a legal list are owed of a period can be collected book by book, and they owe alike with what the list
/// obliges to.
pub fn books_are_collectable()
    ensures { BooksAreCollectable }
{
    legal_lists_can_be_netted();
    operators_owe_alike();
}

/// An operator is owed the same by its own book as by all entries.
pub fn dues_are_of_own_books()
    ensures { DuesAreOfOwnBooks }
{}

/// What is collected from books owes alike with what the operators are owed.
pub fn collected_owes_alike()
    ensures { CollectedOwesAlike }
{
    joined_lists_owe_alike();
    sums_owe_alike();
}
