//! What follows from the definitions.

ghost use Rattle.house_core.specs.Inner.HouseLaws.{HouseLaws};
ghost use Rattle.house_core.specs.Inner.Steps.{StepsKeep};
ghost use Rattle.house_core.specs.Laws.{CallsCanEnd, CommandsAreOneHouse, EventsAreClaimedOnce, LegalListsKeepRules, LocksAreExclusive};
ghost use Rattle.house_core.specs.StepTable.{StepsAreDecided, StepsChangeNoMore};

use cdr_checks::commands_have_parties;
use netting_positions::{sums_decide_net_positions, sums_decide_statements};
use operator_book::sums_are_no_larger;
use period_order::{
    books_are_collectable, collected_owes_alike, dues_are_of_own_books, events_are_kept,
    orders_are_counted, orders_are_resolved, orders_resolve, parties_stand_at_their_numbers,
};
use plain_house::{
    closed_periods_stay, commands_keep_lists_legal, empty_lists_are_legal, entries_are_dated,
    legal_cdrs_are_charged, legal_credits_are_taken_back, legal_lists_keep_limits,
    legal_positions_balance, verdicts_are_of_own_entries,
};

/// What a step changes is decided by its call, and by the order or the locks that it names.
pub fn steps_are_decided()
    ensures { StepsAreDecided }
{}

/// A step changes its call, and beside it no more than the locks that it names, or the order.
pub fn steps_change_no_more()
    ensures { StepsChangeNoMore }
{}

/// The laws of lists, books, accounts and the order that steps stand on.
pub fn house_laws()
    ensures { HouseLaws }
{
    books_are_collectable();
    closed_periods_stay();
    collected_owes_alike();
    commands_have_parties();
    commands_keep_lists_legal();
    dues_are_of_own_books();
    entries_are_dated();
    events_are_kept();
    orders_are_counted();
    orders_are_resolved();
    orders_resolve();
    parties_stand_at_their_numbers();
    sums_are_no_larger();
    sums_decide_net_positions();
    sums_decide_statements();
    verdicts_are_of_own_entries();
}

/// For every list of steps, admitted commands are answered as one house over one list of events answers.
pub fn commands_are_one_house()
    ensures { CommandsAreOneHouse }
{
    empty_lists_are_legal();
    house_laws();
}

/// After every list of steps no two of the calls that ended claim one event: each event is that of one answer.
pub fn events_are_claimed_once()
    ensures { EventsAreClaimedOnce }
{
    empty_lists_are_legal();
    house_laws();
}

/// Behind every list of steps a call has a lock if and only if it is its holder, and no two calls have one lock.
pub fn locks_are_exclusive()
    ensures { LocksAreExclusive }
{
    empty_lists_are_legal();
    house_laws();
}

/// Behind every list of steps, the steps of its row end a call that has not begun, with a reply, if its locks are free.
pub fn calls_can_end()
    ensures { CallsCanEnd }
{
    empty_lists_are_legal();
    house_laws();
}

/// A step of a sound world leads to a sound world, with the events of before and that of the command which it orders.
pub fn steps_keep()
    ensures { StepsKeep }
{
    empty_lists_are_legal();
    house_laws();
}

/// On a legal list each CDR costs what its tariffs give, is booked once and taken back at most once, net positions add up to 0,
/// and no limit was ever passed.
pub fn legal_lists_keep_rules()
    ensures { LegalListsKeepRules }
{
    legal_cdrs_are_charged();
    legal_credits_are_taken_back();
    legal_positions_balance();
    legal_lists_keep_limits();
}
