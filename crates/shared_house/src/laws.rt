//! What follows from the definitions.

ghost use Rattle.shared_house.specs.Inner.Collecting.{CollectingLaws, DuesAreBounded};
ghost use Rattle.shared_house.specs.Inner.HouseLaws.{HouseLaws};
ghost use Rattle.std.specs.Prelude.{◌≡◌, ◌≤◌, ◌*◌, ◌^◌, count_by, length};
ghost use Rattle.period_order.specs.Order.{names_account, names_book};
ghost use Rattle.shared_house.specs.Finished.{NothingIsTornWithoutEvents};
ghost use Rattle.shared_house.specs.Laws.{AcceptedAsDueBack, AcceptedAtTheirCost, ClosesBalance, ExposuresAreWithinLimits, KeepsBookRules, KeepsLimitsThroughout, OverLimitsAreAbove, RepeatedAtTheirCost, RepliesOfCallsFit};

use crate::ledgers::{Configured, Names, Part};
use crate::locked::{LockedAccount, LockedBook, LockedOrder};
use cdr_checks::posts_are_checked;
use cdr_rating::same_cdrs_cost_the_same;
use netting_positions::{
    net_positions_are_balanced, parties_are_different, sums_decide_net_positions,
    sums_decide_statements,
};
use ocpi_types::laws::same_cdrs_are_equal_folded;
use operator_book::sums_are_no_larger;
use period_order::{collected_owes_alike, dues_are_of_own_books, outcomes_are_verdicts};
use plain_house::{
    empty_entries_are_legal, events_are_of_their_command, events_keep_accounts_legal,
    events_keep_books_legal, legal_accounts_keep_limits, legal_books_are_charged,
    legal_books_are_taken_back, legal_books_can_be_netted, legal_books_have_room,
    replies_are_short, replies_tell_events, verdicts_are_told,
};

/// The laws of commands, verdicts and entries that the house stands on.
pub(crate) fn house_laws()
    ensures { HouseLaws }
{
    empty_entries_are_legal();
    events_are_of_their_command();
    events_keep_accounts_legal();
    events_keep_books_legal();
    outcomes_are_verdicts();
    replies_tell_events();
    verdicts_are_told();
}

/// What a legal book owes an operator of a period is bounded.
fn dues_are_bounded()
    ensures { DuesAreBounded }
{
    legal_books_are_charged();
    legal_books_are_taken_back();
    legal_books_have_room();
}

/// The laws that collecting stands on.
pub(crate) fn collecting_laws()
    ensures { CollectingLaws }
{
    collected_owes_alike();
    dues_are_bounded();
    dues_are_of_own_books();
    empty_entries_are_legal();
    legal_books_can_be_netted();
    sums_are_no_larger();
    sums_decide_net_positions();
    sums_decide_statements();
}

/// What a call returns fits in the room that is made for its configuration.
pub fn replies_of_calls_fit()
    ensures { RepliesOfCallsFit }
{
    legal_books_can_be_netted();
    replies_are_short();
}

/// No exposure in an account under its lock is above its credit limit, nor was any after one of its entries.
pub fn locked_accounts_keep_limits<N: Names>(held: &LockedAccount<N>)
    ensures { KeepsLimitsThroughout N.BookEntries.config held.now.entries }
{
    legal_accounts_keep_limits();
    let _entries = held.entries();
}

/// What a book under its lock has is priced, booked once, and credited once, within the credit window.
pub fn locked_books_keep_rules<N: Names>(held: &LockedBook<N>)
    ensures { KeepsBookRules N.BookEntries.config held.now.entries }
{
    legal_books_are_charged();
    legal_books_are_taken_back();
    legal_books_have_room();
    let _entries = held.entries();
}

/// The totals of the ledgers are the number of entries of the order that name a book, of those that name an account, and of
/// all; and one amount over the books and over the accounts, of at most 10^12 ten-thousandths for each entry.
pub fn locked_orders_are_counted<N: Names>(held: &LockedOrder<N>)
    ensures books { held.now.book_entries.total ≡ count_by names_book held.now.order.entries }
    ensures accounts { held.now.account_entries.total ≡ count_by names_account held.now.order.entries }
    ensures events { held.now.events.total ≡ length held.now.order.entries }
    ensures one_amount { held.now.book_amounts.total ≡ held.now.account_amounts.total }
    ensures bounded { held.now.book_amounts.total ≤ 10 ^ 12 * length held.now.order.entries }
{
    let _ = held;
}

/// Where the exposure of a provider is told, what is held and what is owed are together within the credit limit that is told.
pub fn exposures_are_within_limits()
    ensures { ExposuresAreWithinLimits }
{
    legal_accounts_keep_limits();
}

/// A close tells the period that it closes, and net positions that add up to 0 in each currency.
pub fn closes_balance()
    ensures { ClosesBalance }
{
    net_positions_are_balanced();
    parties_are_different();
}

/// A CDR is accepted at what its session costs.
pub fn cdrs_are_accepted_at_their_cost()
    ensures { AcceptedAtTheirCost }
{}

/// A CDR that is booked already is told at what its session costs.
pub fn repeated_cdrs_are_told_at_their_cost()
    ensures { RepeatedAtTheirCost }
{
    legal_books_are_charged();
    legal_books_are_taken_back();
    posts_are_checked();
    same_cdrs_are_equal_folded();
    same_cdrs_cost_the_same();
}

/// A Credit CDR is accepted at the negated amount of a CDR of the same provider and currency, which is at most 0, and its own
/// total cost is within the tolerance of that.
pub fn credits_are_accepted_as_due_back()
    ensures { AcceptedAsDueBack }
{
    legal_books_are_taken_back();
}

/// A CDR that is refused for an exposure above a limit is refused for one that is above it.
pub fn over_limits_are_above()
    ensures { OverLimitsAreAbove }
{}

/// Calls that are one history without an event are torn nowhere: a house that ends so is not said to be torn.
pub fn nothing_is_torn_without_events()
    ensures { NothingIsTornWithoutEvents }
{
    replies_tell_events();
}
