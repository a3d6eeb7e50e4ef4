//! What follows from the definitions.

ghost use Rattle.plain_house.specs.Entries.{EntriesAreDated};
ghost use Rattle.plain_house.specs.Exposure.{EntriesAddAtMost, ExposuresInAnySpelling};
ghost use Rattle.plain_house.specs.Laws.{RepliesAreShort, RepliesTellEvents, VerdictsAreTold};
ghost use Rattle.plain_house.specs.Legal.{CommandsKeepListsLegal, EmptyListsAreLegal, EventsAreOfConfigured, LegalListsBeginLegally};
ghost use Rattle.plain_house.specs.LegalLists.{ClosedPositionsBalance, LegalCdrsAreCharged, LegalCreditsAreTakenBack, LegalListsCanBeNetted, LegalListsKeepLimits, LegalPositionsBalance};
ghost use Rattle.plain_house.specs.Obligations.{ClosedPeriodsStay};
ghost use Rattle.plain_house.specs.Own.{AccountsAreOfOwnEntries, BooksAreOfOwnEntries, EventsAreOfTheirCommand, ExposureIsOfOwnEntries, ExposureWithChargeIsOfOwnEntries, VerdictsAreOfOwnEntries};
ghost use Rattle.plain_house.specs.ReplyRoom.{RepliesFit};
ghost use Rattle.plain_house.specs.Settlements.{SettlementsEndTheirDebts};

use cdr_checks::{commands_have_parties, posts_are_checked};
use netting_positions::{
    net_positions_are_balanced, parties_are_different, positions_balance, statements_are_short,
};

/// An admitted command makes a legal list of a legal list.
pub fn commands_keep_lists_legal()
    ensures { CommandsKeepListsLegal }
{}

/// What stands before an event of a legal list is a legal list.
pub fn legal_lists_begin_legally()
    ensures { LegalListsBeginLegally }
{}

/// Each beginning of a legal list keeps every credit limit.
pub fn legal_lists_keep_limits()
    ensures { LegalListsKeepLimits }
{}

/// What a legal list obliges to can be netted: configured parties and currencies, and amounts that fit in 63 bits.
pub fn legal_lists_can_be_netted()
    ensures { LegalListsCanBeNetted }
{
    posts_are_checked();
}

/// A CDR of a legal list costs its price in its operator's zone, its tariffs are registered, and its id is new.
pub fn legal_cdrs_are_charged()
    ensures { LegalCdrsAreCharged }
{
    posts_are_checked();
}

/// A Credit CDR of a legal list takes back one CDR, once, of the same provider and currency, within the credit window.
pub fn legal_credits_are_taken_back()
    ensures { LegalCreditsAreTakenBack }
{
    posts_are_checked();
}

/// The exposure of a legal list is that of the entries of the provider's own account.
pub fn exposure_is_of_own_entries()
    ensures { ExposureIsOfOwnEntries }
{
    legal_cdrs_are_charged();
    legal_credits_are_taken_back();
}

/// So it is with the charge added of a CDR whose id is not booked, as credit limits are tested.
pub fn exposure_with_charge_is_of_own_entries()
    ensures { ExposureWithChargeIsOfOwnEntries }
{
    legal_cdrs_are_charged();
    legal_credits_are_taken_back();
}

/// An entry adds to an exposure at most what its exposure is alone.
pub fn entries_add_at_most()
    ensures { EntriesAddAtMost }
{}

/// In another spelling of its provider an exposure is the same.
pub fn exposures_in_any_spelling()
    ensures { ExposuresInAnySpelling }
{}

/// A list without events is legal.
pub fn empty_lists_are_legal()
    ensures { EmptyListsAreLegal }
{}

/// The entries of an event have as period the number of closes before it.
pub fn entries_are_dated()
    ensures { EntriesAreDated }
{}

/// A settlement ends what is owed of its provider, currency and period and nothing else, and the debts go down by so much.
pub fn settlements_end_their_debts()
    ensures { SettlementsEndTheirDebts }
{}

/// What comes after a period is closed leaves its net positions as they were.
pub fn closed_periods_stay()
    ensures { ClosedPeriodsStay }
{}

/// In each period and currency of a legal list the net positions of all parties add up to 0.
pub fn legal_positions_balance()
    ensures { LegalPositionsBalance }
{
    parties_are_different();
    positions_balance();
    posts_are_checked();
}

/// The net positions that a close of a legal list answers add up to 0 in each currency.
pub fn closed_positions_balance()
    ensures { ClosedPositionsBalance }
{
    net_positions_are_balanced();
    parties_are_different();
    posts_are_checked();
}

/// No verdict is want of memory.
pub fn verdicts_are_told()
    ensures { VerdictsAreTold }
{}

/// A reply tells whether an event is added; where a command is refused, none is.
pub fn replies_tell_events()
    ensures { RepliesTellEvents }
{}

/// A reply has at most one row for each currency and party.
pub fn replies_are_short()
    ensures { RepliesAreShort }
{
    statements_are_short();
}

/// What a house replies fits in the room that is made for its configuration.
pub fn replies_fit()
    ensures { RepliesFit }
{
    replies_are_short();
}

/// The event that a command adds is of the book and of the account that the command looks into.
pub fn events_are_of_their_command()
    ensures { EventsAreOfTheirCommand }
{}

/// The event that an admitted command adds is of parties of the configuration, and a close is that of the current period.
pub fn events_are_of_configured()
    ensures { EventsAreOfConfigured }
{
    commands_have_parties();
}

/// What the entries say of an operator is what its own book says.
pub fn books_are_of_own_entries()
    ensures { BooksAreOfOwnEntries }
{}

/// What the entries of a legal list say of a provider is what its own account says.
pub fn accounts_are_of_own_entries()
    ensures { AccountsAreOfOwnEntries }
{
    legal_cdrs_are_charged();
    legal_credits_are_taken_back();
}

/// On a legal list a verdict is decided by the entries of the command's own operator and provider.
pub fn verdicts_are_of_own_entries()
    ensures { VerdictsAreOfOwnEntries }
{
    books_are_of_own_entries();
    accounts_are_of_own_entries();
}
