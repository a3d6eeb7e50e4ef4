//! What is true of the entries of one book and of one account.

ghost use Rattle.plain_house.specs.LegalEntries.{EmptyEntriesAreLegal, EventsKeepAccountsLegal, EventsKeepBooksLegal, LegalAccountsBeginLegally, LegalAccountsHaveRoom, LegalAccountsKeepLimits, LegalBooksAreCharged, LegalBooksAreTakenBack, LegalBooksBeginLegally, LegalBooksCanBeNetted, LegalBooksHaveRoom, LegalListsHaveLegalEntries};

use super::laws::{
    books_are_of_own_entries, events_are_of_their_command, verdicts_are_of_own_entries,
};
use cdr_checks::posts_are_checked;

/// A book without entries is legal, and an account without entries.
pub fn empty_entries_are_legal()
    ensures { EmptyEntriesAreLegal }
{}

/// What stands before an entry of a legal book is a legal book.
pub fn legal_books_begin_legally()
    ensures { LegalBooksBeginLegally }
{}

/// What stands before an entry of a legal account is a legal account.
pub fn legal_accounts_begin_legally()
    ensures { LegalAccountsBeginLegally }
{}

/// What a book keeps of the event that an admitted command adds by it makes a legal book of a legal one.
pub fn events_keep_books_legal()
    ensures { EventsKeepBooksLegal }
{}

/// What an account keeps of the event that an admitted command adds by it makes a legal account of a legal one.
pub fn events_keep_accounts_legal()
    ensures { EventsKeepAccountsLegal }
{}

/// Each operator's book and each provider's account of a legal list is legal by its own entries.
pub fn legal_lists_have_legal_entries()
    ensures { LegalListsHaveLegalEntries }
{
    books_are_of_own_entries();
    events_are_of_their_command();
    verdicts_are_of_own_entries();
}

/// Each beginning of a legal account keeps every credit limit.
pub fn legal_accounts_keep_limits()
    ensures { LegalAccountsKeepLimits }
{}

/// A legal account has at most as many entries as its configuration allows.
pub fn legal_accounts_have_room()
    ensures { LegalAccountsHaveRoom }
{}

/// A legal book has at most as many CDRs and tariff versions as its configuration allows.
pub fn legal_books_have_room()
    ensures { LegalBooksHaveRoom }
{
    posts_are_checked();
}

/// A CDR of a legal book costs its price in its operator's zone, its tariffs are registered, and its id is new.
pub fn legal_books_are_charged()
    ensures { LegalBooksAreCharged }
{
    posts_are_checked();
}

/// A Credit CDR of a legal book takes back one CDR, once, of the same provider and currency, within the credit window.
pub fn legal_books_are_taken_back()
    ensures { LegalBooksAreTakenBack }
{
    posts_are_checked();
}

/// What a legal book obliges to can be netted: configured parties and currencies, and amounts that fit in 63 bits.
pub fn legal_books_can_be_netted()
    ensures { LegalBooksCanBeNetted }
{
    posts_are_checked();
}
