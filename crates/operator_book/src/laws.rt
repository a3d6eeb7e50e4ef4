//! What follows from the definitions.

ghost use Rattle.operator_book.specs.Laws.{SumsAreNoLarger, SumsOweAlike};

/// What is due owes alike with one obligation for each provider and currency.
pub fn sums_owe_alike()
    ensures { SumsOweAlike }
{}

/// What is due is no larger with one obligation for each provider and currency.
pub fn sums_are_no_larger()
    ensures { SumsAreNoLarger }
{}
