//! Laws that follow from the definitions.

ghost use Rattle.house_reports.specs.balances.Laws.{BookingsAreObligations, NetIsOfDebts, OwedIsPayable, SettledBookingsStay, SettledRowsAreSquare, SettlementsSquare};

/// The bookings of a period are the ones that closes net and statements report.
pub fn bookings_are_obligations()
    ensures { BookingsAreObligations }
{}

/// The amount that a provider owes an operator is the one that its statement says it is to pay.
pub fn owed_is_payable()
    ensures { OwedIsPayable }
{}

/// A settlement settles all that is owed of its provider, currency and period.
pub fn settlements_square()
    ensures { SettlementsSquare }
{}

/// Nothing is open in a row of a settlement.
pub fn settled_rows_are_square()
    ensures { SettledRowsAreSquare }
{}

/// In a legal list nothing is booked of a settlement's period after it.
pub fn settled_bookings_stay()
    ensures { SettledBookingsStay }
{}

/// The amount owed of a settlement is the debt in the answer to it and the debts that ended before, less the Credit CDRs.
pub fn net_is_of_debts()
    ensures { NetIsOfDebts }
{}
