//! What rows add up to, and what the texts of numbers say.

ghost use Rattle.input_reports.specs.explain_cost.Laws.{ChangesAddUp, RowsAddUp};
ghost use Rattle.input_reports.specs.explain_cost.ReadBack.{TextsReadBack};

/// A law: the rows add up to what the session costs before minimum, maximum and rounding.
pub fn rows_add_up()
    ensures { RowsAddUp }
{}

/// A law: the sum and its changes add up to the amount.
pub fn changes_add_up()
    ensures { ChangesAddUp }
{}

/// A law: the text of a number says that number.
pub fn texts_read_back()
    ensures { TextsReadBack }
{}
