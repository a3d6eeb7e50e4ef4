//! What follows from the definitions.

ghost use Rattle.netting_positions.specs.Laws.{NetPositionsAreBalanced, PartiesAreConfigured, PartiesAreDifferent, PositionsBalance, StatementsAreInOrder, StatementsAreShort};
ghost use Rattle.netting_positions.specs.SameSums.{JoinedListsOweAlike, OperatorsOweAlike, SumsDecideNetPositions, SumsDecideStatements};

/// In each currency the net positions of all parties add up to 0.
pub fn positions_balance()
    ensures { PositionsBalance }
{}

/// In each currency the rows of a list of all parties' net positions add up to 0.
pub fn net_positions_are_balanced()
    ensures { NetPositionsAreBalanced }
{}

/// No two parties of a configuration are the same.
pub fn parties_are_different()
    ensures { PartiesAreDifferent }
{}

/// The parties of a configuration are its operators and its providers.
pub fn parties_are_configured()
    ensures { PartiesAreConfigured }
{}

/// The rows of a statement rise by their keys, and are those of its obligations.
pub fn statements_are_in_order()
    ensures { StatementsAreInOrder }
{}

/// A statement has at most as many rows as there are currencies times parties.
pub fn statements_are_short()
    ensures { StatementsAreShort }
{}

/// Obligations that owe alike have the same net positions.
pub fn sums_decide_net_positions()
    ensures { SumsDecideNetPositions }
{}

/// Obligations that owe alike have the same statements.
pub fn sums_decide_statements()
    ensures { SumsDecideStatements }
{}

/// Lists that owe alike do so behind lists that owe alike.
pub fn joined_lists_owe_alike()
    ensures { JoinedListsOweAlike }
{}

/// Obligations owe alike when listed operator by operator.
pub fn operators_owe_alike()
    ensures { OperatorsOweAlike }
{}
