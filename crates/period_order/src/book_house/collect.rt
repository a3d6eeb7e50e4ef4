//! What all operators are owed, collected book by book.

ghost use Rattle.std.specs.Prelude.{◌≡◌, [], ℕ};
ghost use Rattle.netting_positions.specs.Netting.{net_positions, parties};
ghost use Rattle.netting_positions.specs.Statement.{statement_rows};
ghost use Rattle.period_order.specs.Dues.{CanBeCollected, collected, dues};
ghost use Rattle.period_order.specs.Inner.Collected.{IsScopeOf, IsTableFor, reply_with};
ghost use Rattle.period_order.specs.Resolved.{entries_of_books};

use super::table::Table;
use crate::decided::Outcome;
use crate::laws::collected_owes_alike;
use netting_positions::{
    NetPosition, ObligationTable, Positions, StatementRow, StatementTable,
    sums_decide_net_positions, sums_decide_statements,
};
use ocpi_json::sequence::Sequence;
use ocpi_types::{Config, Refusal};
use operator_book::{Book, sums_are_no_larger};
use plain_house::Answer;

// Adds what all operators are owed of the period.
fn collect<T: ObligationTable>(config: &Config, books: &[Book], period: u64, table: &mut T)
    requires empty { T.obligations table.old ≡ [] }
    requires scope { IsScopeOf config.now (T.scope table.old) }
    requires due { CanBeCollected config.now (dues config.now.operators period (entries_of_books books.now)) }
    ensures scope { T.scope table.new ≡ T.scope table.old }
    ensures obligations { T.obligations table.new ≡ collected config.now period (entries_of_books books.now) }
{
    sums_are_no_larger();
    config.has_distinct_parts();
    let mut operators = config.operators.as_slice();
    let mut rest = books;
    while let Some((operator, others)) = operators.split_first() {
        let Some((book, later)) = rest.split_first() else {
            return;
        };
        book.period_sums(config, &operator.party, period, table);
        operators = others;
        rest = later;
    }
}

// The net positions of what all operators are owed of the period.
fn netted(
    config: &Config,
    books: &[Book],
    period: u64,
    mut positions: Positions,
) -> Sequence<NetPosition>
    requires empty { positions ≡ record { parties = parties config.now; currencies = config.now.currencies; obligations = [] } }
    requires due { CanBeCollected config.now (dues config.now.operators period (entries_of_books books.now)) }
    ensures { result ≡ net_positions (parties config.now) config.now.currencies (dues config.now.operators period (entries_of_books books.now)) }
{
    sums_decide_net_positions();
    collected_owes_alike();
    config.has_distinct_parts();
    collect(config, books, period, &mut positions);
    positions.into_list()
}

// The rows of the statement of what all operators are owed of the period.
fn stated(
    config: &Config,
    books: &[Book],
    period: u64,
    mut table: StatementTable,
) -> Sequence<StatementRow>
    requires parties { table.parties ≡ parties config.now }
    requires currencies { table.currencies ≡ config.now.currencies }
    requires empty { table.obligations ≡ [] }
    requires due { CanBeCollected config.now (dues config.now.operators period (entries_of_books books.now)) }
    ensures { result ≡ statement_rows table.party (dues config.now.operators period (entries_of_books books.now)) }
{
    sums_decide_statements();
    collected_owes_alike();
    config.has_distinct_parts();
    collect(config, books, period, &mut table);
    table.into_rows()
}

/// The reply, with what is left to be collected.
pub fn collected_reply(
    config: &Config,
    books: &[Book],
    table: Table,
    outcome: Outcome,
) -> Result<Answer, Refusal>
    requires table { IsTableFor config.now outcome table }
    requires due { (period : ℕ) → CanBeCollected config.now (dues config.now.operators period (entries_of_books books.now)) }
    ensures { result ≡ reply_with config.now (entries_of_books books.now) outcome }
{
    match (outcome, table) {
        (Outcome::Replied { reply, .. }, _) => reply,
        (Outcome::Closed { period }, Table::NetPositions(positions)) => {
            let positions = netted(config, books, period, positions);
            Ok(Answer::Closed { period, positions })
        }
        (Outcome::Stated { ask }, Table::Statement(table)) => {
            let rows = stated(config, books, ask.period, table);
            Ok(Answer::Statement { rows })
        }
        (Outcome::Closed { .. } | Outcome::Stated { .. }, _) => unreachable!(),
    }
}
