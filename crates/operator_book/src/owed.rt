//! What an operator is owed of a period, added with one obligation for each provider and currency.

ghost use Rattle.std.specs.Prelude.{◌≡◌, ◌<◌, ◌^◌, ◌++◌, true};
ghost use Rattle.std.specs.List.{list_all};
ghost use Rattle.netting_positions.specs.Netting.{is_configured, total_size};
ghost use Rattle.operator_book.specs.Due.{due};
ghost use Rattle.operator_book.specs.Together.{owed_by, owed_by_all};

use crate::book::Book;
use netting_positions::ObligationTable;
use ocpi_types::config::Provider;
use ocpi_types::{Currency, Party};

// What one provider owes.
#[tactic(auto, using(crate::proofs::LoopLemmas::loop_rules))]
fn add_provider<T: ObligationTable>(
    book: &Book,
    operator: &Party,
    period: u64,
    provider: &Party,
    currencies: &[Currency],
    table: &mut T,
)
    requires due { total_size (due operator.now period book.now.entries) < 2 ^ 63 }
    requires configured { list_all (is_configured (T.scope table.old).parties (T.scope table.old).currencies)
        (owed_by operator.now (due operator.now period book.now.entries) currencies.now provider.now) ≡ true }
    requires fits { total_size (T.obligations table.old ++ owed_by operator.now (due operator.now period book.now.entries) currencies.now provider.now) < 2 ^ 63 }
    ensures scope { T.scope table.new ≡ T.scope table.old }
    ensures obligations { T.obligations table.new ≡ T.obligations table.old ++ owed_by operator.now (due operator.now period book.now.entries) currencies.now provider.now }
{
    let mut rest = currencies;
    while let Some((currency, later)) = rest.split_first() {
        if let Some(obligation) = book.owed(operator, provider, currency, period) {
            table.add(&obligation);
        }
        rest = later;
    }
}

// What all providers owe.
#[tactic(auto, using(crate::proofs::LoopLemmas::loop_rules))]
pub fn add_providers<T: ObligationTable>(
    book: &Book,
    operator: &Party,
    period: u64,
    providers: &[Provider],
    currencies: &[Currency],
    table: &mut T,
)
    requires due { total_size (due operator.now period book.now.entries) < 2 ^ 63 }
    requires configured { list_all (is_configured (T.scope table.old).parties (T.scope table.old).currencies)
        (owed_by_all operator.now (due operator.now period book.now.entries) currencies.now providers.now) ≡ true }
    requires fits { total_size (T.obligations table.old ++ owed_by_all operator.now (due operator.now period book.now.entries) currencies.now providers.now) < 2 ^ 63 }
    ensures scope { T.scope table.new ≡ T.scope table.old }
    ensures obligations { T.obligations table.new ≡ T.obligations table.old ++ owed_by_all operator.now (due operator.now period book.now.entries) currencies.now providers.now }
{
    let mut rest = providers;
    while let Some((provider, later)) = rest.split_first() {
        add_provider(book, operator, period, &provider.party, currencies, table);
        rest = later;
    }
}
