//! Which store is full.

ghost use Rattle.std.specs.Prelude.{◌≡◌, [], ◌∷◌};
ghost use Rattle.ocpi_types.specs.declared.refusal.Store.TheVariants as store;
ghost use Rattle.plain_house.specs.Full.{are_cdrs_full, are_versions_full, first_full, is_account_full, is_order_full};
ghost use Rattle.period_order.specs.Order.{point_of};

use crate::order::Order;
use ocpi_types::{Cdr, Config, Party, Store};
use operator_book::Book;
use provider_account::Account;

fn full_order(config: &Config, order: &Order) -> Option<Store>
    ensures { result ≡ first_full ((store.Order, is_order_full config.now (point_of order.now)) ∷ []) }
{
    if order.is_full(config) {
        return Some(Store::Order);
    }
    None
}

/// The store that is full, the account first, where an entry of the provider cannot be added.
pub fn full_for_provider(
    config: &Config,
    provider: &Party,
    account: &Account,
    order: &Order,
) -> Option<Store>
    ensures { result ≡ first_full ((store.Account, is_account_full config.now provider.now account.now.entries)
        ∷ (store.Order, is_order_full config.now (point_of order.now)) ∷ []) }
{
    if account.is_full(config, provider) {
        return Some(Store::Account);
    }
    full_order(config, order)
}

/// The store that is full, the tariffs first, where a tariff version of the operator cannot be added.
pub fn full_for_tariff(
    config: &Config,
    operator: &Party,
    book: &Book,
    order: &Order,
) -> Option<Store>
    ensures { result ≡ first_full ((store.Tariffs, are_versions_full config.now operator.now book.now.entries)
        ∷ (store.Order, is_order_full config.now (point_of order.now)) ∷ []) }
{
    if book.are_versions_full(config, operator) {
        return Some(Store::Tariffs);
    }
    full_order(config, order)
}

/// The store that is full, the CDRs first, where a CDR or Credit CDR cannot be added.
pub fn full_for_cdr(
    config: &Config,
    cdr: &Cdr,
    book: &Book,
    account: &Account,
    order: &Order,
) -> Option<Store>
    ensures { result ≡ first_full ((store.Cdrs, are_cdrs_full config.now cdr.now.operator book.now.entries)
        ∷ (store.Account, is_account_full config.now cdr.now.cdr_token.provider account.now.entries)
        ∷ (store.Order, is_order_full config.now (point_of order.now)) ∷ []) }
{
    if book.are_cdrs_full(config, &cdr.operator) {
        return Some(Store::Cdrs);
    }
    full_for_provider(config, &cdr.cdr_token.provider, account, order)
}
