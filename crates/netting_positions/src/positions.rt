//! Net positions, as obligations are added.

ghost use Rattle.std.specs.Prelude.{◌≡◌, ◌≤◌, [], ◌++◌, length, map, not, filter, find, ◌&&◌, IfOk, OnOk, option_copied};
ghost use Rattle.std.specs.List.{All};
ghost use Rattle.ocpi_types.specs.Config.{is_operator};
ghost use Rattle.ocpi_types.specs.Currency.{same_currency};
ghost use Rattle.ocpi_types.specs.Party.{same_party};
ghost use Rattle.netting_positions.specs.Netting.{net_positions, parties, position};
ghost use Rattle.netting_positions.specs.Inner.Rows.{HasRoom, net_with, with_net};

use super::history::History;
use super::laws::net_positions_are_balanced;
use super::obligation::Obligation;
use super::table::ObligationTable;
use exact_money::Amount;
use ocpi_json::sequence::Sequence;
use ocpi_types::{Config, Currency, Party};
use std::alloc::{AllocError, Global};
use std::marker::Model;

/// What a party is to receive in a currency less what it is to pay, in ten-thousandths of the currency's unit.
#[derive(Clone, Copy)]
pub struct NetPosition {
    pub currency: Currency,
    pub party: Party,
    pub net: Amount,
}

fn net_with(row: &NetPosition, obligation: &Obligation) -> Amount
    requires { HasRoom obligation.now row.now }
    ensures { result ≡ net_with obligation.now row.now }
{
    let received = obligation.received_by(&row.party, &row.currency);
    let paid = obligation.paid_by(&row.party, &row.currency);
    Amount::from_ten_thousandths(row.net.ten_thousandths() + received - paid)
}

fn add_to_rows(rows: &mut Vec<NetPosition>, obligation: &Obligation)
    requires { All (HasRoom obligation.now) rows.old.items }
    ensures { rows.new.items ≡ map (with_net obligation.now) rows.old.items }
{
    for row in rows.iter_mut() {
        row.net = net_with(row, obligation);
    }
}

fn is_of(row: &NetPosition, party: &Party, currency: &Currency) -> bool
    ensures { result ≡ (same_currency row.now.currency currency.now && same_party row.now.party party.now) }
{
    row.currency.is(currency) && row.party.is(party)
}

fn position_of<'a>(
    rows: &'a [NetPosition],
    party: &Party,
    currency: &Currency,
) -> Option<&'a NetPosition>
    ensures { option_copied result ≡ find (λ row. same_currency row.currency currency.now && same_party row.party party.now) rows.now }
{
    rows.iter().find(|row| is_of(row, party, currency))
}

fn add_operators(parties: &mut Vec<Party>, config: &Config) -> Result<(), AllocError>
    ensures { OnOk result (parties.new.items ≡ parties.old.items ++ map (λ operator. operator.party) config.now.operators) }
{
    for operator in config.operators.as_slice() {
        parties.push(operator.party)?;
    }
    Ok(())
}

fn add_providers(parties: &mut Vec<Party>, config: &Config) -> Result<(), AllocError>
    ensures { OnOk result (parties.new.items ≡ parties.old.items
        ++ filter (λ party. not (is_operator config.now party)) (map (λ provider. provider.party) config.now.providers)) }
{
    for provider in config.providers.as_slice() {
        if !config.is_operator(&provider.party) {
            parties.push(provider.party)?;
        }
    }
    Ok(())
}

/// The operators, and then the providers that are no operators.
pub fn parties_of(alloc: Global, config: &Config) -> Result<Vec<Party>, AllocError>
    ensures parties { IfOk result (λ found. found.items ≡ parties config.now) }
    ensures few { IfOk result (λ found. length found.items ≤ 128) }
{
    let operators = config.operators.as_slice();
    let providers = config.providers.as_slice();
    let mut parties = Vec::with_capacity(alloc, operators.len() + providers.len())?;
    add_operators(&mut parties, config)?;
    add_providers(&mut parties, config)?;
    Ok(parties)
}

#[tactic(auto, unfolding(crate::specs::Netting::net_position, crate::specs::Netting::payable, crate::specs::Netting::receivable))]
fn add_zeros(
    rows: &mut Vec<NetPosition>,
    currency: Currency,
    parties: &[Party],
) -> Result<(), AllocError>
    ensures { OnOk result (rows.new.items ≡ rows.old.items ++ map (position [] currency) parties.now) }
{
    for party in parties {
        rows.push(NetPosition {
            currency,
            party: *party,
            net: Amount::from_ten_thousandths(0),
        })?;
    }
    Ok(())
}

fn zeros(
    alloc: Global,
    parties: &[Party],
    currencies: &[Currency],
) -> Result<Vec<NetPosition>, AllocError>
    ensures { IfOk result (λ rows. rows.items ≡ net_positions parties.now currencies.now []) }
{
    let mut rows = Vec::new(alloc);
    for currency in currencies {
        add_zeros(&mut rows, *currency, parties)?;
    }
    Ok(rows)
}

/// The net positions of a configuration's parties, as obligations are added.
#[derive(Drop)]
pub struct Positions {
    parties: Vec<Party>,
    currencies: Vec<Currency>,
    rows: Vec<NetPosition>,
    history: History,
}

impl Model for Positions {
    ghost use Rattle.netting_positions.specs.State.{PlainPositions};
    ghost use Rattle.netting_positions.specs.Inner.Rows.{IsNetted};

    ghost Value = { PlainPositions };

    ghost view = { λ table. record {
      parties = table.parties.items;
      currencies = table.currencies.items;
      obligations = table.history.obligations;
    } };

    ghost invariant = { λ table. IsNetted table.rows.items table.parties.items table.currencies.items table.history.obligations };
}

impl Positions {
    ghost use Rattle.std.specs.Prelude.{◌≡◌, [], true, IfOk};
    ghost use Rattle.ocpi_types.specs.Different.{all_different};
    ghost use Rattle.ocpi_types.specs.Party.{same_party};
    ghost use Rattle.netting_positions.specs.Netting.{IsBalanced, are_among, net_position, net_positions, parties};

    /// No obligations yet, of all parties of the configuration.
    pub fn new(alloc: Global, config: &Config) -> Result<Positions, AllocError>
        ensures { IfOk result (λ positions. positions ≡ record { parties = parties config.now; currencies = config.now.currencies; obligations = [] }) }
    {
        let parties = parties_of(alloc, config)?;
        let currencies = config.currencies.as_slice().to_vec(alloc)?;
        let rows = zeros(alloc, parties.as_slice(), currencies.as_slice())?;
        Ok(Positions {
            parties,
            currencies,
            rows,
            history: History::new(),
        })
    }

    /// The net position of a party in a currency, 0 where one of them is not configured.
    pub fn net(&self, party: &Party, currency: &Currency) -> Amount
        ensures { result ≡ net_position party.now currency.now self.now.obligations }
    {
        match position_of(self.rows.as_slice(), party, currency) {
            Some(row) => row.net,
            None => Amount::from_ten_thousandths(0),
        }
    }

    /// All net positions, by currency and then by party, without taking memory.
    pub fn into_list(self) -> Sequence<NetPosition>
        ensures value { result ≡ net_positions self.parties self.currencies self.obligations }
        ensures balanced { all_different same_party self.parties ≡ true → are_among self.parties self.obligations ≡ true → IsBalanced result }
    {
        net_positions_are_balanced();
        Sequence::from_vec(self.rows)
    }
}

impl ObligationTable for Positions {
    ghost use Rattle.netting_positions.specs.State.{scope_of_positions};

    ghost scope = { scope_of_positions };

    ghost obligations = { λ table. table.obligations };

    fn add(&mut self, obligation: &Obligation) {
        add_to_rows(&mut self.rows, obligation);
        self.history = self.history.and(obligation);
    }
}
