//! The supplies of a genesis: of no denomination may there be too much, nor may there be too many.

ghost use Rattle.std.specs.Prelude.{◌≡◌, ◌+◌, ◌^◌, ◌≤◌, ◌<◌, nat_lt, [], map, sum, true, false, IfOk, IfErr, None, MatchOption};
ghost use Rattle.base_coins.specs.Coins.{amount_of, with_amount};
ghost use Rattle.rule_machine.specs.Genesis.{coins_joined, supplies_with, denominations_with};
ghost use Rattle.rule_machine.specs.GenesisConditions.{accounts_at_start, start_condition, delegated_coins};
ghost use Rattle.chain_whole.specs.Supplies.{IsLow, IsHigh};

use crate::fault::ChainFault;
use base_coins::{Coin, Coins};
use base_messages::{Genesis, GenesisAccount, GenesisDelegation};
use base_types::Denom;
use std::alloc::{AllocError, Global};
use std::collections::BTreeMap;

/// The most units that there may be of a denomination.
const MOST_SUPPLY: u128 = 1_000_000_000_000_000_000;

/// The most denominations that there may be.
const MOST_DENOMINATIONS: usize = 1_000_000;

/// What there is of a denomination.
fn amount_in(supplies: &BTreeMap<Denom, u128>, denom: &Denom) -> u128
    ensures { result ≡ amount_of supplies.now.entries denom.now }
{
    match supplies.get(denom) {
        Some(amount) => *amount,
        None => 0,
    }
}

/// Adds a coin to the supplies; false, and nothing changes, where there would be too much of it.
fn join_coin(supplies: &mut BTreeMap<Denom, u128>, coin: &Coin) -> Result<bool, AllocError>
    requires some { 0 < coin.now.amount }
    requires low { IsLow supplies.old.entries }
    ensures joined { IfOk result (λ fits. fits ≡ true → supplies.new.entries
        ≡ with_amount supplies.old.entries coin.now.denom
        (amount_of supplies.old.entries coin.now.denom + coin.now.amount)) }
    ensures fits { IfOk result (λ fits. fits ≡ true
        → amount_of supplies.old.entries coin.now.denom + coin.now.amount ≤ 10 ^ 18) }
    ensures over { IfOk result (λ fits. fits ≡ false
        → 10 ^ 18 < amount_of supplies.old.entries coin.now.denom + coin.now.amount) }
{
    let there = amount_in(supplies, &coin.denom);
    if coin.amount > MOST_SUPPLY - there {
        return Ok(false);
    }
    match supplies.insert(coin.denom, there + coin.amount) {
        Ok(_) => Ok(true),
        Err(refused) => Err(AllocError::from(refused)),
    }
}

/// Adds coins to the supplies; false where there would be too much of some denomination, and then some may
/// be added.
fn join_coins(supplies: &mut BTreeMap<Denom, u128>, coins: &Coins) -> Result<bool, AllocError>
    requires { IsLow supplies.old.entries }
    ensures fits { IfOk result (λ fits. fits ≡ true → (supplies.new.entries
        ≡ coins_joined coins.now supplies.old.entries) × IsLow supplies.new.entries) }
    ensures over { IfOk result
        (λ fits. fits ≡ false → IsHigh (coins_joined coins.now supplies.old.entries)) }
{
    for place in 0..coins.len() {
        let coin = coins.at(place).unwrap();
        if !join_coin(supplies, coin)? {
            return Ok(false);
        }
    }
    Ok(true)
}

/// What there is of each denomination with the coins of all accounts; None where there is too much of some.
pub(crate) fn supplies_of(
    alloc: Global,
    accounts: &[GenesisAccount],
) -> Result<Option<BTreeMap<Denom, u128>>, AllocError>
    ensures { IfOk result (λ supplies. MatchOption supplies (IsHigh (supplies_with accounts.now []))
        (λ s. (s.entries ≡ supplies_with accounts.now []) × IsLow s.entries)) }
{
    let mut supplies = BTreeMap::new(alloc);
    for account in accounts {
        if !join_coins(&mut supplies, &account.coins)? {
            return Ok(None);
        }
    }
    Ok(Some(supplies))
}

/// Whether there are too many denominations, with the bond denomination.
pub(crate) fn has_too_many(supplies: &BTreeMap<Denom, u128>, bond: &Denom) -> bool
    ensures { result ≡ nat_lt 1_000_000 (denominations_with bond.now supplies.now.entries) }
{
    let others = supplies.len();
    if amount_in(supplies, bond) == 0 {
        MOST_DENOMINATIONS <= others
    } else {
        MOST_DENOMINATIONS < others
    }
}

/// What is delegated, all together; None where it is more than there may be of a denomination.
fn total_delegated(delegations: &[GenesisDelegation]) -> Option<u128>
    ensures { MatchOption result (10 ^ 18 < sum (map (λ d. d.amount) delegations.now))
        (λ total. (total ≡ sum (map (λ d. d.amount) delegations.now)) × (total ≤ 10 ^ 18)) }
{
    let mut total = 0;
    for d in delegations {
        if d.amount > MOST_SUPPLY - total {
            return None;
        }
        total += d.amount;
    }
    Some(total)
}

/// What there is of each denomination with the coins of all accounts and what is delegated; None where there
/// is too much of some.
pub(crate) fn supplies_at_start(
    alloc: Global,
    genesis: &Genesis,
) -> Result<Option<BTreeMap<Denom, u128>>, AllocError>
    ensures { IfOk result (λ supplies. MatchOption supplies
        (IsHigh (supplies_with (accounts_at_start genesis.now) []))
        (λ s. (s.entries ≡ supplies_with (accounts_at_start genesis.now) []) × IsLow s.entries)) }
{
    let delegations = genesis.delegations.as_slice();
    match total_delegated(delegations) {
        None => Ok(None),
        Some(amount) => supplies_with_delegated(alloc, genesis, amount),
    }
}

/// The same, where so much is delegated.
fn supplies_with_delegated(
    alloc: Global,
    genesis: &Genesis,
    amount: u128,
) -> Result<Option<BTreeMap<Denom, u128>>, AllocError>
    requires { amount ≡ sum (map (λ d. d.amount) genesis.now.delegations) }
    ensures { IfOk result (λ supplies. MatchOption supplies
        (IsHigh (supplies_with (accounts_at_start genesis.now) []))
        (λ s. (s.entries ≡ supplies_with (accounts_at_start genesis.now) []) × IsLow s.entries)) }
{
    let accounts = genesis.accounts.as_slice();
    match supplies_of(alloc, accounts)? {
        None => Ok(None),
        Some(supplies) => join_delegated(supplies, genesis, amount),
    }
}

/// Adds what is delegated to the supplies of the accounts; None where there would be too much of it.
fn join_delegated(
    mut supplies: BTreeMap<Denom, u128>,
    genesis: &Genesis,
    amount: u128,
) -> Result<Option<BTreeMap<Denom, u128>>, AllocError>
    requires accounts { supplies.entries ≡ supplies_with genesis.now.accounts [] }
    requires low { IsLow supplies.entries }
    requires amount { amount ≡ sum (map (λ d. d.amount) genesis.now.delegations) }
    ensures { IfOk result (λ supplies. MatchOption supplies
        (IsHigh (supplies_with (accounts_at_start genesis.now) []))
        (λ s. (s.entries ≡ supplies_with (accounts_at_start genesis.now) []) × IsLow s.entries)) }
{
    if amount == 0 {
        return Ok(Some(supplies));
    }
    let denom = genesis.params.bond_denom;
    if !join_coin(&mut supplies, &Coin { denom, amount })? {
        return Ok(None);
    }
    Ok(Some(supplies))
}

/// What is delegated, as coins.
pub(crate) fn delegated_coins(alloc: Global, genesis: &Genesis) -> Result<Coins, ChainFault>
    requires starts { start_condition genesis.now ≡ None }
    ensures coins { IfOk result (λ coins. coins ≡ delegated_coins genesis.now) }
    ensures fault { IfErr result (λ fault. fault ≡ ChainFault.NoMemory) }
{
    let denom = genesis.params.bond_denom;
    let amount = total_delegated(genesis.delegations.as_slice()).unwrap();
    let mut coins = Vec::new(alloc);
    coins.push(Coin { denom, amount })?;
    Ok(Coins::of(coins).unwrap())
}
