//! How many denominations records name.

ghost use Rattle.std.specs.Prelude.{◌≡◌, IfOk, OnOk, map};
ghost use Rattle.std.specs.BTreeSet.{insert_key};
ghost use Rattle.base_types.specs.Orders.{denom_cmp};
ghost use Rattle.rule_modules.specs.Sound.{names_in};
ghost use Rattle.store_records.specs.Plain.{seen};
ghost use Rattle.store_soundness.specs.Ranges.{are_few, with_names, with_purse_names, with_purses, with_ratios};

use base_coins::DecCoins;
use base_roles::{Historical, Purse};
use base_types::{Account, Addr, Denom};
use std::alloc::{AllocError, Global};
use std::collections::{BTreeMap, BTreeSet};
use store_records::PlainRecords;

/// The most denominations that there may be.
const MOST_DENOMINATIONS: usize = 1_000_000;

/// Adds a denomination.
fn add_name(names: &mut BTreeSet<Denom>, denom: Denom) -> Result<(), AllocError>
    ensures { OnOk result (names.new.keys ≡ insert_key denom_cmp names.old.keys denom) }
{
    match names.insert(denom) {
        Ok(_) => Ok(()),
        Err(refused) => Err(AllocError::from(refused)),
    }
}

/// Adds the denominations of coins.
fn add_coins(names: &mut BTreeSet<Denom>, coins: &DecCoins) -> Result<(), AllocError>
    ensures { OnOk result (names.new.keys ≡ with_names names.old.keys (names_in coins.now)) }
{
    for coin in coins.as_slice() {
        add_name(names, coin.denom)?;
    }
    Ok(())
}

/// Adds the denominations of balances.
fn add_balances(
    names: &mut BTreeSet<Denom>,
    balances: &BTreeMap<(Account, Denom), u128>,
) -> Result<(), AllocError>
    ensures { OnOk result (names.new.keys
        ≡ with_names names.old.keys (map (λ e. e.0.1) balances.now.entries)) }
{
    for (place, _) in balances {
        add_name(names, place.1)?;
    }
    Ok(())
}

/// Adds the denominations of a purse.
fn add_purse(names: &mut BTreeSet<Denom>, purse: &Purse) -> Result<(), AllocError>
    ensures { OnOk result (names.new.keys ≡ with_purse_names names.old.keys purse.now) }
{
    add_coins(names, &purse.outstanding)?;
    add_coins(names, &purse.commission)?;
    add_coins(names, &purse.current)
}

/// Adds the denominations of purses.
fn add_purses(names: &mut BTreeSet<Denom>, purses: &BTreeMap<Addr, Purse>) -> Result<(), AllocError>
    ensures { OnOk result (names.new.keys
        ≡ with_purses names.old.keys purses.now.entries) }
{
    for (_, purse) in purses {
        add_purse(names, purse)?;
    }
    Ok(())
}

/// Adds the denominations of ratios.
fn add_ratios(
    names: &mut BTreeSet<Denom>,
    histories: &BTreeMap<(Addr, u64), Historical>,
) -> Result<(), AllocError>
    ensures { OnOk result (names.new.keys
        ≡ with_ratios names.old.keys histories.now.entries) }
{
    for (_, history) in histories {
        add_coins(names, &history.ratio)?;
    }
    Ok(())
}

/// Whether at most 1,000,000 denominations are named.
pub(crate) fn are_few(alloc: Global, records: &PlainRecords) -> Result<bool, AllocError>
    ensures { IfOk result (λ few. few ≡ are_few (seen records.now)) }
{
    let mut names = BTreeSet::new(alloc);
    add_balances(&mut names, &records.lists.balances)?;
    add_coins(&mut names, &records.pool)?;
    add_purses(&mut names, &records.lists.shared.purses)?;
    add_ratios(&mut names, &records.lists.shared.histories)?;
    Ok(names.len() <= MOST_DENOMINATIONS)
}
