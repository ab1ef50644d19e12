//! What the distribution account holds.

ghost use Rattle.std.specs.Prelude.{◌≡◌, [], IfOk, OnOk};
ghost use Rattle.std.specs.List.{list_all};
ghost use Rattle.base_types.specs.Orders.{denom_cmp};
ghost use Rattle.base_roles.specs.Entries.{number_at};
ghost use Rattle.store_soundness.specs.Accounts.{are_held, holds_owed, holds_rewards, is_elsewhere_or_held, is_held, coin_totals, outstanding_totals};
ghost use Rattle.store_records.specs.Plain.{seen};

use crate::places::{balance_of, is_account};
use crate::ranges::ONE;
use crate::tally::{add_to, number_of};
use base_coins::DecCoins;
use base_roles::Purse;
use base_types::{Account, Addr, Denom, Module};
use std::alloc::{AllocError, Global};
use std::collections::BTreeMap;
use store_records::PlainRecords;

/// Adds coins to the units of their denominations.
fn add_coins(owed: &mut BTreeMap<Denom, u128>, coins: &DecCoins) -> Result<(), AllocError>
    ensures { OnOk result (owed.new.entries ≡ coin_totals coins.now owed.old.entries) }
{
    for coin in coins.as_slice() {
        add_to(owed, coin.denom, coin.amount.raw())?;
    }
    Ok(())
}

/// Adds what is outstanding.
fn add_outstanding(
    owed: &mut BTreeMap<Denom, u128>,
    purses: &BTreeMap<Addr, Purse>,
) -> Result<(), AllocError>
    ensures { OnOk result
        (owed.new.entries ≡ outstanding_totals purses.now.entries owed.old.entries) }
{
    for (_, purse) in purses {
        add_coins(owed, &purse.outstanding)?;
    }
    Ok(())
}

/// What is outstanding and in the pool, in units, by denomination.
fn owed_in(
    alloc: Global,
    purses: &BTreeMap<Addr, Purse>,
    pool: &DecCoins,
) -> Result<BTreeMap<Denom, u128>, AllocError>
    ensures { IfOk result (λ owed. owed.entries
        ≡ outstanding_totals purses.now.entries (coin_totals pool.now [])) }
{
    let mut owed = BTreeMap::new(alloc);
    add_coins(&mut owed, pool)?;
    add_outstanding(&mut owed, purses)?;
    Ok(owed)
}

/// Whether the distribution account holds just this number of units of a denomination.
fn is_held(balances: &BTreeMap<(Account, Denom), u128>, denom: &Denom, owed: u128) -> bool
    ensures { result ≡ is_held balances.now.entries denom.now owed }
{
    let held = balance_of(balances, &(Account::Module(Module::Distribution), *denom));
    held <= ONE && owed == held * ONE
}

/// Whether it holds what is owed of each of these coins.
fn are_held(
    balances: &BTreeMap<(Account, Denom), u128>,
    owed: &BTreeMap<Denom, u128>,
    coins: &DecCoins,
) -> bool
    ensures { result
        ≡ are_held balances.now.entries (number_at denom_cmp owed.now.entries) coins.now }
{
    for coin in coins.as_slice() {
        if !is_held(balances, &coin.denom, number_of(owed, &coin.denom)) {
            return false;
        }
    }
    true
}

/// Whether a balance is of another account, or just what is owed.
fn is_elsewhere_or_held(
    balances: &BTreeMap<(Account, Denom), u128>,
    owed: &BTreeMap<Denom, u128>,
    place: &(Account, Denom),
) -> bool
    ensures { result ≡ is_elsewhere_or_held balances.now.entries
        (number_at denom_cmp owed.now.entries) place.now }
{
    !is_account(&Account::Module(Module::Distribution), &place.0)
        || is_held(balances, &place.1, number_of(owed, &place.1))
}

/// Whether all that the account holds is owed.
fn is_all_owed(balances: &BTreeMap<(Account, Denom), u128>, owed: &BTreeMap<Denom, u128>) -> bool
    ensures { result ≡ list_all (λ e. is_elsewhere_or_held balances.now.entries
        (number_at denom_cmp owed.now.entries) e.0) balances.now.entries }
{
    balances
        .iter()
        .all(|(place, _)| is_elsewhere_or_held(balances, owed, place))
}

/// Whether it holds what is owed of all that is outstanding.
fn is_outstanding_held(
    balances: &BTreeMap<(Account, Denom), u128>,
    owed: &BTreeMap<Denom, u128>,
    purses: &BTreeMap<Addr, Purse>,
) -> bool
    ensures { result ≡ list_all (λ e. are_held balances.now.entries
        (number_at denom_cmp owed.now.entries) e.1.outstanding) purses.now.entries }
{
    purses
        .iter()
        .all(|(_, purse)| are_held(balances, owed, &purse.outstanding))
}

/// Whether it holds just what is owed, of each denomination that it has and of each that it owes.
fn holds_owed(
    balances: &BTreeMap<(Account, Denom), u128>,
    owed: &BTreeMap<Denom, u128>,
    purses: &BTreeMap<Addr, Purse>,
    pool: &DecCoins,
) -> bool
    ensures { result ≡ holds_owed balances.now.entries
        (number_at denom_cmp owed.now.entries) purses.now.entries pool.now }
{
    is_all_owed(balances, owed)
        && is_outstanding_held(balances, owed, purses)
        && are_held(balances, owed, pool)
}

/// Whether the distribution account holds exactly what is outstanding and the pool.
pub(crate) fn holds_rewards(alloc: Global, records: &PlainRecords) -> Result<bool, AllocError>
    ensures { IfOk result (λ holds. holds ≡ holds_rewards (seen records.now)) }
{
    let purses = &records.lists.shared.purses;
    let owed = owed_in(alloc, purses, &records.pool)?;
    Ok(holds_owed(&records.lists.balances, &owed, purses, &records.pool))
}
