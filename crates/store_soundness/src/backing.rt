//! Supplies as sums of balances.

ghost use Rattle.std.specs.Prelude.{◌≡◌, [], IfOk};
ghost use Rattle.base_types.specs.Orders.{denom_cmp};
ghost use Rattle.base_roles.specs.Entries.{number_at};
ghost use Rattle.store_soundness.specs.Ranges.{are_backed, are_balances_sound, are_supplies_sound, balance_totals, balances_of, is_balance_sound, is_supply_sound};

use crate::ranges::ONE;
use crate::tally::{add_to, number_of};
use base_types::{Account, Denom};
use std::alloc::{AllocError, Global};
use std::collections::BTreeMap;

/// The balances of each denomination together.
fn totals_of(
    alloc: Global,
    balances: &BTreeMap<(Account, Denom), u128>,
) -> Result<BTreeMap<Denom, u128>, AllocError>
    ensures { IfOk result (λ totals. totals.entries ≡ balance_totals balances.now.entries []) }
{
    let mut totals = BTreeMap::new(alloc);
    for (place, amount) in balances {
        add_to(&mut totals, place.1, *amount)?;
    }
    Ok(totals)
}

/// Whether a supply is from 1 to 10^18, and so much is held.
fn is_supply_sound(supply: u128, held: u128) -> bool
    ensures { result ≡ is_supply_sound supply held }
{
    1 <= supply && supply <= ONE && held == supply
}

/// Whether a balance is not 0, and of a denomination that has a supply.
fn is_balance_sound(supplies: &BTreeMap<Denom, u128>, denom: &Denom, amount: u128) -> bool
    ensures { result ≡ is_balance_sound supplies.now.entries denom.now amount }
{
    0 < amount && supplies.contains_key(denom)
}

/// Whether each supply is from 1 to 10^18 and has the total as its amount.
fn have_totals(supplies: &BTreeMap<Denom, u128>, totals: &BTreeMap<Denom, u128>) -> bool
    ensures { result ≡ are_supplies_sound
        (number_at denom_cmp totals.now.entries) supplies.now.entries }
{
    supplies.iter().all(|(denom, amount)| is_supply_sound(*amount, number_of(totals, denom)))
}

/// Whether each supply is from 1 to 10^18, and the sum of its balances.
fn are_supplies_sound(
    alloc: Global,
    balances: &BTreeMap<(Account, Denom), u128>,
    supplies: &BTreeMap<Denom, u128>,
) -> Result<bool, AllocError>
    ensures { IfOk result (λ sound. sound
        ≡ are_supplies_sound (balances_of balances.now.entries) supplies.now.entries) }
{
    let totals = totals_of(alloc, balances)?;
    Ok(have_totals(supplies, &totals))
}

/// Whether each balance is not 0, and of a denomination that has a supply.
fn are_balances_sound(
    supplies: &BTreeMap<Denom, u128>,
    balances: &BTreeMap<(Account, Denom), u128>,
) -> bool
    ensures { result ≡ are_balances_sound supplies.now.entries balances.now.entries }
{
    balances.iter().all(|(place, amount)| is_balance_sound(supplies, &place.1, *amount))
}

/// Whether each supply is the sum of its balances.
pub(crate) fn are_backed(
    alloc: Global,
    balances: &BTreeMap<(Account, Denom), u128>,
    supplies: &BTreeMap<Denom, u128>,
) -> Result<bool, AllocError>
    ensures { IfOk result
        (λ backed. backed ≡ are_backed balances.now.entries supplies.now.entries) }
{
    Ok(are_supplies_sound(alloc, balances, supplies)? && are_balances_sound(supplies, balances))
}
