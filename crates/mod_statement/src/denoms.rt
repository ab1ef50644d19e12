//! The denominations of entries, in ascending order.

ghost use Rattle.std.specs.Prelude.{◌≡◌, ◌≤◌, ◌∷◌, [], length, IfOk, IfErr, MatchOption};
ghost use Rattle.std.specs.List.{insert};
ghost use Rattle.std.specs.BTreeSet.{insert_key};
ghost use Rattle.base_coins.specs.declared.fault.CoinFault.TheVariants.{NoMemory};
ghost use Rattle.base_types.specs.Orders.{denom_cmp};
ghost use Rattle.mod_statement.specs.Slack.{denoms_of as denoms_of_entries, denoms_over, denoms_with};

use crate::entry::Entry;
use base_coins::{CoinFault, DecCoins};
use base_types::Denom;
use std::alloc::Global;
use std::cmp::Ordering;

/// The denominations of a ratio and of all allocations, in their order, each once.
pub(crate) fn denoms_of(
    alloc: Global,
    ratio: &DecCoins,
    entries: &[Entry],
) -> Result<Vec<Denom>, CoinFault>
    ensures denoms { IfOk result
        (λ denoms. denoms.items ≡ denoms_of_entries ratio.now entries.now) }
    ensures fault { IfErr result (λ fault. fault ≡ NoMemory) }
{
    let mut denoms = Vec::new(alloc);
    put_all(&mut denoms, ratio)?;
    for entry in entries {
        put_allocated(&mut denoms, entry)?;
    }
    Ok(denoms)
}

/// Puts the denominations of an entry, where it is an allocation, in their places.
fn put_allocated(denoms: &mut Vec<Denom>, entry: &Entry) -> Result<(), CoinFault>
    ensures denoms { IfOk result
        (λ _. denoms.new.items ≡ denoms_over denoms.old.items (entry.now ∷ [])) }
    ensures fault { IfErr result (λ fault. fault ≡ NoMemory) }
{
    match entry {
        Entry::Allocated { coins, .. } => put_all(denoms, coins),
        _ => Ok(()),
    }
}

/// Puts the denominations of coins in their places.
fn put_all(denoms: &mut Vec<Denom>, coins: &DecCoins) -> Result<(), CoinFault>
    ensures denoms { IfOk result (λ _. denoms.new.items ≡ denoms_with denoms.old.items coins.now) }
    ensures fault { IfErr result (λ fault. fault ≡ NoMemory) }
{
    for coin in coins.as_slice() {
        put(denoms, coin.denom)?;
    }
    Ok(())
}

/// Puts a denomination in its place, unless it is there.
fn put(denoms: &mut Vec<Denom>, denom: Denom) -> Result<(), CoinFault>
    ensures denoms { IfOk result
        (λ _. denoms.new.items ≡ insert_key denom_cmp denoms.old.items denom) }
    ensures fault { IfErr result (λ fault. fault ≡ NoMemory) }
{
    if let Some(place) = place_of(denoms, &denom) {
        denoms.insert(place, denom)?;
    }
    Ok(())
}

/// The place among denominations in order at which one is to be put, or None where it is there.
fn place_of(denoms: &[Denom], denom: &Denom) -> Option<usize>
    ensures { MatchOption result (insert_key denom_cmp denoms.now denom.now ≡ denoms.now)
        (λ place. (place ≤ length denoms.now)
        × (insert_key denom_cmp denoms.now denom.now ≡ insert denoms.now place denom.now)) }
{
    for (place, other) in denoms.iter().enumerate() {
        match denom.cmp(other) {
            Ordering::Less => return Some(place),
            Ordering::Equal => return None,
            Ordering::Greater => {}
        }
    }
    Some(denoms.len())
}
