//! What is asked of maps; sums, and numbers by key, each up to 10^38.

ghost use Rattle.std.specs.Prelude.{◌≡◌, OnOk};
ghost use Rattle.std.specs.BTreeMap.{is_at};
ghost use Rattle.base_roles.specs.Entries.{number_at};
ghost use Rattle.store_soundness.specs.Tally.{raised, up_to_most};

use std::alloc::AllocError;
use std::cmp::Ordering;
use std::collections::BTreeMap;

/// Totals stay here once they came so far.
pub(crate) const MOST: u128 = 100_000_000_000_000_000_000_000_000_000_000_000_000;

/// Whether two keys are one.
pub(crate) fn is_same<K: Ord>(key: &K, other: &K) -> bool
    ensures { result ≡ is_at (K.cmp key.now) other.now }
{
    key.cmp(other) == Ordering::Equal
}

/// A total with more.
pub(crate) fn up_to_most(total: u128, more: u128) -> u128
    ensures { result ≡ up_to_most total more }
{
    if MOST <= total || MOST - total < more {
        return MOST;
    }
    total + more
}

/// The number of a key, 0 where it has none.
pub(crate) fn number_of<K: Ord + Copy>(tally: &BTreeMap<K, u128>, key: &K) -> u128
    ensures { result ≡ number_at K.cmp tally.now.entries key.now }
{
    match tally.get(key) {
        Some(number) => *number,
        None => 0,
    }
}

/// Adds an amount to the number of a key.
pub(crate) fn add_to<K: Ord + Copy>(
    tally: &mut BTreeMap<K, u128>,
    key: K,
    amount: u128,
) -> Result<(), AllocError>
    ensures { OnOk result (tally.new.entries ≡ raised K.cmp tally.old.entries key amount) }
{
    let there = number_of(tally, &key);
    let sum = up_to_most(there, amount);
    match tally.insert(key, sum) {
        Ok(_) => Ok(()),
        Err(refused) => Err(AllocError::from(refused)),
    }
}
