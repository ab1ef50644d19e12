//! What is put into maps. Accounts with denominations, and keys of three addresses: maps keep them in the order of
//! their definitions.

ghost use Rattle.std.specs.Prelude.{◌≡◌, IfOk};
ghost use Rattle.base_roles.specs.Orders.{place_cmp, triple_cmp};
ghost use Rattle.store_records.specs.Gathering.{some_if, with_new};

use base_types::{Account, Addr, Denom};
use std::alloc::AllocError;
use std::collections::BTreeMap;

/// Puts an entry; false, and nothing changes, where its key stands.
pub(crate) fn put_new<K: Ord + Copy, V: Drop>(
    entries: &mut BTreeMap<K, V>,
    key: K,
    value: V,
) -> Result<bool, AllocError>
    ensures { IfOk result (λ new. with_new K.cmp entries.old.entries key value
        ≡ some_if new entries.new.entries) }
{
    if entries.contains_key(&key) {
        return Ok(false);
    }
    match entries.insert(key, value) {
        Ok(_) => Ok(true),
        Err(refused) => Err(AllocError::from(refused)),
    }
}

/// Puts a balance; false, and nothing changes, where its key stands.
pub(crate) fn put_balance(
    balances: &mut BTreeMap<(Account, Denom), u128>,
    place: (Account, Denom),
    amount: u128,
) -> Result<bool, AllocError>
    ensures { IfOk result (λ new. with_new place_cmp balances.old.entries place amount
        ≡ some_if new balances.new.entries) }
{
    put_new(balances, place, amount)
}

/// Puts what stands under three addresses; false, and nothing changes, where its key stands.
pub(crate) fn put_triple<V: Drop>(
    entries: &mut BTreeMap<(Addr, Addr, Addr), V>,
    key: (Addr, Addr, Addr),
    value: V,
) -> Result<bool, AllocError>
    ensures { IfOk result (λ new. with_new triple_cmp entries.old.entries key value
        ≡ some_if new entries.new.entries) }
{
    put_new(entries, key, value)
}
