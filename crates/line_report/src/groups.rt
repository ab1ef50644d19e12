//! The groups of the report in the order of their keys, each by one walk over the items.
ghost use Rattle.std.specs.Prelude.{◌≡◌, option_map, unwrap_or, [], IfOk, IfErr, OnOk};
ghost use Rattle.std.specs.BTreeMap.{insert_entry};
ghost use Rattle.std.specs.List.{filter_map};
ghost use Rattle.base_types.specs.Orders.{addr_cmp, cons_cmp};
ghost use Rattle.base_roles.specs.Orders.{pair_cmp, place_cmp};
ghost use Rattle.line_report.specs.Groups.{delegations_of, pool_of, purses_of, redelegations_of, signing_of, supply_of, unbondings_of};
ghost use Rattle.rule_machine.specs.Orders.{in_order};
ghost use Rattle.line_report.specs.Seen.{seen};
ghost use Rattle.line_report.specs.Telling.{balance_in, pending_in, validator_in};

use crate::asked::Asked;
use crate::telling::{
    balance_in, delegation_in, pending_in, pool_in, purse_in, redelegation_in, signing_in,
    supply_in, unbonding_in, validator_in,
};
use base_coins::DecCoins;
use base_decimals::Dec;
use base_messages::{LineFault, Pending};
use base_roles::{Item, Purse, RedelegationEntry, SigningInfo, UnbondingEntry, Validator};
use base_types::{Account, Addr, ConsAddr, Denom};
use std::alloc::Global;
use std::collections::BTreeMap;

/// Puts an entry at its key.
fn put<K: Ord + Drop, V: Drop>(found: &mut BTreeMap<K, V>, entry: (K, V)) -> Result<(), LineFault>
    ensures ok { OnOk result
        (found.new.entries ≡ insert_entry K.cmp found.old.entries entry.0 entry.1) }
    ensures fault { IfErr result (λ fault. fault ≡ LineFault.NoMemory) }
{
    found.insert(entry.0, entry.1)?;
    Ok(())
}

/// The supply of each denomination.
pub(crate) fn supplies(alloc: Global, items: &[Item]) -> Result<BTreeMap<Denom, u128>, LineFault>
    ensures found { IfOk result (λ found. found.entries ≡ supply_of items.now) }
    ensures fault { IfErr result (λ fault. fault ≡ LineFault.NoMemory) }
{
    let mut found = BTreeMap::new(alloc);
    for item in items {
        if let Some(told) = supply_in(item) {
            put(&mut found, told)?;
        }
    }
    Ok(found)
}

/// What accounts hold of each denomination.
pub(crate) fn balances(
    alloc: Global,
    asked: Asked,
    items: &[Item],
) -> Result<BTreeMap<(Account, Denom), u128>, LineFault>
    ensures found { IfOk result (λ found. found.entries
        ≡ in_order place_cmp (filter_map (balance_in asked) items.now)) }
    ensures fault { IfErr result (λ fault. fault ≡ LineFault.NoMemory) }
{
    let mut found = BTreeMap::new(alloc);
    for item in items {
        if let Some(told) = balance_in(asked, item) {
            put(&mut found, told)?;
        }
    }
    Ok(found)
}

/// Validators, by operator.
pub(crate) fn validators(
    alloc: Global,
    asked: Asked,
    items: &[Item],
) -> Result<BTreeMap<Addr, &Validator>, LineFault>
    ensures found { IfOk result (λ found. seen found.entries
        ≡ in_order addr_cmp (filter_map (validator_in asked) items.now)) }
    ensures fault { IfErr result (λ fault. fault ≡ LineFault.NoMemory) }
{
    let mut found = BTreeMap::new(alloc);
    for item in items {
        if let Some(told) = validator_in(asked, item) {
            put(&mut found, told)?;
        }
    }
    Ok(found)
}

/// The purses of operators.
pub(crate) fn purses(
    alloc: Global,
    asked: Asked,
    items: &[Item],
) -> Result<BTreeMap<Addr, &Purse>, LineFault>
    ensures found { IfOk result (λ found. seen found.entries ≡ purses_of asked items.now) }
    ensures fault { IfErr result (λ fault. fault ≡ LineFault.NoMemory) }
{
    let mut found = BTreeMap::new(alloc);
    for item in items {
        if let Some(told) = purse_in(asked, item) {
            put(&mut found, told)?;
        }
    }
    Ok(found)
}

/// Delegations, by delegator and operator.
pub(crate) fn delegations(
    alloc: Global,
    asked: Asked,
    items: &[Item],
) -> Result<BTreeMap<(Addr, Addr), Dec>, LineFault>
    ensures found { IfOk result (λ found. found.entries ≡ delegations_of asked items.now) }
    ensures fault { IfErr result (λ fault. fault ≡ LineFault.NoMemory) }
{
    let mut found = BTreeMap::new(alloc);
    for item in items {
        if let Some(told) = delegation_in(asked, item) {
            put(&mut found, told)?;
        }
    }
    Ok(found)
}

/// Pending rewards, by delegator and operator.
pub(crate) fn pending_rewards(
    alloc: Global,
    asked: Asked,
    pending: &[Pending],
) -> Result<BTreeMap<(Addr, Addr), &Pending>, LineFault>
    ensures found { IfOk result (λ found. seen found.entries
        ≡ in_order pair_cmp (filter_map (pending_in asked) pending.now)) }
    ensures fault { IfErr result (λ fault. fault ≡ LineFault.NoMemory) }
{
    let mut found = BTreeMap::new(alloc);
    for reward in pending {
        if let Some(told) = pending_in(asked, reward) {
            put(&mut found, told)?;
        }
    }
    Ok(found)
}

/// Unbonding entries, by delegator and operator.
pub(crate) fn unbondings(
    alloc: Global,
    asked: Asked,
    items: &[Item],
) -> Result<BTreeMap<(Addr, Addr), &[UnbondingEntry]>, LineFault>
    ensures found { IfOk result (λ found. seen found.entries ≡ unbondings_of asked items.now) }
    ensures fault { IfErr result (λ fault. fault ≡ LineFault.NoMemory) }
{
    let mut found = BTreeMap::new(alloc);
    for item in items {
        if let Some(told) = unbonding_in(asked, item) {
            put(&mut found, told)?;
        }
    }
    Ok(found)
}

/// Redelegation entries, by delegator, source and target.
pub(crate) fn redelegations(
    alloc: Global,
    asked: Asked,
    items: &[Item],
) -> Result<BTreeMap<(Addr, Addr, Addr), &[RedelegationEntry]>, LineFault>
    ensures found { IfOk result (λ found. seen found.entries ≡ redelegations_of asked items.now) }
    ensures fault { IfErr result (λ fault. fault ≡ LineFault.NoMemory) }
{
    let mut found = BTreeMap::new(alloc);
    for item in items {
        if let Some(told) = redelegation_in(asked, item) {
            put(&mut found, told)?;
        }
    }
    Ok(found)
}

/// Signing records, by consensus address.
pub(crate) fn signing_records(
    alloc: Global,
    asked: Asked,
    items: &[Item],
) -> Result<BTreeMap<ConsAddr, SigningInfo>, LineFault>
    ensures found { IfOk result (λ found. found.entries ≡ signing_of asked items.now) }
    ensures fault { IfErr result (λ fault. fault ≡ LineFault.NoMemory) }
{
    let mut found = BTreeMap::new(alloc);
    for item in items {
        if let Some(told) = signing_in(asked, item) {
            put(&mut found, told)?;
        }
    }
    Ok(found)
}

/// The coins of the community pool, where the items have it.
pub(crate) fn pool(items: &[Item]) -> Option<&DecCoins>
    ensures { unwrap_or (option_map (λ coins. coins.now) result) [] ≡ pool_of items.now }
{
    for item in items {
        if let Some(coins) = pool_in(item) {
            return Some(coins);
        }
    }
    None
}
