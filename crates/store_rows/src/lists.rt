//! The entries of unbondings and of redelegations, taken from the front of bytes.

ghost use Rattle.store_rows.specs.Reading.{Gives, IsRead, each_at, list_at, redelegation_at, unbonding_at};

use crate::fault::RowFault;
use crate::fields::{decimal_at, moment_at, u32_at, u64_at, u128_at};
use crate::front::Unread;
use base_roles::{Listed, RedelegationEntry, UnbondingEntry};
use std::alloc::Global;

#[tactic(auto, unfolding(crate::specs::Reading::unbonding_at))]
fn unbonding_at(bytes: &mut Unread<'_>) -> Result<UnbondingEntry, RowFault>
    ensures { IsRead (λ x. (x, bytes.new.left.now)) result (unbonding_at bytes.old.left.now) }
{
    let created = u64_at(bytes)?;
    let completes = moment_at(bytes)?;
    let initial = u128_at(bytes)?;
    let balance = u128_at(bytes)?;
    let entry = UnbondingEntry {
        created,
        completes,
        initial,
        balance,
    };
    Ok(entry)
}

fn each_unbonding(
    alloc: Global,
    count: u32,
    bytes: &mut Unread<'_>,
) -> Result<Vec<UnbondingEntry>, RowFault>
    ensures { Gives (λ x. (x.items, bytes.new.left.now)) result
        (each_at unbonding_at count bytes.old.left.now) }
{
    let mut entries = Vec::new(alloc);
    for _ in 0..count {
        let entry = unbonding_at(bytes)?;
        entries.push(entry)?;
    }
    Ok(entries)
}

/// A list of entries of an unbonding.
pub(crate) fn unbondings_at(
    alloc: Global,
    bytes: &mut Unread<'_>,
) -> Result<Listed<UnbondingEntry>, RowFault>
    ensures { Gives (λ x. (x, bytes.new.left.now)) result
        (list_at unbonding_at bytes.old.left.now) }
{
    let count = u32_at(bytes)?;
    let entries = each_unbonding(alloc, count, bytes)?;
    Ok(Listed::of(entries))
}

#[tactic(auto, unfolding(crate::specs::Reading::redelegation_at))]
fn redelegation_at(bytes: &mut Unread<'_>) -> Result<RedelegationEntry, RowFault>
    ensures { IsRead (λ x. (x, bytes.new.left.now)) result (redelegation_at bytes.old.left.now) }
{
    let created = u64_at(bytes)?;
    let completes = moment_at(bytes)?;
    let initial = u128_at(bytes)?;
    let shares_dst = decimal_at(bytes)?;
    let entry = RedelegationEntry {
        created,
        completes,
        initial,
        shares_dst,
    };
    Ok(entry)
}

fn each_redelegation(
    alloc: Global,
    count: u32,
    bytes: &mut Unread<'_>,
) -> Result<Vec<RedelegationEntry>, RowFault>
    ensures { Gives (λ x. (x.items, bytes.new.left.now)) result
        (each_at redelegation_at count bytes.old.left.now) }
{
    let mut entries = Vec::new(alloc);
    for _ in 0..count {
        let entry = redelegation_at(bytes)?;
        entries.push(entry)?;
    }
    Ok(entries)
}

/// A list of entries of a redelegation.
pub(crate) fn redelegations_at(
    alloc: Global,
    bytes: &mut Unread<'_>,
) -> Result<Listed<RedelegationEntry>, RowFault>
    ensures { Gives (λ x. (x, bytes.new.left.now)) result
        (list_at redelegation_at bytes.old.left.now) }
{
    let count = u32_at(bytes)?;
    let entries = each_redelegation(alloc, count, bytes)?;
    Ok(Listed::of(entries))
}
