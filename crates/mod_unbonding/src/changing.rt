//! The entries of one delegator and operator once one is made, or an amount of one is cancelled.

ghost use Rattle.std.specs.Prelude.{◌≡◌, ◌^◌, ◌≤◌, ◌==◌, ◌&&◌, All, IfOk, find};
ghost use Rattle.rule_modules.specs.Unbondings.{grown, lowered, can_be_cancelled};

use crate::entries::can_be_cancelled;
use base_roles::{Listed, UnbondingEntry};
use base_types::{Moment, TableFault};
use std::alloc::Global;

/// One more entry; or where one has the same height and completion, that one grown.
pub(crate) fn grown(
    alloc: Global,
    entries: &[UnbondingEntry],
    height: u64,
    completes: Moment,
    amount: u128,
) -> Result<Listed<UnbondingEntry>, TableFault>
    requires amount { amount ≤ 10 ^ 18 }
    requires initials { All (λ e. e.initial ≤ 10 ^ 18) entries.now }
    requires balances { All (λ e. e.balance ≤ 10 ^ 18) entries.now }
    ensures { IfOk result (λ list. list ≡ grown height completes amount entries.now) }
{
    let mut list = Vec::new(alloc);
    let mut is_added = false;
    for entry in entries {
        if !is_added && is_of(entry, height, completes) {
            list.push(UnbondingEntry {
                initial: entry.initial + amount,
                balance: entry.balance + amount,
                ..*entry
            })?;
            is_added = true;
        } else {
            list.push(*entry)?;
        }
    }
    if !is_added {
        list.push(UnbondingEntry {
            created: height,
            completes,
            initial: amount,
            balance: amount,
        })?;
    }
    Ok(Listed::of(list))
}

/// Whether an entry has this height and completion.
fn is_of(entry: &UnbondingEntry, height: u64, completes: Moment) -> bool
    ensures { result ≡ ((entry.now.created == height) && (entry.now.completes == completes)) }
{
    entry.created == height && entry.completes.nanos() == completes.nanos()
}

/// The first entry that was made at a height and is not mature, or None where there is none.
pub(crate) fn first_open(
    entries: &[UnbondingEntry],
    created: u64,
    now: Moment,
) -> Option<UnbondingEntry>
    ensures { result ≡ find (can_be_cancelled created now) entries.now }
{
    for entry in entries {
        if can_be_cancelled(entry, created, now) {
            return Some(*entry);
        }
    }
    None
}

/// The entries once the first that can be cancelled lost an amount, which is at most its balance; it goes
/// where nothing is left.
pub(crate) fn lowered(
    alloc: Global,
    entries: &[UnbondingEntry],
    created: u64,
    now: Moment,
    amount: u128,
) -> Result<Listed<UnbondingEntry>, TableFault>
    ensures { IfOk result (λ list. list ≡ lowered created now amount entries.now) }
{
    let mut list = Vec::new(alloc);
    let mut is_found = false;
    for entry in entries {
        if !is_found && can_be_cancelled(entry, created, now) {
            if entry.balance != amount {
                list.push(UnbondingEntry {
                    initial: entry.initial.saturating_sub(amount),
                    balance: entry.balance.saturating_sub(amount),
                    ..*entry
                })?;
            }
            is_found = true;
        } else {
            list.push(*entry)?;
        }
    }
    Ok(Listed::of(list))
}
