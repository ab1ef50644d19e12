//! What is told of one entry.

ghost use Rattle.std.specs.Prelude.{◌≡◌, ◌^◌, ◌≤◌, min, if◌then◌else◌};
ghost use Rattle.rule_modules.specs.EntrySlashes.{is_hit, part_of, entry_slashed};
ghost use Rattle.rule_modules.specs.Unbondings.{can_be_cancelled};

use base_decimals::Dec;
use base_roles::UnbondingEntry;
use base_types::Moment;
use mod_entries::{is_hit, is_mature, part_of};

/// Whether an entry was made at a height and is not mature.
pub(crate) fn can_be_cancelled(entry: &UnbondingEntry, height: u64, now: Moment) -> bool
    ensures { result ≡ can_be_cancelled height now entry.now }
{
    entry.created == height && !is_mature(entry, now)
}

/// What an entry loses by a slash: what is counted of it, at most its balance.
pub(crate) fn part_burned(entry: &UnbondingEntry, infraction: u64, factor: Dec, now: Moment) -> u128
    requires factor { factor ≤ 10 ^ 18 }
    requires initial { entry.now.initial ≤ 10 ^ 18 }
    ensures value { result ≡ (if is_hit infraction now entry.now.created entry.now.completes
        then min (part_of factor entry.now.initial) entry.now.balance else 0) }
    ensures most { result ≤ 10 ^ 18 }
{
    if is_hit(entry, infraction, now) {
        return at_most(part_of(entry, factor), entry.balance);
    }
    0
}

/// What an entry loses that follows a redelegation of a height, where so much is left of the count: that, or
/// its balance.
pub(crate) fn part_followed(entry: &UnbondingEntry, from: u64, now: Moment, left: u128) -> u128
    ensures { result ≡ (if is_hit from now entry.now.created entry.now.completes
        then min left entry.now.balance else 0) }
{
    if is_hit(entry, from, now) {
        return at_most(left, entry.balance);
    }
    0
}

/// The smaller of two amounts.
fn at_most(amount: u128, most: u128) -> u128
    ensures { result ≡ min amount most }
{
    if amount < most { amount } else { most }
}

/// An entry after a slash.
pub(crate) fn entry_slashed(
    entry: &UnbondingEntry,
    infraction: u64,
    factor: Dec,
    now: Moment,
) -> UnbondingEntry
    requires factor { factor ≤ 10 ^ 18 }
    requires initial { entry.now.initial ≤ 10 ^ 18 }
    ensures { result ≡ entry_slashed infraction factor now entry.now }
{
    if is_hit(entry, infraction, now) {
        return UnbondingEntry {
            balance: entry.balance.saturating_sub(part_of(entry, factor)),
            ..*entry
        };
    }
    *entry
}
