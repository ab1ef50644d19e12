//! Unbonding and redelegation entries.

ghost use Rattle.std.specs.Prelude.{◌≡◌};
ghost use Rattle.std.specs.List.{list_all};
ghost use Rattle.base_roles.specs.Ranges.{is_within};
ghost use Rattle.store_soundness.specs.Entries.{are_redelegations_sound, are_unbondings_sound, is_redelegation_list, is_redelegation_sound, is_unbonding_list, is_unbonding_sound};

use crate::ranges::ONE;
use base_roles::{Listed, RedelegationEntry, UnbondingEntry};
use base_types::Addr;
use std::collections::BTreeMap;

/// The most entries that there may be of a key.
const MOST_ENTRIES: usize = 100;

/// Whether an unbonding entry has a balance within its initial amount, and was made at a height that was.
fn is_unbonding_sound(height: u64, entry: &UnbondingEntry) -> bool
    ensures { result ≡ is_unbonding_sound height entry.now }
{
    entry.initial <= ONE && entry.balance <= entry.initial && entry.created <= height
}

/// Whether a number of entries is from 1 to 100.
fn is_number(number: usize) -> bool
    ensures { result ≡ is_within 1 100 number }
{
    1 <= number && number <= MOST_ENTRIES
}

/// Whether all entries are so.
fn are_all_unbondings(height: u64, entries: &[UnbondingEntry]) -> bool
    ensures { result ≡ list_all (is_unbonding_sound height) entries.now }
{
    entries
        .iter()
        .all(|entry| is_unbonding_sound(height, entry))
}

/// Whether there are 1 to 100 entries, and all are so.
fn is_unbonding_list(height: u64, entries: &[UnbondingEntry]) -> bool
    ensures { result ≡ is_unbonding_list height entries.now }
{
    is_number(entries.len()) && are_all_unbondings(height, entries)
}

/// Whether all lists are so.
pub(crate) fn are_unbondings_sound(
    height: u64,
    unbondings: &BTreeMap<(Addr, Addr), Listed<UnbondingEntry>>,
) -> bool
    ensures { result ≡ are_unbondings_sound height unbondings.now.entries }
{
    unbondings.iter().all(|(_, entries)| is_unbonding_list(height, entries.as_slice()))
}

/// Whether a redelegation entry was made at a height that was.
fn is_redelegation_sound(height: u64, entry: &RedelegationEntry) -> bool
    ensures { result ≡ is_redelegation_sound height entry.now }
{
    entry.initial <= ONE && entry.created <= height
}

/// Whether all entries are so.
fn are_all_redelegations(height: u64, entries: &[RedelegationEntry]) -> bool
    ensures { result ≡ list_all (is_redelegation_sound height) entries.now }
{
    entries
        .iter()
        .all(|entry| is_redelegation_sound(height, entry))
}

/// Whether there are 1 to 100 entries, and all are so.
fn is_redelegation_list(height: u64, entries: &[RedelegationEntry]) -> bool
    ensures { result ≡ is_redelegation_list height entries.now }
{
    is_number(entries.len()) && are_all_redelegations(height, entries)
}

/// Whether all lists are so.
pub(crate) fn are_redelegations_sound(
    height: u64,
    redelegations: &BTreeMap<(Addr, Addr, Addr), Listed<RedelegationEntry>>,
) -> bool
    ensures { result ≡ are_redelegations_sound height redelegations.now.entries }
{
    redelegations.iter().all(|(_, entries)| is_redelegation_list(height, entries.as_slice()))
}
