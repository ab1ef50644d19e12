//! Entries told in the order of their delegators, sources and targets. A table compares the first two parts of
//! a key before the third, which is the same order.

ghost use Rattle.std.specs.Prelude.{◌≡◌, ◌+◌, ◌≤◌, true, Some, option_map, IfOk, OnOk, OnErr, IsErr};
ghost use Rattle.std.specs.List.Sorted.{IsStrictlySortedBy};
ghost use Rattle.std.specs.Map.{keys_of};
ghost use Rattle.std.specs.Option.{option_copied};
ghost use Rattle.base_table.specs.Tabled.{entry_above, entry_from};
ghost use Rattle.base_roles.specs.Entries.{at, with};
ghost use Rattle.base_roles.specs.Orders.{triple_cmp};
ghost use Rattle.rule_modules.specs.EntrySlashes.{redelegation_made};
ghost use Rattle.mod_entries.specs.Kept.{holding, spent_now};
ghost use Rattle.mod_entries.specs.Lists.{list_at, with_list, unmatured, AllKeys};
ghost use Rattle.mod_redelegation.specs.Own.{are_addrs, own_entries, is_own_or_none, own_entry};

use base_roles::{Listed, RedelegationEntry};
use base_table::TableFault;
use base_types::{Addr, Moment, Steps};
use mod_entries::{Entries, is_same, least_addr};
use std::alloc::Global;
use std::sync::ledger::Ledger;

/// What entries are kept by: their delegator, their source and their target.
pub(crate) type Key = (Addr, Addr, Addr);

/// Entries by key.
pub(crate) type Lists = Entries<Key, RedelegationEntry>;

/// It tells that the keys ascend, and that their parts are addresses. It does nothing.
pub(crate) fn known(entries: &Lists)
    ensures ordered { IsStrictlySortedBy triple_cmp (keys_of entries.now.lists) }
    ensures fit { AllKeys are_addrs entries.now.lists }
{
    entries.known();
}

/// The entries of a key, or None where there are none.
pub(crate) fn at<'a, L: Ledger>(
    entries: &'a Lists,
    key: &Key,
    steps: &mut Steps<L>,
) -> Option<&'a Listed<RedelegationEntry>>
    ensures { option_copied result ≡ at triple_cmp entries.now.lists key.now }
{
    entries.at(key, steps)
}

/// The entries of the least key above `after`.
fn next<'a, L: Ledger>(
    entries: &'a Lists,
    after: &Key,
    steps: &mut Steps<L>,
) -> Option<(&'a Key, &'a Listed<RedelegationEntry>)>
    ensures above { option_map (λ entry. (entry.0.now, entry.1.now)) result
        ≡ entry_above triple_cmp entries.now.lists (Some after.now) }
    ensures cost { steps.new ≤ steps.old + 1 }
{
    entries.next(Some(after), steps)
}

/// The entries of the least key at or above `from`.
fn seek<'a, L: Ledger>(
    entries: &'a Lists,
    from: &Key,
    steps: &mut Steps<L>,
) -> Option<(&'a Key, &'a Listed<RedelegationEntry>)>
    ensures from { option_map (λ entry. (entry.0.now, entry.1.now)) result
        ≡ entry_from triple_cmp entries.now.lists from.now }
    ensures cost { steps.new ≤ steps.old + 1 }
{
    entries.seek(from, steps)
}

/// A delegator's entries of the least key above `after`, which is the delegator's too; for None, those of its
/// least key of all.
pub(crate) fn next_own<'a, L: Ledger>(
    entries: &'a Lists,
    delegator: &Addr,
    after: Option<&Key>,
    steps: &mut Steps<L>,
) -> Option<(&'a Key, &'a Listed<RedelegationEntry>)>
    requires own { is_own_or_none delegator.now (option_copied after) ≡ true }
    ensures above { option_map (λ entry. (entry.0.now, entry.1.now)) result
        ≡ entry_above triple_cmp (own_entries delegator.now entries.now.lists)
        (option_copied after.entry) }
    ensures cost { steps.new ≤ steps.old + 1 }
{
    known(entries);
    match after {
        None => {
            let least = least_addr();
            own(delegator, seek(entries, &(*delegator, least, least), steps))
        }
        Some(key) => own(delegator, next(entries, key, steps)),
    }
}

/// Entries with their key, where there are some and they are the delegator's.
fn own<'a>(
    delegator: &Addr,
    entry: Option<(&'a Key, &'a Listed<RedelegationEntry>)>,
) -> Option<(&'a Key, &'a Listed<RedelegationEntry>)>
    ensures { option_map (λ entry. (entry.0.now, entry.1.now)) result
        ≡ own_entry delegator.now (option_map (λ entry. (entry.0.now, entry.1.now)) entry.entry) }
{
    let (key, list) = entry?;
    if !is_same(&key.0, delegator) {
        return None;
    }
    Some((key, list))
}

/// Puts entries under a key, also none.
pub(crate) fn put<L: Ledger>(
    entries: &mut Lists,
    key: &Key,
    list: Listed<RedelegationEntry>,
    steps: &mut Steps<L>,
) -> Result<(), TableFault>
    ensures ok { OnOk result
        (entries.new ≡ holding (with triple_cmp entries.old.lists key.now list) entries.old) }
    ensures err { OnErr result (entries.new ≡ spent_now entries.old) }
    ensures spent { entries.old.spent ≡ true → IsErr result }
{
    entries.put(key, list, steps)
}

/// Puts a copy of entries.
pub(crate) fn put_copy<L: Ledger>(
    entries: &mut Lists,
    key: &Key,
    list: &Listed<RedelegationEntry>,
    steps: &mut Steps<L>,
) -> Result<(), TableFault>
    ensures ok { OnOk result
        (entries.new ≡ holding (with triple_cmp entries.old.lists key.now list.now) entries.old) }
    ensures err { OnErr result (entries.new ≡ spent_now entries.old) }
    ensures spent { entries.old.spent ≡ true → IsErr result }
{
    entries.put_copy(key, list, steps)
}

/// Keeps entries under a key, which goes where they are none.
pub(crate) fn set<L: Ledger>(
    entries: &mut Lists,
    key: &Key,
    list: Listed<RedelegationEntry>,
    steps: &mut Steps<L>,
) -> Result<(), TableFault>
    ensures ok { OnOk result
        (entries.new ≡ holding (with_list triple_cmp key.now list entries.old.lists) entries.old) }
    ensures err { OnErr result (entries.new ≡ spent_now entries.old) }
    ensures cost { steps.new ≤ steps.old + 4 }
{
    entries.set(key, list, steps)
}

/// The entries of a key that are not mature, also none.
pub(crate) fn unmatured_at<L: Ledger>(
    alloc: Global,
    entries: &Lists,
    key: &Key,
    now: Moment,
    steps: &mut Steps<L>,
) -> Result<Listed<RedelegationEntry>, TableFault>
    ensures left { IfOk result (λ list. list
        ≡ unmatured redelegation_made now (list_at triple_cmp entries.now.lists key.now)) }
    ensures cost { steps.new ≡ steps.old + 1 }
{
    entries.unmatured_at(alloc, key, now, steps)
}
