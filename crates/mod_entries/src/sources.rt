//! The keys of entries from an operator, which stand side by side under their source.

ghost use Rattle.std.specs.Prelude.{◌≡◌, ◌+◌, ◌≤◌, length, option_map, IfOk};
ghost use Rattle.std.specs.Option.{option_copied};
ghost use Rattle.base_table.specs.Tabled.{entry_above};
ghost use Rattle.mod_entries.specs.Lists.{AllKeys};
ghost use Rattle.mod_entries.specs.Slashed.{is_from};
ghost use Rattle.mod_entries.specs.Sources.{from_operator, own_key, AreSourced};
ghost use Rattle.mod_entries.specs.Walked.{keys_where};

use crate::entry::{Entry, EntryKey};
use crate::slashing::is_same;
use base_roles::Listed;
use base_table::{Table, TableFault};
use base_types::{Addr, Steps};
use std::alloc::Global;
use std::sync::ledger::Ledger;

/// The keys of entries from an operator, in their order.
pub(crate) fn keys_from<K: EntryKey, E: Entry, L: Ledger>(
    alloc: Global,
    lists: &Table<K, Listed<E>>,
    sources: &Table<(Addr, K), bool>,
    operator: &Addr,
    steps: &mut Steps<L>,
) -> Result<Vec<K>, TableFault>
    requires sources { AreSourced K.cmp K.source lists.now.entries sources.now.entries }
    requires fit { AllKeys K.fits lists.now.entries }
    ensures keys { IfOk result (λ keys.
        keys.items ≡ keys_where (is_from K.source operator.now) lists.now.entries) }
    ensures cost { steps.new ≤ steps.old
        + length (from_operator K.source operator.now lists.now.entries) + 1 }
{
    lists.known();
    let mut keys = Vec::new(alloc);
    let mut after: Option<K> = None;
    while let Some(key) = next_from(lists, sources, operator, after.as_ref(), steps) {
        keys.push(*key)?;
        after = Some(*key);
    }
    Ok(keys)
}

/// The least key of entries from an operator above `after`, or the least of all of them for None.
pub(crate) fn next_from<'a, K: EntryKey, E: Entry, L: Ledger>(
    lists: &Table<K, Listed<E>>,
    sources: &'a Table<(Addr, K), bool>,
    operator: &Addr,
    after: Option<&K>,
    steps: &mut Steps<L>,
) -> Option<&'a K>
    requires sources { AreSourced K.cmp K.source lists.now.entries sources.now.entries }
    requires fit { AllKeys K.fits lists.now.entries }
    ensures key { option_copied result ≡ option_map (λ entry. entry.0) (entry_above K.cmp
        (from_operator K.source operator.now lists.now.entries) (option_copied after.entry)) }
    ensures cost { steps.new ≤ steps.old + 1 }
{
    lists.known();
    sources.known();
    match after {
        None => own_key(operator, sources.seek(&(*operator, K::least()), steps)),
        Some(key) => own_key(operator, sources.next(Some(&(*operator, *key)), steps)),
    }
}

/// The key that stands at a place, where there is one and its source is the operator.
fn own_key<'a, K: EntryKey>(
    operator: &Addr,
    place: Option<(&'a (Addr, K), &'a bool)>,
) -> Option<&'a K>
    ensures { option_copied result
        ≡ own_key operator.now (option_map (λ e. (e.0.now, e.1.now)) place.entry) }
{
    let (place, _stands) = place?;
    if !is_same(&place.0, operator) {
        return None;
    }
    Some(&place.1)
}
