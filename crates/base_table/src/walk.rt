//! What is seen of places.

ghost use Rattle.std.specs.Prelude.{◌≡◌, option_map};
ghost use Rattle.std.specs.BTreeMap.{is_at};
ghost use Rattle.std.specs.BTreeMap.Range.{entries_between};
ghost use Rattle.std.specs.Map.{lookup_entry};
ghost use Rattle.std.specs.Range.Bound.{bound_map};
ghost use Rattle.std.specs.declared.ops.Bound.TheVariants.{Unbounded};
ghost use Rattle.base_table.specs.Places.{filled, slots, AreNamed};
ghost use Rattle.base_table.specs.Tabled.{first_of};

use crate::slot::Place;
use base_types::Copied;
use std::collections::BTreeMap;
use std::ops::Bound;

/// The entry under a key.
pub(crate) fn find<'a, K: Ord + Copied, V: Copied>(
    tree: &'a BTreeMap<K, Place<K, V>>,
    key: &K,
) -> Option<(&'a K, &'a V)>
    requires { AreNamed K.cmp (slots tree.now.entries) }
    ensures { option_map (λ entry. (entry.0.now, entry.1.now)) result
        ≡ lookup_entry (is_at (K.cmp key.now)) (filled (slots tree.now.entries)) }
{
    // It tells that the keys ascend.
    let _ = tree.len();
    match tree.get_key_value(key) {
        Some((stored, place)) => place.slot.entry(stored),
        None => None,
    }
}

/// The first entry from here on.
pub(crate) fn first_from<'a, K: Ord + Copied, V: Copied>(
    tree: &'a BTreeMap<K, Place<K, V>>,
    start: Bound<&K>,
) -> Option<(&'a K, &'a V)>
    requires { AreNamed K.cmp (slots tree.now.entries) }
    ensures { option_map (λ entry. (entry.0.now, entry.1.now)) result
        ≡ first_of (entries_between K.cmp (bound_map (λ key. key.now) start.entry) Unbounded
        (filled (slots tree.now.entries))) }
{
    for (stored, place) in tree.range((start, Bound::Unbounded)) {
        let entry = place.slot.entry(stored);
        if entry.is_some() {
            return entry;
        }
    }
    None
}
