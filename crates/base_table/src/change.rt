//! A change of what stands at the place of a key, which is stamped and listed as touched.

ghost use Rattle.std.specs.Prelude.{◌≡◌, ◌++◌, Some, None, true, length, is_some, option_map, IfOk, OnOk, OnErr, if◌then◌else◌};
ghost use Rattle.std.specs.BTreeMap.{is_at};
ghost use Rattle.std.specs.declared.cmp.Ordering.{Ordering};
ghost use Rattle.std.specs.Option.{option_copied, option_to_list};
ghost use Rattle.indexmap.specs.IndexMap.{insert_entry as put_by};
ghost use Rattle.base_table.specs.Places.{entry_of, filled, listed_by, name_in, pair_of, slots, stamps, unlisted, value_stamped, AreNamed, AreStamped, IsExchanged, IsNamed};

use crate::slot::{Place, Slot};
use base_types::{Copied, TableFault};
use indexmap::IndexMap;
use std::alloc::Global;
use std::collections::BTreeMap;
use std::collections::btree_map::Entry;
use std::hash::Hash;

/// Lets a key have this value, or none, and answers what stood at its place. A key that is yet to be listed
/// is listed, and its place is stamped with where. It takes one search. Where memory is wanting, nothing
/// changes.
pub(crate) fn exchange<K: Ord + Hash + Copied, V: Copied>(
    alloc: Global,
    tree: &mut BTreeMap<K, Place<K, V>>,
    touched: &mut IndexMap<K, Option<V>>,
    key: &K,
    value: Option<V>,
) -> Result<Slot<K, V>, TableFault>
    requires named { AreNamed K.cmp (slots tree.old.entries) }
    requires stamped { AreStamped K.cmp 0 touched.old.entries (stamps tree.old.entries) }
    ensures ok { IfOk result (λ before. IsExchanged K.cmp key.now value touched.old.entries
        tree.old.entries tree.new.entries before
        (unlisted K.cmp touched.old.entries (filled (slots tree.old.entries)) key.now)) }
    ensures listed { OnOk result (touched.new.entries ≡ touched.old.entries ++ option_to_list
        (unlisted K.cmp touched.old.entries (filled (slots tree.old.entries)) key.now)) }
    ensures tree_err { OnErr result (tree.new.entries ≡ tree.old.entries) }
    ensures list_err { OnErr result (touched.new.entries ≡ touched.old.entries) }
{
    let name = key.copied()?;
    match tree.entry(name)? {
        Entry::Occupied(mut entry) => {
            let place = refilled(alloc, touched, entry.key(), entry.get(), key, value)?;
            let before = entry.insert(place);
            Ok(before.slot)
        }
        Entry::Vacant(entry) => {
            let new = entry.insert_entry(fresh(value, touched.len()));
            match enter(touched, key) {
                Ok(()) => Ok(Slot::Empty),
                Err(fault) => {
                    let _ = new.remove();
                    Err(fault)
                }
            }
        }
    }
}

/// What is to stand at the place of the stored key that equals a key, where the key has this value from now
/// on, or none. The key is listed. Where memory is wanting, nothing changes.
fn refilled<K: Ord + Hash + Copied, V: Copied>(
    alloc: Global,
    touched: &mut IndexMap<K, Option<V>>,
    stored: &K,
    place: &Place<K, V>,
    key: &K,
    value: Option<V>,
) -> Result<Place<K, V>, TableFault>
    requires { IsNamed K.cmp key.now place.now.slot }
    ensures named { IfOk result (λ new. IsNamed K.cmp key.now new.slot) }
    ensures shows { IfOk result (λ new. (name : K) → entry_of name new.slot
        ≡ option_map (λ value. (name_in key.now name place.now.slot, value)) value) }
    ensures stamp { IfOk result (λ new. new.stamp
        ≡ (if is_some (value_stamped K.cmp touched.old.entries place.now.stamp key.now)
        then place.now.stamp else length touched.old.entries)) }
    ensures listed { OnOk result (touched.new.entries
        ≡ listed_by K.cmp K.eq touched.old.entries place.now.stamp key.now
        (pair_of key.now (entry_of stored.now place.now.slot))) }
    ensures err { OnErr result (touched.new.entries ≡ touched.old.entries) }
{
    let slot = filling(alloc, &place.slot, key, value)?;
    let stamp = list(touched, stored, place, key)?;
    Ok(Place { slot, stamp })
}

/// Puts a key that had no value into the list. Where memory is wanting, nothing changes.
fn enter<K: Ord + Hash + Copied, V: Copied>(
    touched: &mut IndexMap<K, Option<V>>,
    key: &K,
) -> Result<(), TableFault>
    ensures listed { OnOk result
        (touched.new.entries ≡ put_by K.eq touched.old.entries key.now None) }
    ensures err { OnErr result (touched.new.entries ≡ touched.old.entries) }
{
    let name = key.copied()?;
    touched.insert(name, None)?;
    Ok(())
}

/// The place of a key that had none.
fn fresh<K, V>(value: Option<V>, stamp: usize) -> Place<K, V>
    ensures slot { (key : K) → entry_of key result.slot ≡ option_map (λ value. (key, value)) value }
    ensures named { (cmp : K → K → Ordering) (key : K) → IsNamed cmp key result.slot }
    ensures stamp { result.stamp ≡ stamp }
{
    let slot = match value {
        Some(value) => Slot::Filled(value),
        None => Slot::Empty,
    };
    Place { slot, stamp }
}

/// Lists a key that is yet to be listed, where this is the place of the stored key that equals it, and
/// answers where it is listed. Where memory is wanting, nothing changes.
fn list<K: Ord + Hash + Copied, V: Copied>(
    touched: &mut IndexMap<K, Option<V>>,
    stored: &K,
    place: &Place<K, V>,
    key: &K,
) -> Result<usize, TableFault>
    ensures stamp { IfOk result (λ stamp. stamp
        ≡ (if is_some (value_stamped K.cmp touched.old.entries place.now.stamp key.now)
        then place.now.stamp else length touched.old.entries)) }
    ensures listed { OnOk result (touched.new.entries
        ≡ listed_by K.cmp K.eq touched.old.entries place.now.stamp key.now
        (pair_of key.now (entry_of stored.now place.now.slot))) }
    ensures err { OnErr result (touched.new.entries ≡ touched.old.entries) }
{
    if listed_at(touched, place.stamp, key).is_some() {
        return Ok(place.stamp);
    }
    let next = touched.len();
    let (name, value) = pair(stored, &place.slot, key)?;
    touched.insert(name, value)?;
    Ok(next)
}

/// What is listed of a key, where this stands at the place of the stored key that equals it: the key as it
/// stands among the entries where it does, and its value.
fn pair<K: Copied, V: Copied>(
    stored: &K,
    slot: &Slot<K, V>,
    key: &K,
) -> Result<(K, Option<V>), TableFault>
    ensures { IfOk result (λ pair. pair ≡ pair_of key.now (entry_of stored.now slot.now)) }
{
    match slot.entry(stored) {
        Some((name, value)) => Ok((name.copied()?, Some(value.copied()?))),
        None => Ok((key.copied()?, None)),
    }
}

/// The value that the touched list tells of this key at this stamp.
pub(crate) fn listed_at<'a, K: Ord + Hash, V>(
    touched: &'a IndexMap<K, Option<V>>,
    stamp: usize,
    key: &K,
) -> Option<&'a Option<V>>
    ensures { option_copied result ≡ value_stamped K.cmp touched.now.entries stamp key.now }
{
    match touched.get_index(stamp) {
        Some((listed, value)) if key == listed => Some(value),
        _ => None,
    }
}

/// What is to stand at the place of a key that has this value from now on, or none: a place that shows an
/// entry keeps its key.
fn filling<K: Ord + Copied, V: Copied>(
    alloc: Global,
    slot: &Slot<K, V>,
    key: &K,
    value: Option<V>,
) -> Result<Slot<K, V>, TableFault>
    requires { IsNamed K.cmp key.now slot.now }
    ensures named { IfOk result (λ slot. IsNamed K.cmp key.now slot) }
    ensures shows { IfOk result (λ filling. (stored : K) → entry_of stored filling
        ≡ option_map (λ value. (name_in key.now stored slot.now, value)) value) }
{
    let Some(value) = value else {
        return Ok(Slot::Empty);
    };
    match slot {
        Slot::Filled(_) => Ok(Slot::Filled(value)),
        Slot::Renamed(name, _) => renamed(alloc, name, value),
        Slot::Empty => renamed(alloc, key, value),
    }
}

/// A value under a copy of this key.
fn renamed<K: Ord + Copied, V: Copied>(
    alloc: Global,
    name: &K,
    value: V,
) -> Result<Slot<K, V>, TableFault>
    ensures named { IfOk result
        (λ slot. (key : K) → is_at (K.cmp key) name.now ≡ true → IsNamed K.cmp key slot) }
    ensures shows { IfOk result (λ slot. (key : K) → entry_of key slot ≡ Some (name.now, value)) }
{
    let name = Box::new(alloc, name.copied()?)?;
    Ok(Slot::Renamed(name, value))
}
