//! Changes of places that are noted, so that they can be undone.

ghost use Rattle.std.specs.Prelude.{◌≡◌, ◌<◌, ◌++◌, List, ◌∷◌, [], length};
ghost use Rattle.base_table.specs.declared.slot.Slot.{Slot};
ghost use Rattle.base_table.specs.Places.{filled, marks_of, put_back_slot, slots, stamps, AreNamed, FitBelow, Fits, HavePlaces};

use crate::slot::{Place, Slot};
use base_types::Copied;
use indexmap::IndexMap;
use std::collections::BTreeMap;
use std::hash::Hash;

/// A point between two changes.
#[derive(Clone, Copy)]
pub(crate) struct Point {
    /// How many open marks were opened here.
    pub(crate) marks: usize,
    /// How many entries are seen here.
    pub(crate) len: usize,
}

/// What undoes a change.
#[derive(Drop)]
pub(crate) struct Undo<K, V> {
    /// The key whose place was changed.
    pub(crate) key: K,
    /// What stood at the place: nothing where there was no place.
    pub(crate) before: Slot<K, V>,
    /// The point before the change.
    pub(crate) point: Point,
}

/// Lets what stood at the place of a key before a change stand there again. The stamp of the place stays.
fn put_back<K: Ord + Copied, V: Copied>(
    tree: &mut BTreeMap<K, Place<K, V>>,
    key: &K,
    before: Slot<K, V>,
)
    ensures slots { slots tree.new.entries
        ≡ put_back_slot K.cmp key.now before (slots tree.old.entries) }
    ensures stamps { stamps tree.new.entries ≡ stamps tree.old.entries }
{
    let Some(place) = tree.get_mut(key) else {
        return;
    };
    place.slot = before;
}

/// Undoes the changes after the latest mark.
pub(crate) fn rewind<K: Ord + Copied, V: Copied>(
    tree: &mut BTreeMap<K, Place<K, V>>,
    log: &mut Vec<Undo<K, V>>,
    here: &mut Point,
)
    requires marked { 0 < length
        (marks_of K.cmp log.old.items here.old.marks (slots tree.old.entries)) }
    requires fits { Fits K.cmp here.old (slots tree.old.entries) }
    requires below { FitBelow K.cmp log.old.items (slots tree.old.entries) }
    requires placed { HavePlaces K.cmp log.old.items (slots tree.old.entries) }
    ensures marks { marks_of K.cmp log.new.items here.new.marks (slots tree.new.entries)
        ≡ marks_of K.cmp log.old.items here.old.marks (slots tree.old.entries) }
    ensures fits { Fits K.cmp here.new (slots tree.new.entries) }
    ensures below { FitBelow K.cmp log.new.items (slots tree.new.entries) }
    ensures placed { HavePlaces K.cmp log.new.items (slots tree.new.entries) }
    ensures stamps { stamps tree.new.entries ≡ stamps tree.old.entries }
    ensures opened { 0 < here.new.marks }
{
    while here.marks == 0 {
        let Some(undo) = log.pop() else {
            return;
        };
        let Undo { key, before, point } = undo;
        put_back(tree, &key, before);
        *here = point;
    }
}

/// Closes the latest mark: it counts no more at the point where it was opened.
pub(crate) fn close<K: Ord + Copied, V: Copied>(log: &mut Vec<Undo<K, V>>, here: &mut Point)
    ensures closed { (ps : List (K × Slot K V)) → 0 < length (marks_of K.cmp log.old.items
        here.old.marks ps) → (last : List (K × V)) × (marks_of K.cmp log.new.items here.new.marks ps
        ++ last ∷ [] ≡ marks_of K.cmp log.old.items here.old.marks ps) }
    ensures below { (ps : List (K × Slot K V)) → FitBelow K.cmp log.old.items ps
        → FitBelow K.cmp log.new.items ps }
    ensures placed { (ps : List (K × Slot K V)) → HavePlaces K.cmp log.old.items ps
        → HavePlaces K.cmp log.new.items ps }
    ensures here { here.new.len ≡ here.old.len }
{
    if here.marks > 0 {
        here.marks -= 1;
        return;
    }
    let mut at = log.len();
    while at > 0 {
        at -= 1;
        if log[at].point.marks > 0 {
            log[at].point.marks -= 1;
            return;
        }
    }
}

/// Forgets the changes where no mark is open.
pub(crate) fn clear<K, V>(log: &mut Vec<Undo<K, V>>, depth: usize)
where
    K: Drop,
    V: Drop,
    ensures open { 0 < depth → log.new.items ≡ log.old.items }
    ensures log { depth ≡ 0 → log.new.items ≡ [] }
{
    if depth == 0 {
        log.clear();
    }
}

/// Takes the empty places of these keys out, where there are more places than so many entries.
pub(crate) fn sweep<K: Ord + Hash + Copied, V: Copied>(
    tree: &mut BTreeMap<K, Place<K, V>>,
    keys: &IndexMap<K, Option<V>>,
    len: usize,
)
    ensures entries { filled (slots tree.new.entries) ≡ filled (slots tree.old.entries) }
    ensures named { AreNamed K.cmp (slots tree.old.entries)
        → AreNamed K.cmp (slots tree.new.entries) }
{
    if tree.len() <= len {
        return;
    }
    for key in keys.keys() {
        clear_empty(tree, key);
    }
}

/// Takes the place of a key out where it is empty.
fn clear_empty<K: Ord + Copied, V: Copied>(tree: &mut BTreeMap<K, Place<K, V>>, key: &K)
    ensures entries { filled (slots tree.new.entries) ≡ filled (slots tree.old.entries) }
    ensures named { AreNamed K.cmp (slots tree.old.entries)
        → AreNamed K.cmp (slots tree.new.entries) }
{
    let Some(place) = tree.get(key) else {
        return;
    };
    if place.slot.is_full() {
        return;
    }
    tree.remove(key);
}
