//! Entries in the order of their keys, with open marks to go back to and the list of what was touched.

ghost use Rattle.std.specs.Prelude.{◌≡◌, ◌<◌, ◌^◌, ◌++◌, List, ◌∷◌, [], None, true, length, option_map, vec_capacity, vec_len, IfSome, OnOk, OnErr, IsOk, if◌then◌else◌};
ghost use Rattle.std.specs.BTreeMap.{is_at};
ghost use Rattle.std.specs.List.{IsDistinct};
ghost use Rattle.std.specs.List.Sorted.{IsStrictlySortedBy};
ghost use Rattle.std.specs.Map.{keys_of, lookup_key};
ghost use Rattle.std.specs.Option.{option_copied, option_to_list};
ghost use Rattle.std.specs.Ordering.{eq_by_cmp};
ghost use Rattle.std.specs.Range.Bound.{bound_map};
ghost use Rattle.base_table.specs.Places.{bound_above, changed, len_changed};
ghost use Rattle.base_table.specs.Tabled.{entry_above, entry_from, touched_with, value_at};

use crate::change::{exchange, listed_at};
use crate::slot::Place;
use crate::undo::{Point, Undo, clear, close, rewind, sweep};
use crate::walk::{find, first_from};
use base_types::{Copied, TableFault};
use indexmap::IndexMap;
use std::alloc::Global;
use std::collections::BTreeMap;
use std::hash::Hash;
use std::marker::Model;
use std::ops::Bound;

/// The longest list of touched keys whose room is kept when the table settles: a block's is mostly shorter.
const ROOM_KEPT: usize = 1024;

/// Entries in the order of their keys, with open marks. A mark keeps no copy: each later change notes what
/// undoes it. A key that is touched has a place in the tree until the table is settled, empty where it has
/// no value, and the place is stamped with where the key is listed. So the list is asked without a search,
/// and going back only writes to places, which wants no memory.
#[derive(Drop)]
pub(crate) struct Places<K: Ord + Hash + Copied, V: Copied> {
    alloc: Global,
    tree: BTreeMap<K, Place<K, V>>,
    /// The keys that were touched since the last settling, each with the value that it had then.
    touched: IndexMap<K, Option<V>>,
    /// What undoes the changes since the earliest open mark, the latest change last.
    log: Vec<Undo<K, V>>,
    /// The point after the latest change.
    here: Point,
    /// How many marks are open.
    depth: usize,
}

impl<K: Ord + Hash + Copied, V: Copied> Model for Places<K, V> {
    ghost use Rattle.base_table.specs.Places.{filled, marks_of, slots, stamps, AreStamped, IsKept, Marked};

    ghost Value = { Marked K V };

    ghost view = { λ p. record {
      entries = filled (slots p.tree.entries);
      marks = marks_of K.cmp p.log.items p.here.marks (slots p.tree.entries);
      touched = p.touched.entries;
    } };

    ghost invariant = { λ p. IsKept K.cmp p.log.items p.here p.depth (slots p.tree.entries)
        × AreStamped K.cmp 0 p.touched.entries (stamps p.tree.entries) };
}

impl<K: Ord + Hash + Copied, V: Copied> Places<K, V> {
    /// No entries, no mark, and nothing touched.
    pub(crate) fn new(alloc: Global) -> Places<K, V>
        ensures { result ≡ record { entries = []; marks = []; touched = [] } }
    {
        Places {
            alloc,
            tree: BTreeMap::new(alloc),
            touched: IndexMap::new(alloc),
            log: Vec::new(alloc),
            here: Point { marks: 0, len: 0 },
            depth: 0,
        }
    }

    /// How many entries there are.
    pub(crate) fn len(&self) -> usize
        ensures len { result ≡ length self.now.entries }
        ensures ordered { IsStrictlySortedBy K.cmp (keys_of self.now.entries) }
    {
        // It tells that the keys ascend.
        let _ = self.tree.len();
        self.here.len
    }

    /// The touched list.
    pub(crate) fn touched(&self) -> &IndexMap<K, Option<V>>
        ensures list { result.now.entries ≡ self.now.touched }
        ensures distinct { IsDistinct (eq_by_cmp K.cmp) (keys_of self.now.touched) }
    {
        // It tells that no key is listed twice.
        let _ = self.touched.len();
        &self.touched
    }

    /// The value that the touched list tells of a key.
    pub(crate) fn touched_value(&self, key: &K) -> Option<&Option<V>>
        ensures { option_copied result ≡ value_at K.cmp self.now.touched key.now }
    {
        match self.tree.get(key) {
            Some(place) => listed_at(&self.touched, place.stamp, key),
            None => None,
        }
    }

    /// The entry under a key.
    pub(crate) fn get(&self, key: &K) -> Option<(&K, &V)>
        ensures key { option_map (λ entry. entry.0.now) result
            ≡ lookup_key (is_at (K.cmp key.now)) self.now.entries }
        ensures value { option_map (λ entry. entry.1.now) result
            ≡ value_at K.cmp self.now.entries key.now }
    {
        find(&self.tree, key)
    }

    /// The entry of the least key above `after`, or of the least key of all for None.
    pub(crate) fn next(&self, after: Option<&K>) -> Option<(&K, &V)>
        ensures { option_map (λ entry. (entry.0.now, entry.1.now)) result
            ≡ entry_above K.cmp self.now.entries (option_copied after.entry) }
    {
        first_from(&self.tree, start_above(after))
    }

    /// The entry of the least key at or above `from`.
    pub(crate) fn seek(&self, from: &K) -> Option<(&K, &V)>
        ensures { option_map (λ entry. (entry.0.now, entry.1.now)) result
            ≡ entry_from K.cmp self.now.entries from.now }
    {
        first_from(&self.tree, Bound::Included(from))
    }

    /// Lets a key have this value, or none, and touches it. Where memory is wanting, nothing changes.
    pub(crate) fn change(&mut self, key: &K, value: Option<V>) -> Result<(), TableFault>
        ensures ok { OnOk result (self.new ≡ record self.old {
          entries = changed K.cmp key.now value self.old.entries;
          touched = touched_with K.cmp self.old.touched self.old.entries key.now;
        }) }
        ensures err { OnErr result (self.new ≡ self.old) }
    {
        // It tells that the keys ascend, and that one more can be counted.
        let _ = self.tree.len();
        let has = value.is_some();
        let noted = key.copied()?;
        self.log.reserve(1)?;
        let before = exchange(self.alloc, &mut self.tree, &mut self.touched, key, value)?;
        let len = len_after(self.here.len, before.is_full(), has);
        note(
            &mut self.log,
            self.depth > 0,
            Undo {
                key: noted,
                before,
                point: self.here,
            },
        );
        self.here = Point { marks: 0, len };
        Ok(())
    }

    /// Opens a mark above those that are open. It takes no memory, and fails only where as many marks are open
    /// as a `usize` counts.
    pub(crate) fn mark(&mut self) -> Result<(), TableFault>
        ensures ok { OnOk result
            (self.new ≡ record self.old { marks = self.old.marks ++ self.old.entries ∷ [] }) }
        ensures err { OnErr result (self.new ≡ self.old) }
        ensures succeeds { length self.old.marks < usize.MAX → IsOk result }
    {
        let Some(more) = self.depth.checked_add(1) else {
            return Err(TableFault::NoMemory);
        };
        self.depth = more;
        self.here.marks += 1;
        Ok(())
    }

    /// Goes back to the latest mark and closes it.
    pub(crate) fn back(&mut self)
        requires { 0 < length self.old.marks }
        ensures restored { self.new.marks ++ self.new.entries ∷ [] ≡ self.old.marks }
        ensures touched { self.new.touched ≡ self.old.touched }
    {
        rewind(&mut self.tree, &mut self.log, &mut self.here);
        self.here.marks -= 1;
        self.depth -= 1;
        clear(&mut self.log, self.depth);
    }

    /// Closes the latest mark.
    pub(crate) fn forget(&mut self)
        requires { 0 < length self.old.marks }
        ensures entries { self.new.entries ≡ self.old.entries }
        ensures closed { (last : List (K × V)) × (self.new.marks ++ last ∷ [] ≡ self.old.marks) }
        ensures touched { self.new.touched ≡ self.old.touched }
    {
        close(&mut self.log, &mut self.here);
        self.depth -= 1;
        clear(&mut self.log, self.depth);
    }

    /// Lists no key as touched any more, and takes the places out that are empty. It takes no memory.
    pub(crate) fn settle(&mut self)
        requires { self.old.marks ≡ [] }
        ensures { self.new ≡ record self.old { touched = [] } }
    {
        sweep(&mut self.tree, &self.touched, self.here.len);
        empty(self.alloc, &mut self.touched);
    }
}

/// Where the entries above this key start, or all entries for None.
fn start_above<K>(after: Option<&K>) -> Bound<&K>
    ensures { bound_map (λ key. key.now) result ≡ bound_above (option_copied after.entry) }
{
    match after {
        None => Bound::Unbounded,
        Some(key) => Bound::Excluded(key),
    }
}

/// How many entries are seen once a key that had a value, or none, has one, or none.
fn len_after(len: usize, had: bool, has: bool) -> usize
    requires some { had ≡ true → 0 < len }
    requires few { len < 2 ^ 63 }
    ensures { result ≡ len_changed len had has }
{
    match (had, has) {
        (false, true) => len + 1,
        (true, false) => len - 1,
        _ => len,
    }
}

/// Notes a change where a mark is open. There is room for it.
fn note<K: Copied, V: Copied>(log: &mut Vec<Undo<K, V>>, marked: bool, undo: Undo<K, V>)
    requires { vec_len log.old < vec_capacity log.old }
    ensures { log.new.items ≡ (if marked then log.old.items ++ undo ∷ [] else log.old.items) }
{
    if marked {
        log.push_reserved(undo);
    }
}

/// Empties a list, in time in proportion to its keys: a short one keeps its room, and a long one is let go of.
fn empty<K: Ord + Hash + Copied, V: Copied>(alloc: Global, list: &mut IndexMap<K, Option<V>>)
    ensures { list.new.entries ≡ [] }
{
    if list.len() <= ROOM_KEPT {
        list.truncate(0);
    } else {
        *list = IndexMap::new(alloc);
    }
}
