//! The table: a map in the order of its keys, with marks to go back to, and the list of the keys that were touched.

ghost use Rattle.std.specs.Prelude.{◌≡◌, ◌+◌, ◌^◌, [], false, length, ◌<◌, IsOk, if◌then◌else◌, is_some, option_map, IfOk, OnOk, OnErr, IsErrOf, IsTrue, ◌↔◌};
ghost use Rattle.std.specs.List.Sorted.{IsStrictlySortedBy};
ghost use Rattle.std.specs.BTreeMap.{insert_entry, is_at};
ghost use Rattle.std.specs.Map.{keys_of, remove_entry};
ghost use Rattle.std.specs.Option.{option_copied};
ghost use Rattle.base_table.specs.Restored.{restored, KeepsSettled};
ghost use Rattle.base_table.specs.Tabled.{empty_table, entry_above, entry_from, settled_now, spent_now, touched_with, value_at, with_mark, with_value, without_key, IsForgotten, IsGoneBack, TellsSettled};

use crate::places::Places;
use base_types::{Copied, Steps, TableFault};
use indexmap::IndexMap;
use std::alloc::Global;
use std::hash::Hash;
use std::marker::Model;
use std::sync::ledger::Ledger;

/// A map in the order of its keys that can be marked and gone back, and that lists what was touched since
/// it was last settled. Contracts see it as a `Tabled`.
///
/// Keys that compare equal are one key, which is kept and listed as it was first put. Marks nest: the
/// latest open one is gone back to or forgotten first. A mark keeps no copy: while one is open, each change
/// notes what undoes it.
#[derive(Drop)]
pub struct Table<K: Ord + Hash + Copied, V: Copied> {
    places: Places<K, V>,
    spent: bool,
}

impl<K: Ord + Hash + Copied, V: Copied> Model for Table<K, V> {
    ghost use Rattle.base_table.specs.Restored.{restored, MarksRestore};
    ghost use Rattle.base_table.specs.Tabled.{Tabled};

    ghost Value = { Tabled K V };

    ghost view = { λ t. record {
      entries = t.places.entries;
      marks = t.places.marks;
      touched = t.places.touched;
      settled = restored K.cmp t.places.touched t.places.entries;
      spent = t.spent;
    } };

    ghost invariant = { λ t. MarksRestore K.cmp t.places.touched
        (restored K.cmp t.places.touched t.places.entries) t.places.marks };
}

impl<K: Ord + Hash + Copied, V: Copied> Table<K, V> {
    /// An empty table, which counts as settled. It takes no memory yet.
    pub fn new(alloc: Global) -> Table<K, V>
        ensures { result ≡ empty_table }
    {
        Table {
            places: Places::new(alloc),
            spent: false,
        }
    }

    /// How many entries there are. They stand in the strict order of their keys.
    pub fn len(&self) -> usize
        ensures len { result ≡ length self.now.entries }
        ensures ordered { IsStrictlySortedBy K.cmp (keys_of self.now.entries) }
    {
        self.places.len()
    }

    /// It tells that the keys ascend, how many entries there are at most, and what the touched list says of
    /// the last settling. It does nothing.
    pub fn known(&self)
        ensures ordered { IsStrictlySortedBy K.cmp (keys_of self.now.entries) }
        ensures few { length self.now.entries < 2 ^ 64 }
        ensures settled { TellsSettled K.cmp self.now }
    {
        let _entries = self.len();
        let _touched = self.touched();
    }

    /// The value under a key, or None where nothing stands under it. It counts one step.
    pub fn get<L: Ledger>(&self, key: &K, steps: &mut Steps<L>) -> Option<&V>
        ensures value { option_copied result ≡ value_at K.cmp self.now.entries key.now }
        ensures cost { steps.new ≡ steps.old + 1 }
    {
        steps.tick();
        match self.places.get(key) {
            Some((_, value)) => Some(value),
            None => None,
        }
    }

    /// Puts a value under a key, and touches the key. It counts one step.
    ///
    /// Where memory is wanting it answers `NoMemory`, and the table is spent: its entries stay, and each
    /// later change answers `Spent`.
    pub fn put<L: Ledger>(
        &mut self,
        key: &K,
        value: V,
        steps: &mut Steps<L>,
    ) -> Result<(), TableFault>
        ensures ok { OnOk result (self.new ≡ with_value K.cmp self.old key.now value) }
        ensures err { OnErr result (self.new ≡ spent_now self.old) }
        ensures spent { IsErrOf result TableFault.Spent ↔ IsTrue self.old.spent }
        ensures cost { steps.new ≡ steps.old + 1 }
    {
        steps.tick();
        if self.spent {
            return Err(TableFault::Spent);
        }
        match put_in(&mut self.places, key, value) {
            Ok(()) => Ok(()),
            Err(_) => {
                self.spent = true;
                Err(TableFault::NoMemory)
            }
        }
    }

    /// Takes a key out, touches it, and answers the value that it had, or None where it had none. It counts
    /// one step.
    ///
    /// Where memory is wanting it answers `NoMemory`, and the table is spent: its entries stay, and each
    /// later change answers `Spent`.
    pub fn remove<L: Ledger>(
        &mut self,
        key: &K,
        steps: &mut Steps<L>,
    ) -> Result<Option<V>, TableFault>
        ensures value { IfOk result (λ value. value ≡ value_at K.cmp self.old.entries key.now) }
        ensures ok { OnOk result (self.new ≡ without_key K.cmp self.old key.now) }
        ensures err { OnErr result (self.new ≡ spent_now self.old) }
        ensures spent { IsErrOf result TableFault.Spent ↔ IsTrue self.old.spent }
        ensures cost { steps.new ≡ steps.old + 1 }
    {
        steps.tick();
        if self.spent {
            return Err(TableFault::Spent);
        }
        match take_out(&mut self.places, key) {
            Ok(value) => Ok(value),
            Err(_) => {
                self.spent = true;
                Err(TableFault::NoMemory)
            }
        }
    }

    /// The entry of the least key above `after`, or of the least key of all for None. It answers None where
    /// there is none, and counts one step for an entry.
    pub fn next<L: Ledger>(&self, after: Option<&K>, steps: &mut Steps<L>) -> Option<(&K, &V)>
        ensures above { option_map (λ entry. (entry.0.now, entry.1.now)) result
            ≡ entry_above K.cmp self.now.entries (option_copied after.entry) }
        ensures cost { steps.new ≡ steps.old + (if is_some result then 1 else 0) }
    {
        let entry = self.places.next(after);
        count_item(&entry, steps);
        entry
    }

    /// The entry of the least key at or above `from`. It answers None where there is none, and counts one
    /// step for an entry.
    pub fn seek<L: Ledger>(&self, from: &K, steps: &mut Steps<L>) -> Option<(&K, &V)>
        ensures from { option_map (λ entry. (entry.0.now, entry.1.now)) result
            ≡ entry_from K.cmp self.now.entries from.now }
        ensures cost { steps.new ≡ steps.old + (if is_some result then 1 else 0) }
    {
        let entry = self.places.seek(from);
        count_item(&entry, steps);
        entry
    }

    /// Opens a mark above those that are open. It keeps no copy and takes no memory: of a table that is not
    /// spent it succeeds, unless as many marks are open as a `usize` counts. Then it answers `NoMemory`, and
    /// nothing changes.
    pub fn mark(&mut self) -> Result<(), TableFault>
        ensures ok { OnOk result (self.new ≡ with_mark self.old) }
        ensures err { OnErr result (self.new ≡ self.old) }
        ensures spent { IsErrOf result TableFault.Spent ↔ IsTrue self.old.spent }
        ensures succeeds { self.old.spent ≡ false → length self.old.marks < usize.MAX
            → IsOk result }
    {
        if self.spent {
            return Err(TableFault::Spent);
        }
        // It tells that the keys ascend.
        let _ = self.places.len();
        match self.places.mark() {
            Ok(()) => Ok(()),
            Err(_) => Err(TableFault::NoMemory),
        }
    }

    /// Goes back to the latest open mark and closes it: the entries are those of the mark. The touched list
    /// stays. It takes no memory.
    pub fn back(&mut self)
        requires some { 0 < length self.old.marks }
        ensures { IsGoneBack self.old self.new }
    {
        self.places.back();
    }

    /// Closes the latest open mark and keeps the entries as they are. It takes no memory.
    pub fn forget(&mut self)
        requires some { 0 < length self.old.marks }
        ensures { IsForgotten self.old self.new }
    {
        self.places.forget();
    }

    /// The keys put or removed since the table was last settled, in the order of their first touch, each
    /// with the value that it had then, or None where it had none.
    pub fn touched(&self) -> &IndexMap<K, Option<V>>
        ensures list { result.now.entries ≡ self.now.touched }
        ensures settled { TellsSettled K.cmp self.now }
    {
        // They tell that the keys ascend, and that none is listed twice.
        let _ = self.places.len();
        self.places.touched()
    }

    /// The value that a touched key had when the table was last settled, `Some(None)` where it had none. It
    /// answers None for a key that is not touched. It counts no step.
    pub fn touched_value(&self, key: &K) -> Option<&Option<V>>
        ensures { option_copied result ≡ value_at K.cmp self.now.touched key.now }
    {
        self.places.touched_value(key)
    }

    /// Settles the table: no key counts as touched any more. It takes no memory.
    pub fn settle(&mut self)
        requires closed { self.old.marks ≡ [] }
        ensures { self.new ≡ settled_now self.old }
    {
        self.places.settle();
    }
}

/// Puts a value under a key, and touches the key. Where memory is wanting, nothing changes.
fn put_in<K: Ord + Hash + Copied, V: Copied>(
    places: &mut Places<K, V>,
    key: &K,
    value: V,
) -> Result<(), TableFault>
    ensures places { OnOk result (places.new ≡ record places.old {
      entries = insert_entry K.cmp places.old.entries key.now value;
      touched = touched_with K.cmp places.old.touched
          (restored K.cmp places.old.touched places.old.entries) key.now;
    }) }
    ensures settled { OnOk result (KeepsSettled K.cmp places.old.touched places.old.entries
        places.new.touched places.new.entries) }
    ensures err { OnErr result (places.new ≡ places.old) }
{
    // It tells that the keys ascend.
    let _ = places.len();
    places.change(key, Some(value))?;
    Ok(())
}

/// Takes a key out and touches it, and answers a copy of the value that it had. Where memory is wanting,
/// nothing changes.
fn take_out<K: Ord + Hash + Copied, V: Copied>(
    places: &mut Places<K, V>,
    key: &K,
) -> Result<Option<V>, TableFault>
    ensures value { IfOk result (λ value. value ≡ value_at K.cmp places.old.entries key.now) }
    ensures places { OnOk result (places.new ≡ record places.old {
      entries = remove_entry (is_at (K.cmp key.now)) places.old.entries;
      touched = touched_with K.cmp places.old.touched
          (restored K.cmp places.old.touched places.old.entries) key.now;
    }) }
    ensures settled { OnOk result (KeepsSettled K.cmp places.old.touched places.old.entries
        places.new.touched places.new.entries) }
    ensures err { OnErr result (places.new ≡ places.old) }
{
    // It tells that the keys ascend.
    let _ = places.len();
    let value = value_of(places.get(key))?;
    places.change(key, None)?;
    Ok(value)
}

/// A copy of the value of an entry, where there is one.
fn value_of<K, V: Copied>(entry: Option<(&K, &V)>) -> Result<Option<V>, TableFault>
    ensures { IfOk result (λ value. value ≡ option_map (λ entry. entry.1.now) entry.entry) }
{
    match entry {
        Some((_, value)) => Ok(Some(value.copied()?)),
        None => Ok(None),
    }
}

/// Counts one step for an item of a walk, and none at its end.
fn count_item<T, L: Ledger>(item: &Option<T>, steps: &mut Steps<L>)
    ensures { steps.new ≡ steps.old + (if is_some item.now then 1 else 0) }
{
    if item.is_some() {
        steps.tick();
    }
}
