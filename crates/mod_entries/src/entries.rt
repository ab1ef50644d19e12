//! Lists of unbonding or redelegation entries by key, with the queue of what completes first (`x/staking`).

ghost use Rattle.std.specs.Prelude.{◌≡◌, ◌≢◌, ◌+◌, ◌≤◌, [], true, if◌then◌else◌, is_some, option_map, IfOk, OnOk, OnErr, IsErr, length};
ghost use Rattle.std.specs.List.Sorted.{IsStrictlySortedBy};
ghost use Rattle.std.specs.Map.{keys_of};
ghost use Rattle.std.specs.Option.{option_copied};
ghost use Rattle.base_table.specs.Tabled.{entry_above, entry_from};
ghost use Rattle.base_roles.specs.Entries.{at, with, without};
ghost use Rattle.mod_entries.specs.Kept.{nothing_kept, holding, spent_now, with_mark, settled_now, IsGoneBack, IsForgotten};
ghost use Rattle.mod_entries.specs.Lists.{list_at, with_list, unmatured, AllKeys};
ghost use Rattle.mod_entries.specs.Slashed.{is_from};
ghost use Rattle.mod_entries.specs.Sources.{from_operator};
ghost use Rattle.mod_entries.specs.Walked.{keys_where, is_due};

use crate::changing::{put_both, take_both};
use crate::due::{due, unmatured};
use crate::entry::{Entry, EntryKey};
use crate::sources::{keys_from, next_from};
use crate::ways::Ways;
use base_roles::Listed;
use base_table::{Table, TableFault};
use base_types::{Addr, Copied, Moment, Steps};
use std::alloc::Global;
use std::marker::Model;
use std::sync::ledger::Ledger;

/// Lists of entries by key, in tables. Contracts see them as they stand, at each open mark, and at the last
/// settling, and whether memory was wanting in a change.
///
/// Two more tables, the ways, have each key under the earliest completion of its entries and under its
/// source, so what completes first, and what is from an operator, is found without a walk over all keys.
/// Once memory was wanting in a change, each later change answers an error.
#[derive(Drop)]
pub struct Entries<K: EntryKey, E: Entry> {
    lists: Table<K, Listed<E>>,
    ways: Ways<K>,
    spent: bool,
}

impl<K: EntryKey, E: Entry> Model for Entries<K, E> {
    ghost use Rattle.mod_entries.specs.Kept.{Kept, kept};
    ghost use Rattle.mod_entries.specs.Together.{HaveSameMarks};

    ghost Value = { Kept K E };

    ghost view = { λ s. kept s.lists s.spent };

    ghost invariant = { λ s. HaveSameMarks K.cmp K.fits K.source E.made
        s.lists s.ways.queue s.ways.sources };
}

impl<K: EntryKey, E: Entry> Entries<K, E> {
    /// No entries. Takes no memory.
    pub fn new(alloc: Global) -> Entries<K, E>
        ensures { result ≡ nothing_kept }
    {
        Entries {
            lists: Table::new(alloc),
            ways: Ways::new(alloc),
            spent: false,
        }
    }

    /// It tells that the keys ascend, and that each is one of the type. It does nothing.
    pub fn known(&self)
        ensures ordered { IsStrictlySortedBy K.cmp (keys_of self.now.lists) }
        ensures fit { AllKeys K.fits self.now.lists }
    {
        self.lists.known();
    }

    /// Whether memory was wanting in a change.
    pub fn is_spent(&self) -> bool
        ensures { result ≡ self.now.spent }
    {
        self.spent
    }

    /// The table of the entries, to be listed.
    pub fn table(&self) -> &Table<K, Listed<E>>
        ensures entries { result.now.entries ≡ self.now.lists }
        ensures settled { result.now.settled ≡ self.now.settled }
    {
        &self.lists
    }

    /// Puts entries under a key, also none.
    ///
    /// The errors are `NoMemory`, where memory is wanting, and `Spent`, where it was wanting in an earlier
    /// change. Then the entries stay, and each later change answers an error.
    pub fn put<L: Ledger>(
        &mut self,
        key: &K,
        list: Listed<E>,
        steps: &mut Steps<L>,
    ) -> Result<(), TableFault>
        ensures ok { OnOk result
            (self.new ≡ holding (with K.cmp self.old.lists key.now list) self.old) }
        ensures err { OnErr result (self.new ≡ spent_now self.old) }
        ensures spent { self.old.spent ≡ true → IsErr result }
        ensures cost { steps.new ≤ steps.old + 4 }
    {
        if self.spent {
            return Err(TableFault::Spent);
        }
        key.known();
        match put_both(&mut self.lists, &mut self.ways, key, list, steps) {
            Ok(()) => Ok(()),
            Err(fault) => {
                self.spent = true;
                Err(fault)
            }
        }
    }

    /// Puts a copy of entries under a key, also of none.
    ///
    /// The errors are those of [`Entries::put`]; `NoMemory` comes also where there is no memory for the
    /// copy.
    pub fn put_copy<L: Ledger>(
        &mut self,
        key: &K,
        list: &Listed<E>,
        steps: &mut Steps<L>,
    ) -> Result<(), TableFault>
        ensures ok { OnOk result
            (self.new ≡ holding (with K.cmp self.old.lists key.now list.now) self.old) }
        ensures err { OnErr result (self.new ≡ spent_now self.old) }
        ensures spent { self.old.spent ≡ true → IsErr result }
        ensures cost { steps.new ≤ steps.old + 4 }
    {
        match list.copied() {
            Ok(copy) => self.put(key, copy, steps),
            Err(fault) => {
                self.spent = true;
                Err(fault)
            }
        }
    }

    /// Takes the entries of a key out.
    ///
    /// The errors are those of [`Entries::put`].
    pub fn take<L: Ledger>(&mut self, key: &K, steps: &mut Steps<L>) -> Result<(), TableFault>
        ensures ok { OnOk result
            (self.new ≡ holding (without K.cmp self.old.lists key.now) self.old) }
        ensures err { OnErr result (self.new ≡ spent_now self.old) }
        ensures spent { self.old.spent ≡ true → IsErr result }
        ensures cost { steps.new ≤ steps.old + 4 }
    {
        if self.spent {
            return Err(TableFault::Spent);
        }
        match take_both(&mut self.lists, &mut self.ways, key, steps) {
            Ok(()) => Ok(()),
            Err(fault) => {
                self.spent = true;
                Err(fault)
            }
        }
    }

    /// Keeps entries under a key, which goes where they are none.
    ///
    /// The errors are those of [`Entries::put`].
    pub fn set<L: Ledger>(
        &mut self,
        key: &K,
        list: Listed<E>,
        steps: &mut Steps<L>,
    ) -> Result<(), TableFault>
        ensures ok { OnOk result
            (self.new ≡ holding (with_list K.cmp key.now list self.old.lists) self.old) }
        ensures err { OnErr result (self.new ≡ spent_now self.old) }
        ensures spent { self.old.spent ≡ true → IsErr result }
        ensures cost { steps.new ≤ steps.old + 4 }
    {
        if list.len() == 0 {
            return self.take(key, steps);
        }
        self.put(key, list, steps)
    }

    /// The entries of a key, or None where there are none.
    pub fn at<L: Ledger>(&self, key: &K, steps: &mut Steps<L>) -> Option<&Listed<E>>
        ensures value { option_copied result ≡ at K.cmp self.now.lists key.now }
        ensures cost { steps.new ≡ steps.old + 1 }
    {
        self.lists.get(key, steps)
    }

    /// How many entries a key has.
    pub fn count<L: Ledger>(&self, key: &K, steps: &mut Steps<L>) -> usize
        ensures value { result ≡ length (list_at K.cmp self.now.lists key.now) }
        ensures cost { steps.new ≡ steps.old + 1 }
    {
        match self.at(key, steps) {
            Some(list) => list.len(),
            None => 0,
        }
    }

    /// The entries of the least key above `after`, or of the least key of all for None. It takes a step where
    /// there is one, and none else.
    pub fn next<L: Ledger>(
        &self,
        after: Option<&K>,
        steps: &mut Steps<L>,
    ) -> Option<(&K, &Listed<E>)>
        ensures above { option_map (λ entry. (entry.0.now, entry.1.now)) result
            ≡ entry_above K.cmp self.now.lists (option_copied after.entry) }
        ensures cost { steps.new ≡ steps.old + (if is_some result then 1 else 0) }
    {
        self.lists.next(after, steps)
    }

    /// The entries of the least key at or above `from`. It takes a step where there is one, and none else.
    pub fn seek<L: Ledger>(&self, from: &K, steps: &mut Steps<L>) -> Option<(&K, &Listed<E>)>
        ensures from { option_map (λ entry. (entry.0.now, entry.1.now)) result
            ≡ entry_from K.cmp self.now.lists from.now }
        ensures cost { steps.new ≡ steps.old + (if is_some result then 1 else 0) }
    {
        self.lists.seek(from, steps)
    }

    /// The keys that have a mature entry, in their order. It takes a step for each, and one more. The only
    /// error is `NoMemory`.
    pub fn due<L: Ledger>(
        &self,
        alloc: Global,
        now: Moment,
        steps: &mut Steps<L>,
    ) -> Result<Vec<K>, TableFault>
        ensures keys { IfOk result (λ keys.
            keys.items ≡ keys_where (is_due E.made now) self.now.lists) }
        ensures cost { steps.new ≤ steps.old
            + length (keys_where (is_due E.made now) self.now.lists) + 1 }
    {
        due(alloc, &self.lists, &self.ways.queue, now, steps)
    }

    /// The entries of a key that are not mature, also none. The only error is `NoMemory`.
    pub fn unmatured_at<L: Ledger>(
        &self,
        alloc: Global,
        key: &K,
        now: Moment,
        steps: &mut Steps<L>,
    ) -> Result<Listed<E>, TableFault>
        ensures left { IfOk result (λ list. list
            ≡ unmatured E.made now (list_at K.cmp self.now.lists key.now)) }
        ensures cost { steps.new ≡ steps.old + 1 }
    {
        match self.lists.get(key, steps) {
            Some(list) => unmatured(alloc, list.as_slice(), now),
            None => Ok(Listed::new(alloc)),
        }
    }

    /// The keys of entries from an operator, in their order. It takes a step for each of these, and one more.
    /// The only error is `NoMemory`.
    pub fn keys_from<L: Ledger>(
        &self,
        alloc: Global,
        operator: &Addr,
        steps: &mut Steps<L>,
    ) -> Result<Vec<K>, TableFault>
        ensures keys { IfOk result (λ keys.
            keys.items ≡ keys_where (is_from K.source operator.now) self.now.lists) }
        ensures cost { steps.new ≤ steps.old
            + length (from_operator K.source operator.now self.now.lists) + 1 }
    {
        keys_from(alloc, &self.lists, &self.ways.sources, operator, steps)
    }

    /// The least key of entries from an operator above `after`, or the least of all of them for None.
    pub(crate) fn next_from<L: Ledger>(
        &self,
        operator: &Addr,
        after: Option<&K>,
        steps: &mut Steps<L>,
    ) -> Option<&K>
        ensures key { option_copied result ≡ option_map (λ entry. entry.0) (entry_above K.cmp
            (from_operator K.source operator.now self.now.lists) (option_copied after.entry)) }
        ensures cost { steps.new ≤ steps.old + 1 }
    {
        next_from(&self.lists, &self.ways.sources, operator, after, steps)
    }

    /// Opens a mark.
    ///
    /// The errors are `Spent`, where memory was wanting in an earlier change, and `NoMemory`, where as many
    /// marks are open as a `usize` counts. Then nothing changes.
    pub fn mark(&mut self) -> Result<(), TableFault>
        ensures ok { OnOk result (self.new ≡ with_mark self.old) }
        ensures err { OnErr result (self.new ≡ self.old) }
        ensures spent { self.old.spent ≡ true → IsErr result }
    {
        if self.spent {
            return Err(TableFault::Spent);
        }
        self.lists.mark()?;
        match self.ways.mark() {
            Ok(()) => Ok(()),
            Err(fault) => {
                self.lists.back();
                Err(fault)
            }
        }
    }

    /// Restores the entries of the latest mark and closes it. Takes no memory.
    pub fn back(&mut self)
        requires { self.old.marks ≢ [] }
        ensures { IsGoneBack self.old self.new }
    {
        self.lists.back();
        self.ways.back();
    }

    /// Closes the latest mark, and changes nothing else. Takes no memory.
    pub fn forget(&mut self)
        requires { self.old.marks ≢ [] }
        ensures { IsForgotten self.old self.new }
    {
        self.lists.forget();
        self.ways.forget();
    }

    /// From now on changes are told from here. No mark is open. Takes no memory.
    pub fn settle(&mut self)
        requires { self.old.marks ≡ [] }
        ensures { self.new ≡ settled_now self.old }
    {
        self.lists.settle();
        self.ways.settle();
    }
}
