//! The ways to entries: tables that tell their keys by what is asked of them.

ghost use Rattle.std.specs.Prelude.{◌≡◌, ◌+◌, ◌≤◌, ◌<◌, [], length, false, Some, None, OnOk, OnErr, if◌then◌else◌};
ghost use Rattle.std.specs.List.Sorted.{IsStrictlySortedBy};
ghost use Rattle.std.specs.Map.{keys_of};
ghost use Rattle.base_types.specs.Orders.{addr_cmp, moment_cmp};
ghost use Rattle.base_roles.specs.Orders.{both_cmp};
ghost use Rattle.base_table.specs.Tabled.{empty_table, with_mark, settled_now, IsForgotten, IsGoneBack};
ghost use Rattle.mod_entries.specs.Queue.{completion_cmp};
ghost use Rattle.mod_entries.specs.Ways.{queued, unqueued};

use crate::entry::EntryKey;
use base_records::mark_both;
use base_table::{Table, TableFault};
use base_types::{Addr, Copied, Moment, Steps};
use std::alloc::Global;
use std::hash::Hash;
use std::sync::ledger::Ledger;

/// The ways to a key: under the earliest completion of its entries, so that what completes first is found
/// without a walk over all keys, and under its source, so that the keys of an operator are.
#[derive(Drop)]
pub(crate) struct Ways<K: EntryKey> {
    pub(crate) queue: Table<(Moment, K), bool>,
    pub(crate) sources: Table<(Addr, K), bool>,
}

impl<K: EntryKey> Ways<K> {
    /// No ways. Takes no memory.
    pub(crate) fn new(alloc: Global) -> Ways<K>
        ensures queue { result.queue ≡ empty_table }
        ensures sources { result.sources ≡ empty_table }
    {
        Ways {
            queue: Table::new(alloc),
            sources: Table::new(alloc),
        }
    }

    /// It tells that the places of both ways ascend. It does nothing.
    pub(crate) fn known(&self)
        ensures queue { IsStrictlySortedBy (completion_cmp K.cmp)
            (keys_of self.now.queue.entries) }
        ensures sources { IsStrictlySortedBy (both_cmp addr_cmp K.cmp)
            (keys_of self.now.sources.entries) }
    {
        self.queue.known();
        self.sources.known();
    }

    /// Opens a mark of both ways, or of none.
    pub(crate) fn mark(&mut self) -> Result<(), TableFault>
        ensures queue { OnOk result (self.new.queue ≡ with_mark self.old.queue) }
        ensures sources { OnOk result (self.new.sources ≡ with_mark self.old.sources) }
        ensures err { OnErr result (self.new ≡ self.old) }
    {
        mark_both(&mut self.queue, &mut self.sources)
    }

    /// Goes back to the latest mark of both ways, and closes it.
    pub(crate) fn back(&mut self)
        requires queue { 0 < length self.old.queue.marks }
        requires sources { 0 < length self.old.sources.marks }
        ensures queue { IsGoneBack self.old.queue self.new.queue }
        ensures sources { IsGoneBack self.old.sources self.new.sources }
    {
        self.queue.back();
        self.sources.back();
    }

    /// Closes the latest mark of both ways, and keeps them as they are.
    pub(crate) fn forget(&mut self)
        requires queue { 0 < length self.old.queue.marks }
        requires sources { 0 < length self.old.sources.marks }
        ensures queue { IsForgotten self.old.queue self.new.queue }
        ensures sources { IsForgotten self.old.sources self.new.sources }
    {
        self.queue.forget();
        self.sources.forget();
    }

    /// Settles both ways.
    pub(crate) fn settle(&mut self)
        requires queue { self.old.queue.marks ≡ [] }
        requires sources { self.old.sources.marks ≡ [] }
        ensures queue { self.new.queue ≡ settled_now self.old.queue }
        ensures sources { self.new.sources ≡ settled_now self.old.sources }
    {
        self.queue.settle();
        self.sources.settle();
    }

    /// Lets a key stand under the earliest completion that it has now in place of the one that it had, and
    /// under its source, where it did not stand there. Where memory is wanting, the ways may have changed.
    pub(crate) fn put<L: Ledger>(
        &mut self,
        key: &K,
        stood: bool,
        was: Option<Moment>,
        now: Option<Moment>,
        steps: &mut Steps<L>,
    ) -> Result<(), TableFault>
        requires new { stood ≡ false → was ≡ None }
        ensures queue { OnOk result (self.new.queue.entries ≡ queued moment_cmp K.cmp key.now now
            (unqueued moment_cmp K.cmp key.now was self.old.queue.entries)) }
        ensures sources { OnOk result (self.new.sources.entries
            ≡ (if stood then self.old.sources.entries else queued addr_cmp K.cmp key.now
            (Some (K.source key.now)) self.old.sources.entries)) }
        ensures queue_marks { self.new.queue.marks ≡ self.old.queue.marks }
        ensures source_marks { self.new.sources.marks ≡ self.old.sources.marks }
        ensures cost { steps.new ≤ steps.old + 2 }
    {
        if stood {
            unqueue(&mut self.queue, key, was, steps)?;
            return enqueue(&mut self.queue, key, now, steps);
        }
        enqueue(&mut self.queue, key, now, steps)?;
        enqueue(&mut self.sources, key, Some(*key.source()), steps)
    }

    /// Takes a key out from under the earliest completion that it had, and from under its source, where it
    /// stood there. Where memory is wanting, the ways may have changed.
    pub(crate) fn take<L: Ledger>(
        &mut self,
        key: &K,
        stood: bool,
        was: Option<Moment>,
        steps: &mut Steps<L>,
    ) -> Result<(), TableFault>
        ensures queue { OnOk result (self.new.queue.entries
            ≡ unqueued moment_cmp K.cmp key.now was self.old.queue.entries) }
        ensures sources { OnOk result (self.new.sources.entries
            ≡ (if stood then unqueued addr_cmp K.cmp key.now (Some (K.source key.now))
            self.old.sources.entries else self.old.sources.entries)) }
        ensures queue_marks { self.new.queue.marks ≡ self.old.queue.marks }
        ensures source_marks { self.new.sources.marks ≡ self.old.sources.marks }
        ensures cost { steps.new ≤ steps.old + 2 }
    {
        unqueue(&mut self.queue, key, was, steps)?;
        if !stood {
            return Ok(());
        }
        unqueue(&mut self.sources, key, Some(*key.source()), steps)
    }
}

/// Takes a key out from under its place, where it has one.
fn unqueue<P: Ord + Hash + Copied + Copy, K: EntryKey, L: Ledger>(
    way: &mut Table<(P, K), bool>,
    key: &K,
    was: Option<P>,
    steps: &mut Steps<L>,
) -> Result<(), TableFault>
    ensures entries { OnOk result
        (way.new.entries ≡ unqueued P.cmp K.cmp key.now was way.old.entries) }
    ensures marks { way.new.marks ≡ way.old.marks }
    ensures cost { steps.new ≤ steps.old + 1 }
{
    if let Some(place) = was {
        way.remove(&(place, *key), steps)?;
    }
    Ok(())
}

/// Puts a key under its place, where it has one.
fn enqueue<P: Ord + Hash + Copied + Copy, K: EntryKey, L: Ledger>(
    way: &mut Table<(P, K), bool>,
    key: &K,
    now: Option<P>,
    steps: &mut Steps<L>,
) -> Result<(), TableFault>
    ensures entries { OnOk result
        (way.new.entries ≡ queued P.cmp K.cmp key.now now way.old.entries) }
    ensures marks { way.new.marks ≡ way.old.marks }
    ensures cost { steps.new ≤ steps.old + 1 }
{
    if let Some(place) = now {
        way.put(&(place, *key), true, steps)?;
    }
    Ok(())
}
