//! The entries of a key that change with the ways to them.

ghost use Rattle.std.specs.Prelude.{◌≡◌, ◌+◌, ◌≤◌, false, Some, None, is_some, OnOk, OnErr, if◌then◌else◌};
ghost use Rattle.base_types.specs.Orders.{addr_cmp, moment_cmp};
ghost use Rattle.base_table.specs.Tabled.{with_value, without_key};
ghost use Rattle.base_roles.specs.Entries.{at};
ghost use Rattle.mod_entries.specs.Lists.{list_at};
ghost use Rattle.mod_entries.specs.Queue.{earliest, sooner, IsQueue};
ghost use Rattle.mod_entries.specs.Sources.{AreSourced};
ghost use Rattle.mod_entries.specs.Together.{Stays};
ghost use Rattle.mod_entries.specs.Ways.{queued, unqueued};

use crate::entry::{Entry, EntryKey};
use crate::ways::Ways;
use base_roles::Listed;
use base_table::{Table, TableFault};
use base_types::{Moment, Steps};
use std::sync::ledger::Ledger;

/// Puts entries under a key, with the ways to them. Where memory is wanting, the entries of all tables stay.
pub(crate) fn put_both<K: EntryKey, E: Entry, L: Ledger>(
    lists: &mut Table<K, Listed<E>>,
    ways: &mut Ways<K>,
    key: &K,
    list: Listed<E>,
    steps: &mut Steps<L>,
) -> Result<(), TableFault>
    requires queue { IsQueue K.cmp E.made lists.old.entries ways.old.queue.entries }
    requires sources { AreSourced K.cmp K.source lists.old.entries ways.old.sources.entries }
    ensures lists { OnOk result (lists.new ≡ with_value K.cmp lists.old key.now list) }
    ensures queue { OnOk result
        (IsQueue K.cmp E.made lists.new.entries ways.new.queue.entries) }
    ensures sources { OnOk result
        (AreSourced K.cmp K.source lists.new.entries ways.new.sources.entries) }
    ensures lists_stay { OnErr result (Stays lists.old lists.new) }
    ensures queue_stays { OnErr result (ways.new.queue.entries ≡ ways.old.queue.entries) }
    ensures sources_stay { OnErr result (ways.new.sources.entries ≡ ways.old.sources.entries) }
    ensures queue_marks { ways.new.queue.marks ≡ ways.old.queue.marks }
    ensures source_marks { ways.new.sources.marks ≡ ways.old.sources.marks }
    ensures cost { steps.new ≤ steps.old + 4 }
{
    lists.known();
    ways.known();
    let (stood, was) = stood_at(lists, key, steps);
    let now = earliest(list.as_slice());
    ways.mark()?;
    match put_all(lists, ways, key, list, stood, was, now, steps) {
        Ok(()) => {
            ways.forget();
            Ok(())
        }
        Err(fault) => {
            ways.back();
            Err(fault)
        }
    }
}

/// Puts entries under a key, and the key under its places. Where memory is wanting, the ways may have
/// changed.
fn put_all<K: EntryKey, E: Entry, L: Ledger>(
    lists: &mut Table<K, Listed<E>>,
    ways: &mut Ways<K>,
    key: &K,
    list: Listed<E>,
    stood: bool,
    was: Option<Moment>,
    now: Option<Moment>,
    steps: &mut Steps<L>,
) -> Result<(), TableFault>
    requires new { stood ≡ false → was ≡ None }
    ensures lists { OnOk result (lists.new ≡ with_value K.cmp lists.old key.now list) }
    ensures queue { OnOk result (ways.new.queue.entries ≡ queued moment_cmp K.cmp key.now now
        (unqueued moment_cmp K.cmp key.now was ways.old.queue.entries)) }
    ensures sources { OnOk result (ways.new.sources.entries ≡ (if stood
        then ways.old.sources.entries else queued addr_cmp K.cmp key.now
        (Some (K.source key.now)) ways.old.sources.entries)) }
    ensures lists_stay { OnErr result (Stays lists.old lists.new) }
    ensures queue_marks { ways.new.queue.marks ≡ ways.old.queue.marks }
    ensures source_marks { ways.new.sources.marks ≡ ways.old.sources.marks }
    ensures cost { steps.new ≤ steps.old + 3 }
{
    ways.put(key, stood, was, now, steps)?;
    lists.put(key, list, steps)
}

/// Takes the entries under a key out, with the ways to them. Where memory is wanting, the entries of all
/// tables stay.
pub(crate) fn take_both<K: EntryKey, E: Entry, L: Ledger>(
    lists: &mut Table<K, Listed<E>>,
    ways: &mut Ways<K>,
    key: &K,
    steps: &mut Steps<L>,
) -> Result<(), TableFault>
    requires queue { IsQueue K.cmp E.made lists.old.entries ways.old.queue.entries }
    requires sources { AreSourced K.cmp K.source lists.old.entries ways.old.sources.entries }
    ensures lists { OnOk result (lists.new ≡ without_key K.cmp lists.old key.now) }
    ensures queue { OnOk result
        (IsQueue K.cmp E.made lists.new.entries ways.new.queue.entries) }
    ensures sources { OnOk result
        (AreSourced K.cmp K.source lists.new.entries ways.new.sources.entries) }
    ensures lists_stay { OnErr result (Stays lists.old lists.new) }
    ensures queue_stays { OnErr result (ways.new.queue.entries ≡ ways.old.queue.entries) }
    ensures sources_stay { OnErr result (ways.new.sources.entries ≡ ways.old.sources.entries) }
    ensures queue_marks { ways.new.queue.marks ≡ ways.old.queue.marks }
    ensures source_marks { ways.new.sources.marks ≡ ways.old.sources.marks }
    ensures cost { steps.new ≤ steps.old + 4 }
{
    lists.known();
    ways.known();
    let (stood, was) = stood_at(lists, key, steps);
    ways.mark()?;
    match take_all(lists, ways, key, stood, was, steps) {
        Ok(()) => {
            ways.forget();
            Ok(())
        }
        Err(fault) => {
            ways.back();
            Err(fault)
        }
    }
}

/// Takes the entries under a key out, and the key from under its places. Where memory is wanting, the ways
/// may have changed.
fn take_all<K: EntryKey, E: Entry, L: Ledger>(
    lists: &mut Table<K, Listed<E>>,
    ways: &mut Ways<K>,
    key: &K,
    stood: bool,
    was: Option<Moment>,
    steps: &mut Steps<L>,
) -> Result<(), TableFault>
    ensures lists { OnOk result (lists.new ≡ without_key K.cmp lists.old key.now) }
    ensures queue { OnOk result (ways.new.queue.entries
        ≡ unqueued moment_cmp K.cmp key.now was ways.old.queue.entries) }
    ensures sources { OnOk result (ways.new.sources.entries ≡ (if stood
        then unqueued addr_cmp K.cmp key.now (Some (K.source key.now))
        ways.old.sources.entries else ways.old.sources.entries)) }
    ensures lists_stay { OnErr result (Stays lists.old lists.new) }
    ensures queue_marks { ways.new.queue.marks ≡ ways.old.queue.marks }
    ensures source_marks { ways.new.sources.marks ≡ ways.old.sources.marks }
    ensures cost { steps.new ≤ steps.old + 3 }
{
    ways.take(key, stood, was, steps)?;
    lists.remove(key, steps)?;
    Ok(())
}

/// Whether a key stands, and the earliest completion of its entries, where it has some.
fn stood_at<K: EntryKey, E: Entry, L: Ledger>(
    lists: &Table<K, Listed<E>>,
    key: &K,
    steps: &mut Steps<L>,
) -> (bool, Option<Moment>)
    ensures stood { result.0 ≡ is_some (at K.cmp lists.now.entries key.now) }
    ensures first { result.1 ≡ earliest E.made (list_at K.cmp lists.now.entries key.now) }
    ensures new { result.0 ≡ false → result.1 ≡ None }
    ensures cost { steps.new ≡ steps.old + 1 }
{
    match lists.get(key, steps) {
        Some(list) => (true, earliest(list.as_slice())),
        None => (false, None),
    }
}

/// The earliest completion of entries, or None where there are none.
fn earliest<E: Entry>(entries: &[E]) -> Option<Moment>
    ensures { result ≡ earliest E.made entries.now }
{
    let mut first = None;
    for entry in entries {
        first = Some(sooner(first, entry.completes()));
    }
    first
}

/// The sooner of two moments, of which the first may be none.
fn sooner(first: Option<Moment>, time: Moment) -> Moment
    ensures { result ≡ sooner first time }
{
    match first {
        None => time,
        Some(first) => {
            if first.nanos() < time.nanos() {
                first
            } else {
                time
            }
        }
    }
}
