//! The keys that have a mature entry, and what stays of their entries.

ghost use Rattle.std.specs.Prelude.{◌≡◌, ◌+◌, ◌≤◌, length, IfOk};
ghost use Rattle.mod_entries.specs.Lists.{unmatured};
ghost use Rattle.mod_entries.specs.Queue.{IsQueue, due_in};
ghost use Rattle.mod_entries.specs.Walked.{keys_where, is_due};

use crate::entry::{Entry, EntryKey};
use crate::slashing::is_mature;
use base_roles::Listed;
use base_table::{Table, TableFault};
use base_types::{Moment, Steps};
use std::alloc::Global;
use std::sync::ledger::Ledger;

/// The keys that have a mature entry, in their order.
pub(crate) fn due<K: EntryKey, E: Entry, L: Ledger>(
    alloc: Global,
    lists: &Table<K, Listed<E>>,
    queue: &Table<(Moment, K), bool>,
    now: Moment,
    steps: &mut Steps<L>,
) -> Result<Vec<K>, TableFault>
    requires queue { IsQueue K.cmp E.made lists.now.entries queue.now.entries }
    ensures keys { IfOk result (λ keys.
        keys.items ≡ keys_where (is_due E.made now) lists.now.entries) }
    ensures cost { steps.new ≤ steps.old
        + length (keys_where (is_due E.made now) lists.now.entries) + 1 }
{
    lists.known();
    queue.known();
    let mut keys = queued(alloc, queue, now, steps)?;
    // Each key stands once in the queue.
    keys.sort_unstable();
    Ok(keys)
}

/// The keys that have a mature entry, in the order of the queue.
fn queued<K: EntryKey, L: Ledger>(
    alloc: Global,
    queue: &Table<(Moment, K), bool>,
    now: Moment,
    steps: &mut Steps<L>,
) -> Result<Vec<K>, TableFault>
    ensures keys { IfOk result (λ keys. keys.items ≡ due_in now queue.now.entries) }
    ensures cost { steps.new ≤ steps.old + length (due_in now queue.now.entries) + 1 }
{
    queue.known();
    let mut keys = Vec::new(alloc);
    let mut after: Option<(Moment, K)> = None;
    while let Some((place, _stands)) = queue.next(after.as_ref(), steps) {
        if now.nanos() < place.0.nanos() {
            return Ok(keys);
        }
        keys.push(place.1)?;
        after = Some(*place);
    }
    Ok(keys)
}

/// The entries that are not mature.
pub(crate) fn unmatured<E: Entry>(
    alloc: Global,
    entries: &[E],
    now: Moment,
) -> Result<Listed<E>, TableFault>
    ensures { IfOk result (λ list. list ≡ unmatured E.made now entries.now) }
{
    let mut list = Vec::new(alloc);
    for entry in entries {
        if !is_mature(entry, now) {
            list.push(*entry)?;
        }
    }
    Ok(Listed::of(list))
}
