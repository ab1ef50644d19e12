//! What a slash finds of entries.

ghost use Rattle.std.specs.Prelude.{◌≡◌, ◌+◌, ◌*◌, ◌^◌, ◌≤◌, length, map, All, if◌then◌else◌};
ghost use Rattle.base_roles.specs.Orders.{same_addr};
ghost use Rattle.rule_modules.specs.EntrySlashes.{is_hit, part_of, counted, counted_of};
ghost use Rattle.mod_entries.specs.Lists.{is_mature, list_at, AreFew};
ghost use Rattle.mod_entries.specs.Slashed.{all_counted};
ghost use Rattle.mod_entries.specs.Sources.{from_operator};

use crate::entries::Entries;
use crate::entry::{Entry, EntryKey};
use base_decimals::Dec;
use base_types::{Addr, Moment, Steps};
use std::cmp::Ordering;
use std::sync::ledger::Ledger;

/// What a slash counts at most.
const MOST: u128 = 1_000_000_000_000_000_000;

/// Whether an entry is mature at a moment (`UnbondingDelegationEntry.IsMature`).
pub fn is_mature<E: Entry>(entry: &E, now: Moment) -> bool
    ensures { result ≡ is_mature E.made now entry.now }
{
    entry.completes().nanos() <= now.nanos()
}

/// Whether an entry is slashed by an infraction at a height.
pub fn is_hit<E: Entry>(entry: &E, infraction: u64, now: Moment) -> bool
    ensures { result ≡ is_hit infraction now
        (E.made entry.now).created (E.made entry.now).completes }
{
    infraction <= entry.created() && !is_mature(entry, now)
}

/// The part of an entry's initial amount that a factor takes, cut.
pub fn part_of<E: Entry>(entry: &E, factor: Dec) -> u128
    requires factor { factor ≤ 10 ^ 18 }
    requires initial { (E.made entry.now).initial ≤ 10 ^ 18 }
    ensures value { result ≡ part_of factor (E.made entry.now).initial }
    ensures most { result ≤ 10 ^ 18 }
{
    entry.initial() * factor.raw() / 1_000_000_000_000_000_000
}

/// What a slash counts of one entry: where it is slashed, the part of its initial amount.
fn part_counted<E: Entry>(entry: &E, infraction: u64, factor: Dec, now: Moment) -> u128
    requires factor { factor ≤ 10 ^ 18 }
    requires initial { (E.made entry.now).initial ≤ 10 ^ 18 }
    ensures value { result ≡ (if is_hit infraction now (E.made entry.now).created
        (E.made entry.now).completes then part_of factor (E.made entry.now).initial else 0) }
    ensures most { result ≤ 10 ^ 18 }
{
    if is_hit(entry, infraction, now) {
        part_of(entry, factor)
    } else {
        0
    }
}

/// What a slash counts of entries: of each that is slashed the part of its initial amount.
pub fn counted_of<E: Entry>(entries: &[E], infraction: u64, factor: Dec, now: Moment) -> u128
    requires factor { factor ≤ 10 ^ 18 }
    requires few { length entries.now ≤ 100 }
    requires initials { All (λ e. (E.made e).initial ≤ 10 ^ 18) entries.now }
    ensures value { result ≡ counted_of infraction factor now (map E.made entries.now) }
    ensures most { result ≤ 10 ^ 20 }
{
    let mut sum: u128 = 0;
    for entry in entries {
        sum += part_counted(entry, infraction, factor, now);
    }
    sum
}

/// So much, and 10^18 where it is more.
fn counted(amount: u128) -> u128
    ensures value { result ≡ counted amount }
    ensures most { result ≤ 10 ^ 18 }
{
    if amount < MOST { amount } else { MOST }
}

/// Whether two addresses are one.
pub fn is_same(a: &Addr, b: &Addr) -> bool
    ensures { result ≡ same_addr a.now b.now }
{
    a.cmp(b) == Ordering::Equal
}

impl<K: EntryKey, E: Entry> Entries<K, E> {
    /// What a slash counts of all entries from an operator, and 10^18 where that is more. It takes two steps
    /// for each key of these, and one more.
    pub fn counted<L: Ledger>(
        &self,
        operator: &Addr,
        infraction: u64,
        factor: Dec,
        now: Moment,
        steps: &mut Steps<L>,
    ) -> u128
        requires factor { factor ≤ 10 ^ 18 }
        requires entries { AreFew K.cmp E.made self.now.lists }
        ensures value { result ≡ counted (all_counted K.source E.made
            operator.now infraction factor now self.now.lists) }
        ensures most { result ≤ 10 ^ 18 }
        ensures cost { steps.new ≤ steps.old
            + 2 * length (from_operator K.source operator.now self.now.lists) + 1 }
    {
        self.known();
        let mut sum: u128 = 0;
        let mut after: Option<K> = None;
        while let Some(key) = self.next_from(operator, after.as_ref(), steps) {
            let part = self.counted_at(key, infraction, factor, now, steps);
            let next = counted(sum + part);
            sum = next;
            after = Some(*key);
        }
        sum
    }

    /// What a slash counts of the entries of a key.
    fn counted_at<L: Ledger>(
        &self,
        key: &K,
        infraction: u64,
        factor: Dec,
        now: Moment,
        steps: &mut Steps<L>,
    ) -> u128
        requires factor { factor ≤ 10 ^ 18 }
        requires entries { AreFew K.cmp E.made self.now.lists }
        ensures value { result ≡ counted_of infraction factor now
            (map E.made (list_at K.cmp self.now.lists key.now)) }
        ensures most { result ≤ 10 ^ 20 }
        ensures cost { steps.new ≡ steps.old + 1 }
    {
        match self.at(key, steps) {
            Some(list) => counted_of(list.as_slice(), infraction, factor, now),
            None => 0,
        }
    }
}
