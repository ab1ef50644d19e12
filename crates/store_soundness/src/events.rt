//! Slash events.

ghost use Rattle.std.specs.Prelude.{◌≡◌, None};
ghost use Rattle.std.specs.List.{list_all};
ghost use Rattle.store_soundness.specs.Events.{are_events_sound, are_later, is_event_sound, is_later};
ghost use Rattle.store_records.specs.Plain.{shared_seen};

use crate::ranges::is_part;
use crate::standing::is_before;
use crate::tally::is_same;
use base_decimals::Dec;
use base_types::Addr;
use std::collections::BTreeMap;
use store_records::PlainShared;

/// Whether a slash event is of at most all, before the period that runs, at a height that was.
fn is_event_sound(
    height: u64,
    currents: &BTreeMap<Addr, u64>,
    key: &(Addr, u64, u64),
    fraction: Dec,
) -> bool
    ensures { result ≡ is_event_sound height currents.now.entries key.now fraction }
{
    is_before(key.2, currents, &key.0) && key.1 <= height && is_part(fraction)
}

/// Whether all slash events are so.
fn are_in_range(height: u64, shared: &PlainShared) -> bool
    ensures { result ≡ list_all (λ e. is_event_sound height shared.now.currents.entries e.0 e.1)
        shared.now.events.entries }
{
    let currents = &shared.currents;
    shared.events.iter().all(|(key, fraction)| is_event_sound(height, currents, key, *fraction))
}

/// Whether an event has a later period than the last one, if that is of the same operator.
fn is_later(last: &Option<(Addr, u64)>, key: &(Addr, u64, u64)) -> bool
    ensures { result ≡ is_later last.now key.now }
{
    match last {
        Some(last) => !is_same(&last.0, &key.0) || last.1 < key.2,
        None => true,
    }
}

/// Whether periods grow with the heights.
fn are_later(events: &BTreeMap<(Addr, u64, u64), Dec>) -> bool
    ensures { result ≡ are_later None events.now.entries }
{
    let mut last = None;
    for (key, _) in events {
        if !is_later(&last, key) {
            return false;
        }
        last = Some((key.0, key.2));
    }
    true
}

/// Whether slash events are in their ranges, and their periods grow with the heights.
pub(crate) fn are_events_sound(height: u64, shared: &PlainShared) -> bool
    ensures { result ≡ are_events_sound height (shared_seen shared.now) }
{
    are_in_range(height, shared) && are_later(&shared.events)
}
