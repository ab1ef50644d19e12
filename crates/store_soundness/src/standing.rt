//! Purses, periods and starts, which stand exactly for validators and delegations.

ghost use Rattle.std.specs.Prelude.{◌≡◌, is_some};
ghost use Rattle.std.specs.List.{list_all};
ghost use Rattle.base_types.specs.Orders.{addr_cmp};
ghost use Rattle.base_roles.specs.Entries.{at};
ghost use Rattle.store_records.specs.Plain.{lists_seen};
ghost use Rattle.store_soundness.specs.Standing.{are_begun, has_keys_of, have_same_keys, is_before, is_begun, stands_for_stakes};

use base_roles::StartingInfo;
use base_types::Addr;
use std::collections::BTreeMap;
use store_records::PlainLists;

/// Whether each key of the first map stands in the second.
fn has_keys_of<K: Ord + Copy, V, W>(keys: &BTreeMap<K, V>, there: &BTreeMap<K, W>) -> bool
    ensures { result ≡ has_keys_of K.cmp keys.now.entries there.now.entries }
{
    keys.keys().all(|key| there.contains_key(key))
}

/// Whether two maps have the same keys.
fn have_same_keys<K: Ord + Copy, V, W>(some: &BTreeMap<K, V>, others: &BTreeMap<K, W>) -> bool
    ensures { result ≡ have_same_keys K.cmp some.now.entries others.now.entries }
{
    has_keys_of(some, others) && has_keys_of(others, some)
}

/// Whether a period is below the one that runs.
pub(crate) fn is_before(period: u64, currents: &BTreeMap<Addr, u64>, operator: &Addr) -> bool
    ensures { result ≡ is_before period (at addr_cmp currents.now.entries operator.now) }
{
    match currents.get(operator) {
        Some(current) => period < *current,
        None => false,
    }
}

/// Whether a start is before the period that runs, at a height that was.
fn is_begun(
    height: u64,
    currents: &BTreeMap<Addr, u64>,
    operator: &Addr,
    info: &StartingInfo,
) -> bool
    ensures { result ≡ is_begun height currents.now.entries operator.now info.now }
{
    is_before(info.period, currents, operator) && info.height <= height
}

/// Whether all starts are so.
fn are_begun(
    height: u64,
    currents: &BTreeMap<Addr, u64>,
    starts: &BTreeMap<(Addr, Addr), StartingInfo>,
) -> bool
    ensures { result ≡ are_begun height currents.now.entries starts.now.entries }
{
    starts
        .iter()
        .all(|(who, info)| is_begun(height, currents, &who.0, info))
}

/// Whether purses and periods stand exactly for validators, and starts for delegations.
pub(crate) fn stands_for_stakes(height: u64, lists: &PlainLists) -> bool
    ensures { result ≡ stands_for_stakes height (lists_seen lists.now) }
{
    let shared = &lists.shared;
    have_same_keys(&lists.validators, &shared.purses)
        && have_same_keys(&lists.validators, &shared.currents)
        && have_same_keys(&lists.delegations, &shared.starts)
        && are_begun(height, &shared.currents, &shared.starts)
}
