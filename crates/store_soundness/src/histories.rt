//! The records of ended periods, and how many refer to them.

ghost use Rattle.std.specs.Prelude.{◌≡◌, ◌-◌, IfOk, None, OnOk, option_map};
ghost use Rattle.std.specs.List.{list_all};
ghost use Rattle.std.specs.Map.Iter.{deref_pair};
ghost use Rattle.base_roles.specs.Entries.{number_at};
ghost use Rattle.store_soundness.specs.Histories.{are_counted, current_totals, do_ratios_grow, does_not_fall, event_totals, have_counts, is_at_most, is_counted, is_recorded, is_within, reference_totals, references_at, start_totals};
ghost use Rattle.store_records.specs.Plain.{period_cmp, shared_seen};

use crate::tally::{MOST, add_to, is_same, number_of};
use base_coins::DecCoins;
use base_decimals::Dec;
use base_roles::{Historical, StartingInfo};
use base_types::{Addr, Denom};
use std::alloc::{AllocError, Global};
use std::collections::BTreeMap;
use store_records::PlainShared;

/// The period before this one.
fn last_ended(period: u64) -> u64
    ensures { result ≡ period - 1 }
{
    if period == 0 { 0 } else { period - 1 }
}

/// Adds a reference to each last ended period.
fn add_currents(
    counts: &mut BTreeMap<(Addr, u64), u128>,
    currents: &BTreeMap<Addr, u64>,
) -> Result<(), AllocError>
    ensures { OnOk result
        (counts.new.entries ≡ current_totals currents.now.entries counts.old.entries) }
{
    for (operator, current) in currents {
        add_to(counts, (*operator, last_ended(*current)), 1)?;
    }
    Ok(())
}

/// Adds the references of starts.
fn add_starts(
    counts: &mut BTreeMap<(Addr, u64), u128>,
    starts: &BTreeMap<(Addr, Addr), StartingInfo>,
) -> Result<(), AllocError>
    ensures { OnOk result
        (counts.new.entries ≡ start_totals starts.now.entries counts.old.entries) }
{
    for (who, info) in starts {
        add_to(counts, (who.0, info.period), 1)?;
    }
    Ok(())
}

/// Adds the references of slash events.
fn add_events(
    counts: &mut BTreeMap<(Addr, u64), u128>,
    events: &BTreeMap<(Addr, u64, u64), Dec>,
) -> Result<(), AllocError>
    ensures { OnOk result
        (counts.new.entries ≡ event_totals events.now.entries counts.old.entries) }
{
    for (key, _) in events {
        add_to(counts, (key.0, key.2), 1)?;
    }
    Ok(())
}

/// How many refer to each period of each operator.
fn counts_of(alloc: Global, shared: &PlainShared) -> Result<BTreeMap<(Addr, u64), u128>, AllocError>
    ensures { IfOk result
        (λ counts. counts.entries ≡ reference_totals (shared_seen shared.now)) }
{
    let mut counts = BTreeMap::new(alloc);
    add_currents(&mut counts, &shared.currents)?;
    add_starts(&mut counts, &shared.starts)?;
    add_events(&mut counts, &shared.events)?;
    Ok(counts)
}

/// Whether a record has the number of references to its period, which is neither 0 nor 10^38 or more.
fn is_counted(count: u128, references: u128) -> bool
    ensures { result ≡ is_counted count references }
{
    0 < count && count < MOST && references == count
}

/// Whether the records have these numbers of references to their periods.
fn have_numbers(
    histories: &BTreeMap<(Addr, u64), Historical>,
    counts: &BTreeMap<(Addr, u64), u128>,
) -> bool
    ensures { result
        ≡ have_counts (number_at period_cmp counts.now.entries) histories.now.entries }
{
    histories.iter().all(|(key, history)| is_counted(history.count, number_of(counts, key)))
}

/// Whether the records have the numbers of references to their periods.
fn have_counts(alloc: Global, shared: &PlainShared) -> Result<bool, AllocError>
    ensures { IfOk result (λ have. have
        ≡ have_counts (references_at (shared_seen shared.now)) shared.now.histories.entries) }
{
    let counts = counts_of(alloc, shared)?;
    Ok(have_numbers(&shared.histories, &counts))
}

/// Whether the record of a period stands.
fn is_recorded(histories: &BTreeMap<(Addr, u64), Historical>, operator: &Addr, period: u64) -> bool
    ensures { result ≡ is_recorded histories.now.entries operator.now period }
{
    histories.contains_key(&(*operator, period))
}

/// Whether the records of the last ended periods stand.
fn are_ends_recorded(shared: &PlainShared) -> bool
    ensures { result ≡ list_all (λ e. is_recorded shared.now.histories.entries e.0 (e.1 - 1))
        shared.now.currents.entries }
{
    let histories = &shared.histories;
    shared.currents.iter().all(|(operator, current)| is_recorded(
        histories,
        operator,
        last_ended(*current),
    ))
}

/// Whether the records of the periods of starts stand.
fn are_starts_recorded(shared: &PlainShared) -> bool
    ensures { result ≡ list_all (λ e. is_recorded shared.now.histories.entries e.0.0 e.1.period)
        shared.now.starts.entries }
{
    let histories = &shared.histories;
    shared
        .starts
        .iter()
        .all(|(who, info)| is_recorded(histories, &who.0, info.period))
}

/// Whether the records of the periods of slash events stand.
fn are_events_recorded(shared: &PlainShared) -> bool
    ensures { result ≡ list_all (λ e. is_recorded shared.now.histories.entries e.0.0 e.0.2)
        shared.now.events.entries }
{
    let histories = &shared.histories;
    shared
        .events
        .iter()
        .all(|(key, _)| is_recorded(histories, &key.0, key.2))
}

/// Whether records stand exactly where something refers to their periods, with the number of references.
pub(crate) fn are_counted(alloc: Global, shared: &PlainShared) -> Result<bool, AllocError>
    ensures { IfOk result (λ counted. counted ≡ are_counted (shared_seen shared.now)) }
{
    Ok(
        have_counts(alloc, shared)?
            && are_ends_recorded(shared)
            && are_starts_recorded(shared)
            && are_events_recorded(shared),
    )
}

/// Whether an amount is at most what coins have of a denomination.
fn is_within(denom: &Denom, amount: Dec, coins: &DecCoins) -> bool
    ensures { result ≡ is_within denom.now amount coins.now }
{
    amount.raw() <= coins.amount_of(denom).raw()
}

/// Whether no coin of the first list is above what the second has of it.
fn is_at_most(coins: &DecCoins, others: &DecCoins) -> bool
    ensures { result ≡ is_at_most coins.now others.now }
{
    for coin in coins.as_slice() {
        if !is_within(&coin.denom, coin.amount, others) {
            return false;
        }
    }
    true
}

/// Whether a record has no lower ratio than the last one, if that is of the same operator.
fn does_not_fall(
    last: &Option<(&(Addr, u64), &Historical)>,
    key: &(Addr, u64),
    history: &Historical,
) -> bool
    ensures { result
        ≡ does_not_fall (option_map deref_pair last.now) (key.now, history.now) }
{
    match last {
        Some(last) => !is_same(&last.0.0, &key.0) || is_at_most(&last.1.ratio, &history.ratio),
        None => true,
    }
}

/// Whether ratios don't fall as periods grow.
pub(crate) fn do_ratios_grow(histories: &BTreeMap<(Addr, u64), Historical>) -> bool
    ensures { result ≡ do_ratios_grow None histories.now.entries }
{
    let mut last = None;
    for (key, history) in histories {
        if !does_not_fall(&last, key, history) {
            return false;
        }
        last = Some((key, history));
    }
    true
}
