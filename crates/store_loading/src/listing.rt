//! The items of records, which are moved into them.

ghost use Rattle.std.specs.Prelude.{◌≡◌, ◌++◌, ◌∷◌, [], map, IfOk, OnOk};
ghost use Rattle.base_roles.specs.declared.items.Item.TheVariants as item;
ghost use Rattle.rule_machine.specs.Items.{entry_items, holding_items, staked_items};
ghost use Rattle.store_records.specs.Plain.{event_at, listed, lists_seen, reward_items, seen, shared_items, shared_seen};

use base_coins::DecCoins;
use base_decimals::Dec;
use base_roles::{
    Ctx, Historical, Item, Listed, Purse, RedelegationEntry, SlashEvent, StartingInfo,
    UnbondingEntry, Validator,
};
use base_types::{Account, Addr, ConsAddr, Denom};
use std::alloc::{AllocError, Global};
use std::collections::BTreeMap;
use std::mem;
use store_records::{PlainLists, PlainRecords, PlainShared, Signed};

/// The items of records, kind by kind, each kind in ascending order of its keys. The only error is want of memory.
pub fn items_of(alloc: Global, records: PlainRecords) -> Result<Vec<Item>, AllocError>
    ensures { IfOk result (λ items. items.items ≡ listed (seen records)) }
{
    let PlainRecords {
        ctx,
        pool,
        mut lists,
    } = records;
    let mut items = Vec::new(alloc);
    append_all(alloc, &mut items, &ctx, pool, &mut lists)?;
    Ok(items)
}

/// Appends all items, and takes the records out of their lists.
fn append_all(
    alloc: Global,
    out: &mut Vec<Item>,
    ctx: &Ctx,
    pool: DecCoins,
    lists: &mut PlainLists,
) -> Result<(), AllocError>
    ensures { OnOk result (out.new.items ≡ out.old.items ++ listed (record {
      ctx = ctx.now;
      pool = pool;
      lists = lists_seen lists.old;
    })) }
{
    append_ctx(out, ctx)?;
    append_balances(alloc, out, &mut lists.balances)?;
    append_supplies(alloc, out, &mut lists.supplies)?;
    append_staked(alloc, out, &mut lists.validators, &mut lists.delegations)?;
    append_entries(alloc, out, &mut lists.unbondings, &mut lists.redelegations)?;
    append_signings(alloc, out, &mut lists.signings)?;
    append_shared(alloc, out, pool, &mut lists.shared)
}

/// Takes a map's entries out of it.
fn taken<K: Ord + Drop, V: Drop>(alloc: Global, map: &mut BTreeMap<K, V>) -> BTreeMap<K, V>
    ensures { result.entries ≡ map.old.entries }
{
    mem::replace(map, BTreeMap::new(alloc))
}

/// Appends the last height and time, and the parameters.
fn append_ctx(out: &mut Vec<Item>, ctx: &Ctx) -> Result<(), AllocError>
    ensures { OnOk result (out.new.items ≡ out.old.items
        ++ item.Head ctx.now.height ctx.now.time ∷ item.Parameters ctx.now.params ∷ []) }
{
    out.push(Item::Head {
        height: ctx.height,
        time: ctx.time,
    })?;
    out.push(Item::Parameters { params: ctx.params })?;
    Ok(())
}

/// Appends the balances.
fn append_balances(
    alloc: Global,
    out: &mut Vec<Item>,
    balances: &mut BTreeMap<(Account, Denom), u128>,
) -> Result<(), AllocError>
    ensures { OnOk result (out.new.items ≡ out.old.items
        ++ map (λ e. item.Balance e.0.0 e.0.1 e.1) balances.old.entries) }
{
    let balances = taken(alloc, balances);
    out.extend(
        balances.into_iter().map(|(place, amount)| Item::Balance {
            account: place.0,
            denom: place.1,
            amount,
        }),
    )
}

/// Appends the supplies.
fn append_supplies(
    alloc: Global,
    out: &mut Vec<Item>,
    supplies: &mut BTreeMap<Denom, u128>,
) -> Result<(), AllocError>
    ensures { OnOk result (out.new.items ≡ out.old.items
        ++ map (λ e. item.Supply e.0 e.1) supplies.old.entries) }
{
    let supplies = taken(alloc, supplies);
    out.extend(
        supplies
            .into_iter()
            .map(|(denom, amount)| Item::Supply { denom, amount }),
    )
}

/// Appends the validators, and then the delegations.
fn append_staked(
    alloc: Global,
    out: &mut Vec<Item>,
    validators: &mut BTreeMap<Addr, Validator>,
    delegations: &mut BTreeMap<(Addr, Addr), Dec>,
) -> Result<(), AllocError>
    ensures { OnOk result (out.new.items ≡ out.old.items ++ staked_items (record {
      validators = validators.old.entries;
      delegations = delegations.old.entries;
    })) }
{
    append_validators(alloc, out, validators)?;
    append_delegations(alloc, out, delegations)
}

fn append_validators(
    alloc: Global,
    out: &mut Vec<Item>,
    validators: &mut BTreeMap<Addr, Validator>,
) -> Result<(), AllocError>
    ensures { OnOk result (out.new.items ≡ out.old.items
        ++ map (λ e. item.Validator e.1) validators.old.entries) }
{
    let validators = taken(alloc, validators);
    out.extend(
        validators
            .into_iter()
            .map(|(_, validator)| Item::Validator { validator }),
    )
}

fn append_delegations(
    alloc: Global,
    out: &mut Vec<Item>,
    delegations: &mut BTreeMap<(Addr, Addr), Dec>,
) -> Result<(), AllocError>
    ensures { OnOk result (out.new.items ≡ out.old.items
        ++ map (λ e. item.Delegation e.0.0 e.0.1 e.1) delegations.old.entries) }
{
    let delegations = taken(alloc, delegations);
    out.extend(
        delegations.into_iter().map(|(who, shares)| Item::Delegation {
            operator: who.0,
            delegator: who.1,
            shares,
        }),
    )
}

/// Appends the unbonding entries, and then the redelegation entries.
fn append_entries(
    alloc: Global,
    out: &mut Vec<Item>,
    unbondings: &mut BTreeMap<(Addr, Addr), Listed<UnbondingEntry>>,
    redelegations: &mut BTreeMap<(Addr, Addr, Addr), Listed<RedelegationEntry>>,
) -> Result<(), AllocError>
    ensures { OnOk result (out.new.items ≡ out.old.items
        ++ entry_items unbondings.old.entries redelegations.old.entries) }
{
    append_unbondings(alloc, out, unbondings)?;
    append_redelegations(alloc, out, redelegations)
}

fn append_unbondings(
    alloc: Global,
    out: &mut Vec<Item>,
    unbondings: &mut BTreeMap<(Addr, Addr), Listed<UnbondingEntry>>,
) -> Result<(), AllocError>
    ensures { OnOk result (out.new.items ≡ out.old.items
        ++ map (λ e. item.Unbonding e.0.0 e.0.1 e.1) unbondings.old.entries) }
{
    let unbondings = taken(alloc, unbondings);
    out.extend(
        unbondings.into_iter().map(|(who, entries)| Item::Unbonding {
            delegator: who.0,
            operator: who.1,
            entries,
        }),
    )
}

fn append_redelegations(
    alloc: Global,
    out: &mut Vec<Item>,
    redelegations: &mut BTreeMap<(Addr, Addr, Addr), Listed<RedelegationEntry>>,
) -> Result<(), AllocError>
    ensures { OnOk result (out.new.items ≡ out.old.items
        ++ map (λ e. item.Redelegation e.0.0 e.0.1 e.0.2 e.1) redelegations.old.entries) }
{
    let redelegations = taken(alloc, redelegations);
    out.extend(
        redelegations.into_iter().map(|(who, entries)| Item::Redelegation {
            delegator: who.0,
            source: who.1,
            target: who.2,
            entries,
        }),
    )
}

/// Appends the signing records.
fn append_signings(
    alloc: Global,
    out: &mut Vec<Item>,
    signings: &mut BTreeMap<ConsAddr, Signed>,
) -> Result<(), AllocError>
    ensures { OnOk result (out.new.items ≡ out.old.items
        ++ map (λ e. item.Signing e.0 e.1.info e.1.ring) signings.old.entries) }
{
    let signings = taken(alloc, signings);
    out.extend(
        signings.into_iter().map(|(cons, signed)| Item::Signing {
            cons,
            info: signed.info,
            ring: signed.ring,
        }),
    )
}

/// Appends what distribution has.
fn append_shared(
    alloc: Global,
    out: &mut Vec<Item>,
    pool: DecCoins,
    shared: &mut PlainShared,
) -> Result<(), AllocError>
    ensures { OnOk result
        (out.new.items ≡ out.old.items ++ shared_items pool (shared_seen shared.old)) }
{
    append_held(alloc, out, pool, &mut shared.purses)?;
    append_payees(alloc, out, &mut shared.payees)?;
    append_rewards(alloc, out, shared)
}

/// Appends the purses, and then the community pool.
fn append_held(
    alloc: Global,
    out: &mut Vec<Item>,
    pool: DecCoins,
    purses: &mut BTreeMap<Addr, Purse>,
) -> Result<(), AllocError>
    ensures { OnOk result (out.new.items ≡ out.old.items
        ++ map (λ e. item.Purse e.0 e.1) purses.old.entries ++ item.Pool pool ∷ []) }
{
    append_purses(alloc, out, purses)?;
    out.push(Item::Pool { coins: pool })?;
    Ok(())
}

fn append_purses(
    alloc: Global,
    out: &mut Vec<Item>,
    purses: &mut BTreeMap<Addr, Purse>,
) -> Result<(), AllocError>
    ensures { OnOk result (out.new.items ≡ out.old.items
        ++ map (λ e. item.Purse e.0 e.1) purses.old.entries) }
{
    let purses = taken(alloc, purses);
    out.extend(
        purses
            .into_iter()
            .map(|(operator, purse)| Item::Purse { operator, purse }),
    )
}

fn append_payees(
    alloc: Global,
    out: &mut Vec<Item>,
    payees: &mut BTreeMap<Addr, Addr>,
) -> Result<(), AllocError>
    ensures { OnOk result (out.new.items ≡ out.old.items
        ++ map (λ e. item.Withdraw e.0 e.1) payees.old.entries) }
{
    let payees = taken(alloc, payees);
    out.extend(
        payees
            .into_iter()
            .map(|(delegator, to)| Item::Withdraw { delegator, to }),
    )
}

/// Appends the periods that run, the records of ended ones, the starts and the slash events.
fn append_rewards(
    alloc: Global,
    out: &mut Vec<Item>,
    shared: &mut PlainShared,
) -> Result<(), AllocError>
    ensures { OnOk result
        (out.new.items ≡ out.old.items ++ reward_items (shared_seen shared.old)) }
{
    append_currents(alloc, out, &mut shared.currents)?;
    append_histories(alloc, out, &mut shared.histories)?;
    append_starts(alloc, out, &mut shared.starts)?;
    append_events(alloc, out, &mut shared.events)
}

fn append_currents(
    alloc: Global,
    out: &mut Vec<Item>,
    currents: &mut BTreeMap<Addr, u64>,
) -> Result<(), AllocError>
    ensures { OnOk result (out.new.items ≡ out.old.items
        ++ map (λ e. item.CurrentPeriod e.0 e.1) currents.old.entries) }
{
    let currents = taken(alloc, currents);
    out.extend(
        currents.into_iter().map(|(operator, period)| Item::CurrentPeriod { operator, period }),
    )
}

fn append_histories(
    alloc: Global,
    out: &mut Vec<Item>,
    histories: &mut BTreeMap<(Addr, u64), Historical>,
) -> Result<(), AllocError>
    ensures { OnOk result (out.new.items ≡ out.old.items
        ++ map (λ e. item.Historical e.0.0 e.0.1 e.1) histories.old.entries) }
{
    let histories = taken(alloc, histories);
    out.extend(
        histories.into_iter().map(|(ended, history)| Item::Historical {
            operator: ended.0,
            period: ended.1,
            history,
        }),
    )
}

fn append_starts(
    alloc: Global,
    out: &mut Vec<Item>,
    starts: &mut BTreeMap<(Addr, Addr), StartingInfo>,
) -> Result<(), AllocError>
    ensures { OnOk result (out.new.items ≡ out.old.items
        ++ map (λ e. item.Start e.0.0 e.0.1 e.1) starts.old.entries) }
{
    let starts = taken(alloc, starts);
    out.extend(
        starts.into_iter().map(|(who, info)| Item::Start {
            operator: who.0,
            delegator: who.1,
            info,
        }),
    )
}

fn append_events(
    alloc: Global,
    out: &mut Vec<Item>,
    events: &mut BTreeMap<(Addr, u64, u64), Dec>,
) -> Result<(), AllocError>
    ensures { OnOk result (out.new.items ≡ out.old.items
        ++ map (λ e. item.Event e.0.0 (event_at e)) events.old.entries) }
{
    let events = taken(alloc, events);
    out.extend(
        events.into_iter().map(|(at, fraction)| Item::Event {
            operator: at.0,
            event: SlashEvent {
                height: at.1,
                period: at.2,
                fraction,
            },
        }),
    )
}
