//! Records out of items in any order.

ghost use Rattle.std.specs.Prelude.{◌≡◌, IfOk, Some, None, option_map};
ghost use Rattle.store_records.specs.Gathering.{also, gathered, gathered_seen, gathered_with, lists_with, nothing_gathered, once, records_in, shared_with, some_if, whole};
ghost use Rattle.store_records.specs.Plain.{lists_seen, no_lists, nothing_shared, seen, shared_seen};

use crate::places::{put_balance, put_new, put_triple};
use crate::records::{PlainLists, PlainRecords, PlainShared, Signed};
use base_coins::DecCoins;
use base_roles::{Ctx, Item, Params};
use base_types::Moment;
use std::alloc::{AllocError, Global};
use std::collections::BTreeMap;

/// What items gave so far.
#[derive(Drop)]
pub(crate) struct Gathering {
    pub(crate) head: Option<(u64, Moment)>,
    pub(crate) params: Option<Params>,
    pub(crate) pool: Option<DecCoins>,
    pub(crate) lists: PlainLists,
}

/// Puts a value where there was none; false, and nothing changes, where there was one.
fn put_once<T: Drop>(place: &mut Option<T>, value: T) -> bool
    ensures { once place.old value ≡ some_if result place.new }
{
    if place.is_some() {
        return false;
    }
    *place = Some(value);
    true
}

/// No records of distribution.
fn no_shared(alloc: Global) -> PlainShared
    ensures { shared_seen result ≡ nothing_shared }
{
    PlainShared {
        purses: BTreeMap::new(alloc),
        payees: BTreeMap::new(alloc),
        currents: BTreeMap::new(alloc),
        histories: BTreeMap::new(alloc),
        starts: BTreeMap::new(alloc),
        events: BTreeMap::new(alloc),
    }
}

/// No records.
fn no_lists(alloc: Global) -> PlainLists
    ensures { lists_seen result ≡ no_lists }
{
    PlainLists {
        balances: BTreeMap::new(alloc),
        supplies: BTreeMap::new(alloc),
        validators: BTreeMap::new(alloc),
        delegations: BTreeMap::new(alloc),
        unbondings: BTreeMap::new(alloc),
        redelegations: BTreeMap::new(alloc),
        signings: BTreeMap::new(alloc),
        shared: no_shared(alloc),
    }
}

impl PlainShared {
    /// Takes an item of distribution; false where its key stands, and where it is of another kind.
    fn take(&mut self, item: Item) -> Result<bool, AllocError>
        ensures { IfOk result (λ new. shared_with item (shared_seen self.old)
            ≡ some_if new (shared_seen self.new)) }
    {
        match item {
            Item::Purse { operator, purse } => put_new(&mut self.purses, operator, purse),
            Item::Withdraw { delegator, to } => put_new(&mut self.payees, delegator, to),
            Item::CurrentPeriod { operator, period } => {
                put_new(&mut self.currents, operator, period)
            }
            Item::Historical {
                operator,
                period,
                history,
            } => put_new(&mut self.histories, (operator, period), history),
            Item::Start {
                operator,
                delegator,
                info,
            } => put_new(&mut self.starts, (operator, delegator), info),
            Item::Event { operator, event } => put_new(
                &mut self.events,
                (operator, event.height, event.period),
                event.fraction,
            ),
            _ => Ok(false),
        }
    }
}

impl PlainLists {
    /// Takes an item that has a key of its own; false where its key stands, and where it has none.
    fn take(&mut self, item: Item) -> Result<bool, AllocError>
        ensures { IfOk result (λ new. lists_with item (lists_seen self.old)
            ≡ some_if new (lists_seen self.new)) }
    {
        match item {
            Item::Balance {
                account,
                denom,
                amount,
            } => put_balance(&mut self.balances, (account, denom), amount),
            Item::Supply { denom, amount } => put_new(&mut self.supplies, denom, amount),
            Item::Validator { validator } => {
                put_new(&mut self.validators, validator.operator, validator)
            }
            Item::Delegation {
                operator,
                delegator,
                shares,
            } => put_new(&mut self.delegations, (operator, delegator), shares),
            Item::Unbonding {
                delegator,
                operator,
                entries,
            } => put_new(&mut self.unbondings, (delegator, operator), entries),
            Item::Redelegation {
                delegator,
                source,
                target,
                entries,
            } => put_triple(
                &mut self.redelegations,
                (delegator, source, target),
                entries,
            ),
            Item::Signing { cons, info, ring } => {
                put_new(&mut self.signings, cons, Signed { info, ring })
            }
            other => self.shared.take(other),
        }
    }
}

impl Gathering {
    /// Takes an item; false where its key stands.
    fn take(&mut self, item: Item) -> Result<bool, AllocError>
        ensures { IfOk result (λ new. gathered_with item (gathered_seen self.old)
            ≡ some_if new (gathered_seen self.new)) }
    {
        match item {
            Item::Head { height, time } => Ok(put_once(&mut self.head, (height, time))),
            Item::Parameters { params } => Ok(put_once(&mut self.params, params)),
            Item::Pool { coins } => Ok(put_once(&mut self.pool, coins)),
            other => self.lists.take(other),
        }
    }

    /// The records, where head, parameters and pool came.
    fn whole(self) -> Option<PlainRecords>
        ensures { option_map seen result
            ≡ whole self.head self.params self.pool (lists_seen self.lists) }
    {
        let (height, time) = self.head?;
        Some(PlainRecords {
            ctx: Ctx {
                height,
                time,
                params: self.params?,
            },
            pool: self.pool?,
            lists: self.lists,
        })
    }
}

/// Nothing is gathered yet.
fn nothing(alloc: Global) -> Gathering
    ensures { gathered_seen result ≡ nothing_gathered }
{
    Gathering {
        head: None,
        params: None,
        pool: None,
        lists: no_lists(alloc),
    }
}

/// Takes an item, if all before it had new keys; false where one had not, and where its own stands.
fn take_if(gathering: &mut Gathering, fits: bool, item: Item) -> Result<bool, AllocError>
    ensures { IfOk result (λ now. also item (some_if fits (gathered_seen gathering.old))
        ≡ some_if now (gathered_seen gathering.new)) }
{
    if !fits {
        return Ok(false);
    }
    gathering.take(item)
}

/// Takes all items; false where a key stands twice.
fn take_all(gathering: &mut Gathering, items: Vec<Item>) -> Result<bool, AllocError>
    ensures { IfOk result (λ fits. gathered items.items (Some (gathered_seen gathering.old))
        ≡ some_if fits (gathered_seen gathering.new)) }
{
    let mut fits = true;
    for item in items {
        let next = take_if(gathering, fits, item)?;
        fits = next;
    }
    Ok(fits)
}

/// What was gathered, where all keys were new.
fn kept_if(fits: bool, gathering: Gathering) -> Option<Gathering>
    ensures { option_map gathered_seen result ≡ some_if fits (gathered_seen gathering) }
{
    if fits { Some(gathering) } else { None }
}

/// What the items give; None where a key stands twice.
fn gather(alloc: Global, items: Vec<Item>) -> Result<Option<Gathering>, AllocError>
    ensures { IfOk result (λ g. gathered items.items (Some nothing_gathered)
        ≡ option_map gathered_seen g) }
{
    let mut gathering = nothing(alloc);
    let fits = take_all(&mut gathering, items)?;
    Ok(kept_if(fits, gathering))
}

/// The records of which these are the items, in any order; None where a key stands twice, and where not exactly
/// one head, one set of parameters and one pool stand. The only error is want of memory.
pub fn records_of(alloc: Global, items: Vec<Item>) -> Result<Option<PlainRecords>, AllocError>
    ensures { IfOk result (λ records. records_in items.items ≡ option_map seen records) }
{
    match gather(alloc, items)? {
        Some(gathering) => Ok(gathering.whole()),
        None => Ok(None),
    }
}
