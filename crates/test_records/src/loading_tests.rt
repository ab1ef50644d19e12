//! An item of each kind, loaded into the modules of a chain and listed again.

ghost use Rattle.std.specs.Prelude.{◌≡◌, ◌<◌};

use base_coins::{DecCoin, DecCoins};
use base_decimals::Dec;
use base_roles::{
    Commission, Historical, Item, Listed, Params, Purse, RecordFault, RedelegationEntry,
    SigningInfo, SlashEvent, StartingInfo, UnbondingEntry, Validator,
};
use base_types::{Account, Addr, BondStatus, ConsAddr, Denom, Moment, Steps};
use chain_modules::{Modules, let_go};
use law_records::laws::gathered_keys_ascend;
use std::alloc::Global;
use std::marker::Brand;
use std::process::Abort;
use std::sync::ledger::{Blank, Ledger};
use std::test::Fail;
use store_loading::modules_of;
use store_records::records_of;

/// One, as a decimal's number of units.
const ONE: u128 = 1_000_000_000_000_000_000;

fn atom(rt: &impl Abort) -> Denom {
    Denom::of(b"uatom").expect(rt, "a denomination")
}

fn addr(rt: &impl Abort, byte: u8) -> Addr {
    Addr::of([byte; 20]).expect(rt, "no module's address")
}

fn part(rt: &impl Abort, units: u128) -> Dec {
    Dec::from_raw(units).expect(rt, "a decimal")
}

fn moment(rt: &impl Abort, seconds: u128) -> Moment
    requires { seconds < 1000 }
{
    Moment::of(1_704_067_200_000_000_000 + seconds * 1_000_000_000).expect(rt, "a moment")
}

/// So many units of uatom.
fn coins(rt: &(impl Abort + AllocGlobal), units: u128) -> Result<DecCoins, Fail> {
    let mut list = Vec::new(rt.alloc());
    list.push(DecCoin {
        denom: atom(rt),
        amount: part(rt, units),
    })?;
    Ok(DecCoins::of(list)?)
}

fn params(rt: &impl Abort) -> Params {
    Params {
        bond_denom: atom(rt),
        power_reduction: 1_000_000,
        unbonding_time: 1_814_400,
        max_validators: 180,
        max_entries: 7,
        min_commission_rate: part(rt, 0),
        community_tax: part(rt, 0),
        withdraw_addr_enabled: true,
        signed_blocks_window: 10_000,
        min_signed_per_window: part(rt, 50_000_000_000_000_000),
        downtime_jail_duration: 600,
        slash_fraction_double_sign: part(rt, 50_000_000_000_000_000),
        slash_fraction_downtime: part(rt, 100_000_000_000_000),
        max_age_duration: 172_800,
        max_age_num_blocks: 100_000,
        authority: addr(rt, 153),
    }
}

/// A validator of user 1, bonded with a million of a million.
fn validator(rt: &impl Abort) -> Validator {
    Validator {
        operator: addr(rt, 1),
        cons: ConsAddr::of([2; 20]),
        status: BondStatus::Bonded,
        jailed: false,
        tokens: 1_000_000,
        shares: part(rt, 1_000_000 * ONE),
        commission: Commission {
            rate: part(rt, 0),
            max_rate: part(rt, ONE),
            max_change: part(rt, ONE),
            updated: moment(rt, 0),
        },
        min_self: 1,
        unbonding_height: 0,
        unbonding_time: moment(rt, 0),
    }
}

/// The last height and time, the parameters, a balance and its supply.
fn append_ground(rt: &impl Abort, out: &mut Vec<Item>) -> Result<(), Fail> {
    out.push(Item::Supply {
        denom: atom(rt),
        amount: 5,
    })?;
    out.push(Item::Balance {
        account: Account::User(addr(rt, 7)),
        denom: atom(rt),
        amount: 5,
    })?;
    out.push(Item::Parameters { params: params(rt) })?;
    out.push(Item::Head {
        height: 300,
        time: moment(rt, 300),
    })?;
    Ok(())
}

/// A delegation and its validator.
fn append_stakes(rt: &impl Abort, out: &mut Vec<Item>) -> Result<(), Fail> {
    out.push(Item::Delegation {
        operator: addr(rt, 1),
        delegator: addr(rt, 7),
        shares: part(rt, 1_000_000 * ONE),
    })?;
    out.push(Item::Validator {
        validator: validator(rt),
    })?;
    Ok(())
}

/// A redelegation and an unbonding of one entry each.
fn append_entries(rt: &(impl Abort + AllocGlobal), out: &mut Vec<Item>) -> Result<(), Fail> {
    let mut moved = Vec::new(rt.alloc());
    moved.push(RedelegationEntry {
        created: 299,
        completes: moment(rt, 900),
        initial: 4,
        shares_dst: part(rt, 4 * ONE),
    })?;
    out.push(Item::Redelegation {
        delegator: addr(rt, 7),
        source: addr(rt, 3),
        target: addr(rt, 1),
        entries: Listed::of(moved),
    })?;
    let mut left = Vec::new(rt.alloc());
    left.push(UnbondingEntry {
        created: 299,
        completes: moment(rt, 900),
        initial: 4,
        balance: 3,
    })?;
    out.push(Item::Unbonding {
        delegator: addr(rt, 7),
        operator: addr(rt, 1),
        entries: Listed::of(left),
    })?;
    Ok(())
}

/// A signing record of 200 votes, of which the one at place 130 was missed.
fn append_signing(rt: &(impl Abort + AllocGlobal), out: &mut Vec<Item>) -> Result<(), Fail> {
    let mut ring = Vec::new(rt.alloc());
    for place in 0..200_u64 {
        ring.push(place == 130)?;
    }
    out.push(Item::Signing {
        cons: ConsAddr::of([2; 20]),
        info: SigningInfo {
            start: 100,
            counted: 200,
            missed: 1,
            jailed_until: moment(rt, 0),
            tombstoned: false,
        },
        ring: Listed::of(ring),
    })?;
    Ok(())
}

/// A purse, the community pool and a payee.
fn append_purses(rt: &(impl Abort + AllocGlobal), out: &mut Vec<Item>) -> Result<(), Fail> {
    out.push(Item::Withdraw {
        delegator: addr(rt, 7),
        to: addr(rt, 8),
    })?;
    out.push(Item::Pool {
        coins: coins(rt, 5)?,
    })?;
    out.push(Item::Purse {
        operator: addr(rt, 1),
        purse: Purse {
            outstanding: coins(rt, 3)?,
            commission: coins(rt, 2)?,
            current: coins(rt, 1)?,
        },
    })?;
    Ok(())
}

/// A slash event, a start, the record of an ended period, and the one that runs.
fn append_rewards(rt: &(impl Abort + AllocGlobal), out: &mut Vec<Item>) -> Result<(), Fail> {
    out.push(Item::Event {
        operator: addr(rt, 1),
        event: SlashEvent {
            height: 250,
            period: 2,
            fraction: part(rt, 5),
        },
    })?;
    out.push(Item::Start {
        operator: addr(rt, 1),
        delegator: addr(rt, 7),
        info: StartingInfo {
            period: 2,
            stake: part(rt, ONE),
            height: 200,
        },
    })?;
    out.push(Item::Historical {
        operator: addr(rt, 1),
        period: 2,
        history: Historical {
            ratio: coins(rt, 9)?,
            count: 2,
        },
    })?;
    out.push(Item::CurrentPeriod {
        operator: addr(rt, 1),
        period: 3,
    })?;
    Ok(())
}

/// An item of each kind, in no order.
fn items(rt: &(impl Abort + AllocGlobal)) -> Result<Vec<Item>, Fail> {
    let mut out = Vec::new(rt.alloc());
    append_rewards(rt, &mut out)?;
    append_signing(rt, &mut out)?;
    append_ground(rt, &mut out)?;
    append_purses(rt, &mut out)?;
    append_entries(rt, &mut out)?;
    append_stakes(rt, &mut out)?;
    Ok(out)
}

/// What modules list again, and how many changes they tell.
fn told<L: Ledger>(
    alloc: Global,
    modules: &Modules,
    blank: Blank,
) -> Result<(Vec<Item>, usize), RecordFault>
    requires name { blank.name ≡ L.name }
    requires parts { blank.parts ≡ L.parts }
    requires some { 0 < L.parts }
{
    let mut steps: Steps<L> = Steps::new(blank);
    let mut again = Vec::new(alloc);
    modules.items_into(&mut again, &mut steps)?;
    let mut changes = Vec::new(alloc);
    modules.changes_into(&modules.ground.ctx, &mut changes, &mut steps)?;
    Ok((again, changes.len()))
}

/// What the modules of these items list again, and how many changes they tell; None where the items are no
/// records.
fn again(
    rt: &(impl Abort + AllocGlobal),
    items: Vec<Item>,
) -> Result<Option<(Vec<Item>, usize)>, Fail> {
    gathered_keys_ascend();
    let Some(records) = records_of(rt.alloc(), items)? else {
        return Ok(None);
    };
    let reduction = records.ctx.params.power_reduction;
    if reduction < 1 || 1_000_000_000_000_000_000 < reduction {
        return Ok(None);
    }
    let modules = modules_of::<Brand>(rt.alloc(), records, Blank::new(1))?;
    let told = told::<Brand>(rt.alloc(), &modules, Blank::new(1));
    let_go(modules);
    Ok(Some(told?))
}

/// The kind of an item, in the order in which they are listed.
fn kind_of(item: &Item) -> u8
    ensures { result < 16 }
{
    match item {
        Item::Head { .. } => 0,
        Item::Parameters { .. } => 1,
        Item::Balance { .. } => 2,
        Item::Supply { .. } => 3,
        Item::Validator { .. } => 4,
        Item::Delegation { .. } => 5,
        Item::Unbonding { .. } => 6,
        Item::Redelegation { .. } => 7,
        Item::Signing { .. } => 8,
        Item::Purse { .. } => 9,
        Item::Pool { .. } => 10,
        Item::Withdraw { .. } => 11,
        Item::CurrentPeriod { .. } => 12,
        Item::Historical { .. } => 13,
        Item::Start { .. } => 14,
        Item::Event { .. } => 15,
    }
}

/// Whether one item of each kind stands in its place.
fn are_in_order(items: &[Item]) -> bool {
    let mut next = 0;
    for item in items {
        if kind_of(item) != next {
            return false;
        }
        next += 1;
    }
    next == 16
}

/// Whether a ring of 200 votes is listed, of which just the one at place 130 was missed.
fn has_ring(items: &[Item]) -> bool {
    match items.get(8) {
        Some(Item::Signing { ring, .. }) => {
            let missed = ring.as_slice();
            missed.len() == 200
                && missed.get(130) == Some(&true)
                && missed.iter().filter(|missed| **missed).count() == 1
        }
        _ => false,
    }
}

/// Whether the community pool has 5 units.
fn has_pool(rt: &impl Abort, items: &[Item]) -> bool {
    match items.get(10) {
        Some(Item::Pool { coins }) => coins.amount_of(&atom(rt)).raw() == 5,
        _ => false,
    }
}

#[test]
fn what_is_loaded_is_listed_again(rt: HostRuntime) -> Result<(), Fail> {
    let given = items(&rt)?;
    let Some((items, changes)) = again(&rt, given)? else {
        assert!(rt; false);
        return Ok(());
    };
    assert!(rt; are_in_order(&items));
    assert!(rt; has_ring(&items));
    assert!(rt; has_pool(&rt, &items));
    assert_eq!(rt; changes, 0);
    Ok(())
}
