//! Records out of items: a supply is the sum of its balances, and a key stands once.

use base_coins::DecCoins;
use base_decimals::Dec;
use base_roles::{Item, Params};
use base_types::{Account, Addr, Denom, Moment};
use std::process::Abort;
use std::test::Fail;
use store_records::records_of;
use store_soundness::is_sound;

fn atom(rt: &impl Abort) -> Denom {
    Denom::of(b"uatom").expect(rt, "a denomination")
}

fn addr(rt: &impl Abort, byte: u8) -> Addr {
    Addr::of([byte; 20]).expect(rt, "no module's address")
}

fn part(rt: &impl Abort, units: u128) -> Dec {
    Dec::from_raw(units).expect(rt, "a decimal")
}

fn params(rt: &impl Abort) -> Params {
    Params {
        bond_denom: atom(rt),
        power_reduction: 1_000_000,
        unbonding_time: 1_814_400,
        max_validators: 180,
        max_entries: 7,
        min_commission_rate: part(rt, 0),
        community_tax: part(rt, 0),
        withdraw_addr_enabled: true,
        signed_blocks_window: 10_000,
        min_signed_per_window: part(rt, 50_000_000_000_000_000),
        downtime_jail_duration: 600,
        slash_fraction_double_sign: part(rt, 50_000_000_000_000_000),
        slash_fraction_downtime: part(rt, 100_000_000_000_000),
        max_age_duration: 172_800,
        max_age_num_blocks: 100_000,
        authority: addr(rt, 153),
    }
}

/// Of user 7 so many uatom.
fn balance(rt: &impl Abort, amount: u128) -> Item {
    Item::Balance {
        account: Account::User(addr(rt, 7)),
        denom: atom(rt),
        amount,
    }
}

/// A supply, the balance of user 7, the pool, the parameters and the head, in this order.
fn items(rt: &(impl Abort + AllocGlobal), supply: u128, held: u128) -> Result<Vec<Item>, Fail> {
    let mut list = Vec::new(rt.alloc());
    list.push(Item::Supply {
        denom: atom(rt),
        amount: supply,
    })?;
    list.push(balance(rt, held))?;
    list.push(Item::Pool {
        coins: DecCoins::new(rt.alloc()),
    })?;
    list.push(Item::Parameters { params: params(rt) })?;
    list.push(Item::Head {
        height: 3,
        time: Moment::of(1_704_067_200_000_000_000).expect(rt, "a moment"),
    })?;
    Ok(list)
}

/// Whether the items are records that pass; None where they are no records.
fn passes(rt: &(impl Abort + AllocGlobal), list: Vec<Item>) -> Result<Option<bool>, Fail> {
    match records_of(rt.alloc(), list)? {
        Some(records) => Ok(Some(is_sound(rt.alloc(), &records)?)),
        None => Ok(None),
    }
}

/// A supply that is its balance passes, and one of one more does not.
pub(crate) fn supplies(rt: &(impl Abort + AllocGlobal)) -> Result<bool, Fail> {
    let held = items(rt, 5, 5)?;
    let lost = items(rt, 6, 5)?;
    Ok(passes(rt, held)? == Some(true) && passes(rt, lost)? == Some(false))
}

/// A balance that stands twice gives no records, nor do items without a head.
pub(crate) fn keys(rt: &(impl Abort + AllocGlobal)) -> Result<bool, Fail> {
    let mut twice = items(rt, 5, 5)?;
    twice.push(balance(rt, 5))?;
    let mut headless = items(rt, 5, 5)?;
    headless.truncate(4);
    Ok(passes(rt, twice)?.is_none() && passes(rt, headless)?.is_none())
}

#[test]
fn a_supply_is_the_sum_of_its_balances(rt: HostRuntime) -> Result<(), Fail> {
    let held = supplies(&rt)?;
    assert!(&rt; held);
    Ok(())
}

#[test]
fn a_key_stands_once(rt: HostRuntime) -> Result<(), Fail> {
    let held = keys(&rt)?;
    assert!(&rt; held);
    Ok(())
}
