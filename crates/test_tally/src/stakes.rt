//! Validators and delegations of the tests.

ghost use Rattle.std.specs.Prelude.{◌≡◌, ◌<◌, ◌^◌, ◌*◌, ℕ, replicate};
ghost use Rattle.test_tally.specs.Stakes.{delegation, staked, validator};

use base_decimals::Dec;
use base_roles::{Commission, Item, Validator};
use base_types::{Addr, BondStatus, ConsAddr, Moment};
use std::process::Abort;

/// A hundredth of a token, or of a share.
pub(crate) const HUNDREDTH: u128 = 10_000_000_000_000_000;

pub(crate) fn dec(rt: &impl Abort, raw: u128) -> Dec
    ensures { result ≡ raw }
{
    Dec::from_raw(raw).expect(rt, "below the limit")
}

fn moment(rt: &impl Abort) -> Moment
    ensures { result ≡ 0 }
{
    Moment::of(0).expect(rt, "before the year 10000")
}

pub(crate) fn addr(rt: &impl Abort, byte: u8) -> Addr
    ensures { result ≡ replicate 20 byte }
{
    Addr::of([byte; 20]).expect(rt, "no module's address")
}

/// A validator of so many tokens, and of shares in hundredths.
fn validator(rt: &impl Abort, byte: u8, status: BondStatus, tokens: u128, hundredths: u128) -> Item
    requires { hundredths < 10 ^ 20 }
    ensures { result ≡ validator byte status tokens hundredths }
{
    let none = dec(rt, 0);
    let commission = Commission {
        rate: none,
        max_rate: none,
        max_change: none,
        updated: moment(rt),
    };
    Item::Validator {
        validator: Validator {
            operator: addr(rt, byte),
            cons: ConsAddr::of([0; 20]),
            status,
            jailed: false,
            tokens,
            shares: dec(rt, hundredths * HUNDREDTH),
            commission,
            min_self: 0,
            unbonding_height: 0,
            unbonding_time: moment(rt),
        },
    }
}

/// Shares of a delegator at an operator, in hundredths.
fn delegation(rt: &impl Abort, operator: u8, delegator: u8, hundredths: u128) -> Item
    requires { hundredths < 10 ^ 20 }
    ensures { result ≡ delegation operator delegator hundredths }
{
    Item::Delegation {
        operator: addr(rt, operator),
        delegator: addr(rt, delegator),
        shares: dec(rt, hundredths * HUNDREDTH),
    }
}

/// A bonded validator with three delegators, one that is not bonded, and a bonded one that was slashed, with four.
pub(crate) fn staked(rt: &(impl Abort + AllocGlobal)) -> Vec<Item>
    ensures { result.items ≡ staked }
{
    let items = vec![in rt.alloc();
        validator(rt, 33, BondStatus::Bonded, 1_000_000, 100_000_000),
        validator(rt, 34, BondStatus::Unbonding, 40, 4_000),
        validator(rt, 133, BondStatus::Bonded, 22, 2_288),
        delegation(rt, 33, 33, 60_000_000),
        delegation(rt, 33, 45, 30_000_000),
        delegation(rt, 33, 51, 10_000_000),
        delegation(rt, 34, 51, 4_000),
        delegation(rt, 133, 45, 100),
        delegation(rt, 133, 133, 1_664),
        delegation(rt, 133, 149, 440),
        delegation(rt, 133, 169, 84),
    ];
    items.expect(rt, "memory")
}
