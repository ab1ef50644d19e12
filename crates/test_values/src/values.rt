//! Values that several tests share.

ghost use Rattle.std.specs.Prelude.{◌≡◌, ◌*◌, ◌<◌, ◌^◌};
ghost use Rattle.base_roles.specs.Ground.{AreInRange};

use base_coins::{Coin, Coins};
use base_decimals::Dec;
use base_roles::{Commission, Params, Validator};
use base_types::{Addr, BondStatus, ConsAddr, Denom, Moment};
use std::process::Abort;

/// The decimal of so many units.
pub fn dec(rt: &impl Abort, raw: u128) -> Dec
    ensures { result ≡ raw }
{
    Dec::from_raw(raw).expect(rt, "below the limit")
}

/// The moment so many nanoseconds after the beginning of 1970.
pub fn moment(rt: &impl Abort, nanos: u128) -> Moment
    ensures { result ≡ nanos }
{
    Moment::of(nanos).expect(rt, "before the year 10000")
}

/// The user with an address of twenty such bytes.
pub fn user(rt: &impl Abort, byte: u8) -> Addr {
    Addr::of([byte; 20]).expect(rt, "no module's address")
}

/// The denomination of the tests.
pub fn atom(rt: &impl Abort) -> Denom {
    Denom::of(b"uatom").expect(rt, "a denomination")
}

/// Parameters in their ranges.
pub fn params(rt: &impl Abort) -> Params
    ensures { AreInRange result }
{
    Params {
        bond_denom: atom(rt),
        power_reduction: 1_000_000,
        unbonding_time: 1_814_400,
        max_validators: 100,
        max_entries: 7,
        min_commission_rate: dec(rt, 0),
        community_tax: dec(rt, 20_000_000_000_000_000),
        withdraw_addr_enabled: true,
        signed_blocks_window: 100,
        min_signed_per_window: dec(rt, 500_000_000_000_000_000),
        downtime_jail_duration: 600,
        slash_fraction_double_sign: dec(rt, 50_000_000_000_000_000),
        slash_fraction_downtime: dec(rt, 10_000_000_000_000_000),
        max_age_duration: 172_800,
        max_age_num_blocks: 100_000,
        authority: user(rt, 1),
    }
}

/// An unbonded validator of so many tokens, and of 5 shares.
pub fn validator(rt: &impl Abort, tokens: u128) -> Validator
    ensures tokens { result.tokens ≡ tokens }
    ensures status { result.status ≡ BondStatus.Unbonded }
    ensures shares { result.shares ≡ 5 * 10 ^ 18 }
{
    Validator {
        operator: user(rt, 7),
        cons: ConsAddr::of([9; 20]),
        status: BondStatus::Unbonded,
        jailed: false,
        tokens,
        shares: dec(rt, 5_000_000_000_000_000_000),
        commission: Commission {
            rate: dec(rt, 0),
            max_rate: dec(rt, 0),
            max_change: dec(rt, 0),
            updated: moment(rt, 0),
        },
        min_self: 1,
        unbonding_height: 0,
        unbonding_time: moment(rt, 0),
    }
}

/// So much of one denomination.
pub fn coins(rt: &(impl Abort + AllocGlobal), amount: u128) -> Coins
    requires { amount < 10 ^ 38 }
{
    let coin = Coin {
        denom: atom(rt),
        amount,
    };
    let mut list = Vec::new(rt.alloc());
    list.push(coin).expect(rt, "memory");
    Coins::of(list).expect(rt, "coins")
}
