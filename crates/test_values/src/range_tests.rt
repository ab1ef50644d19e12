//! The number of the first parameter that is out of its range.

use crate::checks::holds;
use crate::values::{dec, params};
use base_roles::Params;
use std::process::Abort;

/// One, in units of 10^-18.
const ONE: u128 = 1_000_000_000_000_000_000;

/// That the first parameter out of its range is the one of this number.
fn tells(rt: &impl Abort, case: &str, params: &Params, number: u16) {
    holds(rt, case, params.out_of_range() == Some(number));
}

// Below, one parameter is out of its range at a time: just above it, or 0 where it begins at 1.

#[test]
fn numbers_of_staking_out_of_range_are_told(rt: HostRuntime) {
    let mut p = params(&rt);
    p.power_reduction = 1_000_000_000_000_000_001;
    tells(&rt, "a power reduction above", &p, 11);
    p.power_reduction = 0;
    tells(&rt, "no power reduction", &p, 11);
    p.power_reduction = 1;
    p.unbonding_time = 1_000_000_001;
    tells(&rt, "an unbonding time above", &p, 12);
    p.unbonding_time = 0;
    tells(&rt, "no unbonding time", &p, 12);
    p.unbonding_time = 1;
    p.max_validators = 1001;
    tells(&rt, "validators above", &p, 13);
    p.max_validators = 0;
    tells(&rt, "no validators", &p, 13);
    p.max_validators = 1;
    p.max_entries = 101;
    tells(&rt, "entries above", &p, 14);
    p.max_entries = 0;
    tells(&rt, "no entries", &p, 14);
}

#[test]
fn parts_out_of_range_are_told(rt: HostRuntime) {
    let (mut p, one, above) = (params(&rt), dec(&rt, ONE), dec(&rt, ONE + 1));
    p.min_commission_rate = above;
    tells(&rt, "a commission rate", &p, 15);
    p.min_commission_rate = one;
    p.community_tax = above;
    tells(&rt, "a community tax", &p, 16);
    p.community_tax = one;
    p.min_signed_per_window = above;
    tells(&rt, "a part of votes", &p, 19);
    p.min_signed_per_window = one;
    p.slash_fraction_double_sign = above;
    tells(&rt, "a fraction for two signatures", &p, 21);
    p.slash_fraction_double_sign = one;
    p.slash_fraction_downtime = above;
    tells(&rt, "a fraction for downtime", &p, 22);
}

#[test]
fn numbers_of_slashing_out_of_range_are_told(rt: HostRuntime) {
    let mut p = params(&rt);
    p.signed_blocks_window = 100_001;
    tells(&rt, "a window above", &p, 18);
    p.signed_blocks_window = 0;
    tells(&rt, "no window", &p, 18);
    p.signed_blocks_window = 1;
    p.downtime_jail_duration = 1_000_000_001;
    tells(&rt, "a jail duration above", &p, 20);
    p.downtime_jail_duration = 1;
    p.max_age_duration = 1_000_000_001;
    tells(&rt, "an age above", &p, 23);
    p.max_age_duration = 1;
    p.max_age_num_blocks = 9_223_372_036_854_775_808;
    tells(&rt, "an age in blocks above", &p, 24);
    holds(&rt, "out of range", !p.are_in_range());
}

#[test]
fn parameters_at_their_ends_are_in_range(rt: HostRuntime) {
    let part = dec(&rt, ONE);
    let highest = Params {
        power_reduction: 1_000_000_000_000_000_000,
        unbonding_time: 1_000_000_000,
        max_validators: 1000,
        max_entries: 100,
        min_commission_rate: part,
        community_tax: part,
        signed_blocks_window: 100_000,
        min_signed_per_window: part,
        downtime_jail_duration: 1_000_000_000,
        slash_fraction_double_sign: part,
        slash_fraction_downtime: part,
        max_age_duration: 1_000_000_000,
        max_age_num_blocks: 9_223_372_036_854_775_807,
        ..params(&rt)
    };
    holds(&rt, "none is told", highest.out_of_range() == None);
    holds(&rt, "in range", highest.are_in_range());
}
