//! The records of a state, as maps by their keys (`x/bank`, `x/staking`, `x/slashing` and `x/distribution`).

use base_coins::DecCoins;
use base_decimals::Dec;
use base_roles::{
    Ctx, Historical, Listed, Purse, RedelegationEntry, SigningInfo, StartingInfo, UnbondingEntry,
    Validator,
};
use base_types::{Account, Addr, ConsAddr, Denom};
use std::collections::BTreeMap;

/// A signing record with its ring.
#[derive(Debug, Drop)]
pub struct Signed {
    pub info: SigningInfo,
    /// The last votes by their places in the window; a missed one is true.
    pub ring: Listed<bool>,
}

/// What distribution has, but for the community pool.
#[derive(Drop)]
pub struct PlainShared {
    pub purses: BTreeMap<Addr, Purse>,
    /// Where the rewards of delegators go, if not to themselves.
    pub payees: BTreeMap<Addr, Addr>,
    /// The periods that run, by operator.
    pub currents: BTreeMap<Addr, u64>,
    /// The records of ended periods, by operator and period.
    pub histories: BTreeMap<(Addr, u64), Historical>,
    /// Where the rewards of delegations begin, by operator and delegator.
    pub starts: BTreeMap<(Addr, Addr), StartingInfo>,
    /// The fractions of slash events, by operator, height and period.
    pub events: BTreeMap<(Addr, u64, u64), Dec>,
}

/// The records that have keys of their own, in the order of their keys.
#[derive(Drop)]
pub struct PlainLists {
    pub balances: BTreeMap<(Account, Denom), u128>,
    pub supplies: BTreeMap<Denom, u128>,
    pub validators: BTreeMap<Addr, Validator>,
    /// Shares, by operator and delegator.
    pub delegations: BTreeMap<(Addr, Addr), Dec>,
    /// By delegator and operator.
    pub unbondings: BTreeMap<(Addr, Addr), Listed<UnbondingEntry>>,
    /// By delegator, source and target.
    pub redelegations: BTreeMap<(Addr, Addr, Addr), Listed<RedelegationEntry>>,
    pub signings: BTreeMap<ConsAddr, Signed>,
    pub shared: PlainShared,
}

/// All records of a state, in the order of their keys.
#[derive(Drop)]
pub struct PlainRecords {
    /// The last height and time, and the parameters.
    pub ctx: Ctx,
    /// The community pool.
    pub pool: DecCoins,
    pub lists: PlainLists,
}
