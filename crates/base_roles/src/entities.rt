//! The records of `x/staking`, `x/distribution` and `x/slashing`: validators, entries, rewards and signing infos.

ghost use Rattle.std.specs.Prelude.{⊤};

use base_coins::DecCoins;
use base_decimals::Dec;
use base_types::{Addr, BondStatus, ConsAddr, Copied, Moment, TableFault};

/// What a validator takes of its delegators' rewards (Cosmos SDK: `stakingtypes.Commission`). The rates
/// are parts of one.
#[derive(Clone, Copy, Debug, PartialEq, Eq)]
pub struct Commission {
    pub rate: Dec,
    /// The rate never rises above this.
    pub max_rate: Dec,
    /// The most by which one change may raise the rate.
    pub max_change: Dec,
    /// When the rate was last changed.
    pub updated: Moment,
}

/// A validator (`stakingtypes.Validator`).
#[derive(Clone, Copy, Debug, PartialEq, Eq)]
pub struct Validator {
    pub operator: Addr,
    pub cons: ConsAddr,
    pub status: BondStatus,
    pub jailed: bool,
    /// In units of the bond denomination.
    pub tokens: u128,
    /// The sum of the shares of its delegations.
    pub shares: Dec,
    pub commission: Commission,
    /// The least self-delegation, in units of the bond denomination.
    pub min_self: u128,
    /// The height at which it last began to unbond, and 0 before.
    pub unbonding_height: u64,
    /// When that unbonding is complete.
    pub unbonding_time: Moment,
}

/// Tokens that left a delegation and are not paid yet (`stakingtypes.UnbondingDelegationEntry`).
#[derive(Clone, Copy, Debug, PartialEq, Eq)]
pub struct UnbondingEntry {
    /// The height at which it was made.
    pub created: u64,
    pub completes: Moment,
    /// What came out of the delegation, in units of the bond denomination.
    pub initial: u128,
    /// What is left of it after slashes.
    pub balance: u128,
}

/// A move of a delegation from one validator to another (`stakingtypes.RedelegationEntry`).
#[derive(Clone, Copy, Debug, PartialEq, Eq)]
pub struct RedelegationEntry {
    /// The height at which it was made, or that of the source's own unbonding.
    pub created: u64,
    pub completes: Moment,
    /// What came out of the source, in units of the bond denomination.
    pub initial: u128,
    /// The shares that this gave at the target.
    pub shares_dst: Dec,
}

/// What is known of a validator's votes (`slashingtypes.ValidatorSigningInfo`).
#[derive(Clone, Copy, Debug, PartialEq, Eq)]
pub struct SigningInfo {
    /// The height at which it last became bonded.
    pub start: u64,
    /// The votes since they were last reset.
    pub counted: u64,
    /// The missed ones among the last votes of the window.
    pub missed: u64,
    pub jailed_until: Moment,
    pub tombstoned: bool,
}

/// What the distribution account holds for a validator and its delegators (`x/distribution`:
/// `ValidatorOutstandingRewards`, `ValidatorAccumulatedCommission`, `ValidatorCurrentRewards`).
#[derive(Debug, Drop)]
pub struct Purse {
    pub outstanding: DecCoins,
    pub commission: DecCoins,
    /// The rewards of the current period.
    pub current: DecCoins,
}

/// The rewards of one token since the validator was created, at the end of a period
/// (`distrtypes.ValidatorHistoricalRewards`).
#[derive(Debug, Drop)]
pub struct Historical {
    pub ratio: DecCoins,
    /// How many records refer to this one.
    pub count: u128,
}

/// Where a delegation's rewards begin (`distrtypes.DelegatorStartingInfo`).
#[derive(Clone, Copy, Debug, PartialEq, Eq)]
pub struct StartingInfo {
    /// The last ended period.
    pub period: u64,
    /// The delegation's value, in units of 10^-18.
    pub stake: Dec,
    pub height: u64,
}

/// A slash of a validator (`distrtypes.ValidatorSlashEvent`).
#[derive(Clone, Copy, Debug, PartialEq, Eq)]
pub struct SlashEvent {
    pub height: u64,
    /// The period that it ended.
    pub period: u64,
    /// The part of the tokens that was lost.
    pub fraction: Dec,
}

impl Copied for Commission {
    ghost is_infallible = { ⊤ };

    fn copied(&self) -> Result<Commission, TableFault> {
        Ok(*self)
    }
}

impl Copied for Validator {
    ghost is_infallible = { ⊤ };

    fn copied(&self) -> Result<Validator, TableFault> {
        Ok(*self)
    }
}

impl Copied for UnbondingEntry {
    ghost is_infallible = { ⊤ };

    fn copied(&self) -> Result<UnbondingEntry, TableFault> {
        Ok(*self)
    }
}

impl Copied for RedelegationEntry {
    ghost is_infallible = { ⊤ };

    fn copied(&self) -> Result<RedelegationEntry, TableFault> {
        Ok(*self)
    }
}

impl Copied for SigningInfo {
    ghost is_infallible = { ⊤ };

    fn copied(&self) -> Result<SigningInfo, TableFault> {
        Ok(*self)
    }
}

impl Copied for StartingInfo {
    ghost is_infallible = { ⊤ };

    fn copied(&self) -> Result<StartingInfo, TableFault> {
        Ok(*self)
    }
}

impl Copied for SlashEvent {
    ghost is_infallible = { ⊤ };

    fn copied(&self) -> Result<SlashEvent, TableFault> {
        Ok(*self)
    }
}

impl Copied for Purse {
    fn copied(&self) -> Result<Purse, TableFault> {
        Ok(Purse {
            outstanding: self.outstanding.copied()?,
            commission: self.commission.copied()?,
            current: self.current.copied()?,
        })
    }
}

impl Copied for Historical {
    fn copied(&self) -> Result<Historical, TableFault> {
        Ok(Historical {
            ratio: self.ratio.copied()?,
            count: self.count,
        })
    }
}
