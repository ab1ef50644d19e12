//! Items: the rows of the state of all modules, each a key with its value.

use crate::entities::{
    Historical, Purse, RedelegationEntry, SigningInfo, SlashEvent, StartingInfo, UnbondingEntry,
    Validator,
};
use crate::lists::Listed;
use crate::params::Params;
use base_coins::DecCoins;
use base_decimals::Dec;
use base_types::{Account, Addr, ConsAddr, Denom, Moment};

/// One row of the state: the fields of its key, then those of its value. Whole amounts are in units of
/// their denomination, and decimal coins in units of 10^-18 of it.
#[derive(Debug, Drop)]
pub enum Item {
    /// The last height and time.
    Head {
        height: u64,
        time: Moment,
    },
    Parameters {
        params: Params,
    },
    /// Not 0.
    Balance {
        account: Account,
        denom: Denom,
        amount: u128,
    },
    /// Not 0.
    Supply {
        denom: Denom,
        amount: u128,
    },
    Validator {
        validator: Validator,
    },
    Delegation {
        operator: Addr,
        delegator: Addr,
        shares: Dec,
    },
    /// At least one entry.
    Unbonding {
        delegator: Addr,
        operator: Addr,
        entries: Listed<UnbondingEntry>,
    },
    /// At least one entry.
    Redelegation {
        delegator: Addr,
        source: Addr,
        target: Addr,
        entries: Listed<RedelegationEntry>,
    },
    Signing {
        cons: ConsAddr,
        info: SigningInfo,
        /// The last votes by their places in the window; a missed one is true.
        ring: Listed<bool>,
    },
    Purse {
        operator: Addr,
        purse: Purse,
    },
    /// The community pool.
    Pool {
        coins: DecCoins,
    },
    /// Where a delegator's rewards go, if not to itself.
    Withdraw {
        delegator: Addr,
        to: Addr,
    },
    /// The period of a validator that has not ended.
    CurrentPeriod {
        operator: Addr,
        period: u64,
    },
    Historical {
        operator: Addr,
        period: u64,
        history: Historical,
    },
    Start {
        operator: Addr,
        delegator: Addr,
        info: StartingInfo,
    },
    Event {
        operator: Addr,
        event: SlashEvent,
    },
}
