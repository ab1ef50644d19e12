//! Votes and evidence as blocks bring them (CometBFT), and the messages that create and edit validators
//! (`x/staking`).

ghost use Rattle.std.specs.Prelude.{⊤};

use base_coins::Coin;
use base_decimals::Dec;
use base_types::{Addr, ConsAddr, Copied, Moment, TableFault};

/// A vote on the last block (CometBFT: `abci.VoteInfo`).
#[derive(Clone, Copy, Debug, PartialEq, Eq)]
pub struct Vote {
    pub cons: ConsAddr,
    pub power: u64,
    /// Whether it was cast.
    pub signed: bool,
}

/// Evidence that a validator signed two blocks of one height (`x/evidence`: `Equivocation`).
#[derive(Clone, Copy, Debug, PartialEq, Eq)]
pub struct Evidence {
    pub cons: ConsAddr,
    pub height: u64,
    pub time: Moment,
    pub power: u64,
}

/// The message that creates a validator (`stakingtypes.MsgCreateValidator`).
#[derive(Clone, Copy, Debug, PartialEq, Eq)]
pub struct CreateValidator {
    /// The operator, who pays the amount.
    pub validator: Addr,
    pub cons: ConsAddr,
    pub rate: Dec,
    pub max_rate: Dec,
    pub max_change_rate: Dec,
    pub min_self_delegation: u128,
    pub amount: Coin,
}

/// The message that changes a validator (`stakingtypes.MsgEditValidator`). What is None stays.
#[derive(Clone, Copy, Debug, PartialEq, Eq)]
pub struct EditValidator {
    pub validator: Addr,
    pub rate: Option<Dec>,
    pub min_self_delegation: Option<u128>,
}

impl Copied for Vote {
    ghost is_infallible = { ⊤ };

    fn copied(&self) -> Result<Vote, TableFault> {
        Ok(*self)
    }
}

impl Copied for Evidence {
    ghost is_infallible = { ⊤ };

    fn copied(&self) -> Result<Evidence, TableFault> {
        Ok(*self)
    }
}

impl Copied for CreateValidator {
    ghost is_infallible = { ⊤ };

    fn copied(&self) -> Result<CreateValidator, TableFault> {
        Ok(*self)
    }
}

impl Copied for EditValidator {
    ghost is_infallible = { ⊤ };

    fn copied(&self) -> Result<EditValidator, TableFault> {
        Ok(*self)
    }
}
