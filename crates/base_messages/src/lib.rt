//! What the program reads and what it tells, as plain values: a genesis, blocks with their transactions and
//! messages, the reports of blocks, and the faults of lines and blocks.
//!
//! The messages and the names of their fields are those of Cosmos SDK v0.47 (modules `x/bank`, `x/staking`,
//! `x/slashing`, `x/distribution`).
#![tactic(auto)]

pub mod block;
pub mod faults;
pub mod genesis;
pub mod message;
pub mod report;

pub use base_roles::{CreateValidator, EditValidator, Evidence, Vote};
pub use block::{Block, Tx};
pub use faults::{BlockFault, LineFault};
pub use genesis::{Genesis, GenesisAccount, GenesisDelegation, GenesisValidator};
pub use message::{
    BeginRedelegate, CancelUnbonding, CommunityPoolSpend, Delegate, FundCommunityPool, Msg, Send,
    SetWithdrawAddress, Undelegate, Unjail, UpdateParams, WithdrawCommission, WithdrawReward,
};
pub use report::{BlockReport, Outcome, Pending, TxReport};
