//! The chain: it starts from a genesis, applies blocks one after the other, and lists what it keeps, what changed
//! of it and which rewards are pending.
//!
//! What it answers is what the machine of `rule_machine` gives, or that memory is wanting; what it keeps stands
//! for the machine's state (Cosmos SDK v0.47: `x/bank`, `x/staking`, `x/distribution`, `x/slashing`,
//! `x/evidence`, and `runTx` of `baseapp`).
#![tactic(auto)]

mod accounts;
mod chain;
mod conditions;
mod fault;
mod listing;
mod pending;
mod start;
mod supplies;

pub use base_messages::{Block, BlockFault, BlockReport, Genesis, Outcome, Pending, TxReport};
pub use chain::Chain;
pub use fault::ChainFault;
