//! Transactions over the modules of a chain: the fee, then messages that stand or fall together, each carried out
//! by its module (Cosmos SDK v0.47: `runTx` of `baseapp`, the fee of `x/auth`, and the message servers of
//! `x/bank`, `x/staking`, `x/slashing` and `x/distribution`).
#![tactic(auto)]

mod distributing;
mod message;
mod moving;
mod staking;
mod transaction;
mod unbonding;
mod updating;

pub use message::apply_message;
pub use transaction::apply_transactions;
