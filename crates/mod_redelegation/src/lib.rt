//! Redelegation entries (Cosmos SDK v0.47: module `x/staking`), with a queue of what completes first.
#![tactic(auto)]

mod asking;
mod beginning;
mod completing;
mod items;
mod keyed;
mod records;
mod redelegations;
mod slashing;

pub use redelegations::Redelegations;
