//! Unbonding entries (Cosmos SDK v0.47: module `x/staking`).
#![tactic(auto)]

mod cancelling;
mod changing;
mod completing;
mod entries;
mod following;
mod items;
mod records;
mod slashing;
mod unbondings;
mod undelegating;

pub use unbondings::Unbondings;
