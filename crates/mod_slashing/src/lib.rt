//! Slashing and jailing validators (Cosmos SDK v0.47: module `x/staking`, `Slash` and `Jail`), over any entries that
//! can be slashed.
#![tactic(auto)]

mod amounts;
mod burning;
mod slashing;
mod views;

pub use views::Core;
