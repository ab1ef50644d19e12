//! Distribution as hooks of staking: periods end and begin where delegations change, rewards and
//! commissions are withdrawn, and a block's fees are allocated (Cosmos SDK v0.47: `x/distribution/keeper`).
//!
//! Contracts speak of plain records, of which no ratio is ever deleted: `KeepsShared` says for which plain
//! records those stand that are kept, and each call says that it carries its rule out on each of them. No
//! call walks over delegations.
#![tactic(auto)]

mod allocating;
mod commissions;
mod distr;
mod funding;
mod hooks;
mod kinds;
mod paying;
mod pending;
mod periods;
mod records;
mod withdrawing;

pub use distr::Distr;
