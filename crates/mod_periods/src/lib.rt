//! Periods of validators, starts of delegations, slash events, and the reward that follows from them: the
//! heart of F1 fee distribution (Ojha and Goes, "F1 Fee Distribution"; Cosmos SDK v0.47: `x/distribution`).
//!
//! A validator's rewards come in periods. The record of an ended period holds a ratio: the rewards of one
//! token since the validator was created. A delegation's reward is the growth of the ratio since its start
//! times its stake, in one stretch between each two slashes. A record is deleted once nothing refers to it.
#![tactic(auto)]

mod clear;
mod counts;
mod f1;
mod items;
mod keyed;
mod records;
mod reward;
mod slash;
mod tables;
mod walk;
mod worked;

pub use f1::F1;
pub use worked::{references_by_example, rewards_by_example};
