//! The bonded set (Cosmos SDK v0.47: module `x/staking`): it is made anew at the end of a block, and
//! validators whose unbonding is mature become unbonded, over any lawful bank and hooks.
#![tactic(auto)]

mod joining;
mod leaving;
mod maturing;
mod paying;
mod set;
mod updating;

pub use maturing::mature_validators;
pub use updating::update;
