//! Validators and delegations (Cosmos SDK v0.47: module `x/staking`): they are created, edited, delegated
//! to and unbonded, over any lawful bank and hooks, and looked up by operator and by consensus address.
#![tactic(auto)]

mod admitting;
mod changes;
mod creating;
mod delegating;
mod editing;
mod index;
mod items;
mod listed;
mod lists;
mod origin;
mod paying;
mod places;
mod records;
mod staking;
mod unbonding;

pub use delegating::shares_given;
pub use origin::Origin;
pub use paying::{burn_bond, pool_of, send_from};
pub use staking::Staking;
