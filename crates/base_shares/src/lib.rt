//! Shares of a validator's tokens: what an amount issues, what shares are worth, and what leaves with them.
//!
//! The rules are those of `Validator` in Cosmos SDK v0.47 (module `x/staking/types`): tokens are whole
//! amounts, and delegator shares are decimals of 18 places. [`laws`] says what the rounding keeps.
#![tactic(auto)]

mod fault;
pub mod laws;
mod shares;
pub mod worked;

pub use fault::ShareFault;
pub use shares::{issue, remove, shares_for, value_cut, value_even};
