//! Reward statements: for one withdrawal, the entries that it rests on and bounds that anybody can check.
//!
//! A statement has what happened to a validator from a delegator's start to its withdrawal. [`make`]
//! computes from these entries a low and a high bound of the reward that sharing each block's fees at
//! once would give, and by how much rounding may lie below; [`check`] computes them again and compares
//! the reward. The rewards themselves are those of `x/distribution` of Cosmos SDK v0.47 (Ojha and Goes,
//! F1 fee distribution), which settles lazily.
#![tactic(auto)]

mod bounds;
mod denoms;
mod entry;
mod fault;
pub mod laws;
mod rounding;
mod slack;
mod span;
mod stakes;
mod statement;
mod sums;
pub mod worked;

pub use entry::Entry;
pub use fault::StatementFault;
pub use statement::{Statement, check, make};
