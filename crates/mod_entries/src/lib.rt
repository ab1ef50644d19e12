//! Entries by key that complete at a moment, found by what completes first and by the operator that they
//! are from, as unbonding and redelegating keep them (Cosmos SDK v0.47: module `x/staking`).
#![tactic(auto)]

mod asking;
mod changing;
mod due;
mod entries;
mod entry;
mod slashing;
mod sources;
mod ways;

pub use asking::{completion, is_wrong, shares_to_unbond};
pub use entries::Entries;
pub use entry::{Entry, EntryKey, least_addr};
pub use slashing::{counted_of, is_hit, is_mature, is_same, part_of};
