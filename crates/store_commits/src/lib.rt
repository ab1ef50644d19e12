//! A chain in a keeper: the rows of its genesis, and at each block those that changed.
//!
//! [`commit_first`] puts the rows of a chain into a keeper that has none, and [`commit_next`] makes
//! the changes since the last settling. [`commit_migration`] brings rows that a run is to go on
//! from to the format that is written. Each is all or nothing: at each moment a stop leaves the
//! rows of before, or those of after.
#![tactic(auto)]

mod commits;

pub use commits::{commit_first, commit_migration, commit_next, has_rows};
