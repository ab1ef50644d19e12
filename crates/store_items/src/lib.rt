//! The items of a state as the rows of a keeper, and changes of items as changes of rows.
//!
//! [`items_of`] reads the rows that a keeper loaded; [`puts_of`] writes what a first commit is to
//! put, and [`changes_of`] what a later one is to change. [`migrate`] makes the changes from the
//! first format of rows to the second.
//!
//! Two laws say that this keeps a state: of the items of a sound one no two have one key, and each has a row
//! ([`items_can_be_kept`]); and a commit of the changes from old items to new ones leaves just the rows of the new ones
//! ([`commits_reach_new_rows`]).
#![tactic(auto)]

pub mod laws;
mod lists;
mod migrating;

pub use laws::{commits_reach_new_rows, items_can_be_kept};
pub use lists::{changes_of, items_of, puts_of};
pub use migrating::migrate;
