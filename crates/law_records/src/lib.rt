//! That the tests of records decide what makes their plain state sound: laws over the definitions of `store_records`,
//! `store_soundness` and `rule_modules`.
//!
//! Each law is the contract of a function that does nothing.
#![tactic(auto)]

pub mod again;
pub mod histories;
pub mod laws;
pub mod listed;
pub mod sound;
