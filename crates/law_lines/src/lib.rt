//! That lines are read back: laws over the definitions of `line_json`.
//!
//! Each law is the contract of a function that does nothing.
#![tactic(auto)]

pub mod laws;
