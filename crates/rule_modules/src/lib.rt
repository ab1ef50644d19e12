//! The rules of the accounting, as definitions over plain records (specs/). Their worked rows are `rule_worked`.
//!
//! The rules are those of Cosmos SDK v0.47, modules `x/staking`, `x/slashing`, `x/evidence` and `x/distribution`; what is
//! this project's own is marked so beside it. docs/RULES.md lists them.
#![tactic(auto)]

pub mod laws;
