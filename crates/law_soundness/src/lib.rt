//! That states stay sound, what the accounts owe, what lowers supplies, how messages are refused and blocks answered: laws over
//! the rules of `rule_modules` and the machine of `rule_machine`.
//!
//! A sound state is `IsSound` of `rule_modules`. Each law is the contract of a function that does nothing.
#![tactic(auto)]

pub mod blocks;
pub mod messages;
pub mod runs;
