//! The bracket and the bounded shortfall of rewards, as laws over the rules of `rule_modules`.
//!
//! An account is one validator in one denomination: tokens, shares, periods, starts, what is outstanding, and what
//! happened. Deeds are what the rules do to it. Of each account that fitting deeds lead to, the reward of every delegation
//! lies between the fees shared block by block in exact fractions and that less a stated slack, and what is outstanding
//! covers all claims but for a stated overclaim. The rules are those of the F1 fee distribution (Ojha and Goes) as Cosmos
//! SDK v0.47 has them in `x/distribution`. Amounts, shares and stakes are numbers of units of 10^-18.
#![tactic(auto)]

pub mod changes;
pub mod laws;
pub mod running;
pub mod states;
pub mod withdrawals;
pub mod worked;
