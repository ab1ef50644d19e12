//! Tests of `store_history`. They stand apart so that they are proved without it, and nothing waits for them.
#![tactic(auto)]

#[cfg(test)]
mod checked;
#[cfg(test)]
mod keeper_tests;
#[cfg(test)]
mod lending;
#[cfg(test)]
mod past_tests;
