//! Tests of `base_bech32`. They stand apart so that they are proved without it, and nothing waits for them.
#![tactic(auto)]

#[cfg(test)]
mod spelling_tests;
