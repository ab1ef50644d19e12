//! Tests of `mod_statement`. They stand apart so that they are proved without it, and nothing waits for them.
#![tactic(auto)]

#[cfg(test)]
mod statement_tests;
#[cfg(test)]
mod statements;
