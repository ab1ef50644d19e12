//! Tests of `mod_tally`. They stand apart so that they are proved without it, and nothing waits for them.
#![tactic(auto)]

#[cfg(test)]
mod stakes;
#[cfg(test)]
mod tests;
