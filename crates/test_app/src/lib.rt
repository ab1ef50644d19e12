//! Tests of `run_app`. They stand apart so that they are proved without it, and nothing waits for them.
#![tactic(auto)]

#[cfg(test)]
mod check_tests;
#[cfg(test)]
mod outside_tests;
#[cfg(test)]
mod samples;
#[cfg(test)]
mod spelled_tests;
#[cfg(test)]
mod statement_tests;
#[cfg(test)]
mod tally_tests;
#[cfg(test)]
mod tests;
