//! Tests of the generated input (`run_generated`), and of its trial and the summary of that (`run_trial`). They stand
//! apart so that they are proved without these, and nothing waits for them.
#![tactic(auto)]

#[cfg(test)]
mod input_tests;
#[cfg(test)]
mod spelling_tests;
#[cfg(test)]
mod summary_tests;
#[cfg(test)]
mod trial_tests;
