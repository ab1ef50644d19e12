//! Tests of the words of commands (`run_words`). They stand apart so that they are proved without them, and nothing
//! waits for them.
#![tactic(auto)]

#[cfg(test)]
mod rows;
#[cfg(test)]
mod words_tests;
