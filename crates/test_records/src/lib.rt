//! Tests of records: out of items (`store_records`), by the tests of a sound state (`store_soundness`), put into
//! modules (`store_loading`), and as a chain that goes on (`store_resuming`), and of a chain with a recorder
//! (`mod_recorder`). [`worked`] holds worked rows of the definitions of the first two. They stand apart so that they are
//! proved without these, and nothing waits for them.
#![tactic(auto)]

#[cfg(test)]
mod listening_tests;
#[cfg(test)]
mod loading_tests;
#[cfg(test)]
mod plain_tests;
#[cfg(test)]
mod resuming_tests;
pub mod worked;
