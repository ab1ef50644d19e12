//! Tests of what a run reads from, writes to and keeps: of sources, sinks and keepers (`base_io`), of items as rows
//! (`store_rows` and `store_items`), and of the keeper over a database (`store_sqlite`). They stand apart so that they
//! are proved without these, and nothing waits for them.
#![tactic(auto)]

#[cfg(test)]
mod checked;
#[cfg(test)]
mod format_tests;
#[cfg(test)]
mod keeper_tests;
#[cfg(test)]
mod memory_tests;
#[cfg(test)]
mod row_tests;
#[cfg(test)]
mod sql_tests;
#[cfg(test)]
mod standard_tests;
#[cfg(test)]
mod stored_tests;
