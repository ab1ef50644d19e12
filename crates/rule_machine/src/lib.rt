//! The machine of the accounting, as definitions: what a genesis starts, what a block does, and why either
//! may not be. They are functions of plain lists and numbers over the rules of `rule_modules`, and say nothing of how anything
//! is kept.
//!
//! The public functions do nothing: their contracts are laws of the definitions. What runs keep is proved in `law_soundness` and
//! `law_runs`; worked rows and whole runs are `rule_histories`.
#![tactic(auto)]

pub mod laws;

pub use laws::{all_transactions_end, plain_messages_name_conditions};
