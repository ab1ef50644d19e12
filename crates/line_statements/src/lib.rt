//! Reward statements as lines: read, written, and answered.
//!
//! A statement (`mod_statement`) is one line, of which each member has its number and its form.
#![tactic(auto)]

mod entries;
mod kind;
mod reading;
mod telling;
mod worked;

pub use kind::EntryKind;
pub use reading::read_statement;
pub use telling::{push_line_of_answer, push_line_of_statement};
pub use worked::statements_by_example;
