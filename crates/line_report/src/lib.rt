//! The report of a state and the answers to questions about it, as lines: from the items of the state and the
//! pending rewards of its delegations.
#![tactic(auto)]

mod accounts;
mod answering;
mod asked;
mod groups;
mod laws;
mod lines;
mod pushing;
mod question;
mod reporting;
mod sections;
mod telling;
mod worked;

pub use answering::query;
pub use laws::{answers_are_lines, states_are_asked, states_are_reported};
pub use question::Query;
pub use reporting::report;
pub use worked::reports_by_example;
