//! The ballots of an input, read from lines, and the line of their tally.
#![tactic(auto)]

mod ballot;
mod reading;
mod telling;
mod worked;

pub use ballot::Ballot;
pub use reading::read_ballot;
pub use telling::push_line_of_tally;
pub use worked::ballots_by_example;
