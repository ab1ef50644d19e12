//! The count of ballots by stake, as `x/gov` of Cosmos SDK v0.47 counts them (`Tally` of `x/gov/keeper`): a
//! delegator's ballot counts for its own stake, and an operator's for the stake of all its delegators who cast
//! none.
//!
//! [`tally`] counts a list of ballots, and [`count`] those that were cast one by one into [`Ballots`].
#![tactic(auto)]

mod ballots;
mod choice;
mod counting;
mod fault;
pub mod laws;
mod outcome;
mod polls;
mod tallying;
mod totals;
pub mod worked;

pub use ballots::Ballots;
pub use choice::Choice;
pub use fault::TallyFault;
pub use outcome::Tally;
pub use tallying::{count, tally};
