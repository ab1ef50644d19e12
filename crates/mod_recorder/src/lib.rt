//! A recorder: it listens to staking and notes what reward statements rest on and no fact shows.
//!
//! What a delegation's reward rests on is told twice over. Fees and the ends of periods are facts of a block. That
//! a delegation's rewards began, that shares were about to change and that tokens were slashed is heard at the
//! hooks of staking (Cosmos SDK v0.47: `StakingHooks` of `x/staking`), which a [`Recorder`] notes in their order,
//! each with its place among the facts of its block.
#![tactic(auto)]

mod note;
mod recorder;
mod records;
pub mod worked;

pub use note::Note;
pub use recorder::Recorder;
