//! Whether records are those of a sound state, by the tests of eight points.
#![tactic(auto)]

mod backing;
mod entries;
mod events;
mod histories;
mod names;
mod places;
mod ranges;
mod rewards;
mod shares;
mod signing;
mod sound;
mod stakes;
mod standing;
mod tally;

pub use sound::is_sound;
