//! What a reward statement of a pair rests on, followed through a chain's notes and facts, and the statements of its payments.
//!
//! A recorder (`mod_recorder`) notes what no fact shows; the facts of blocks show the rest. A [`Tracker`] takes both in the
//! order in which they happened, and makes a statement of each payment of its pair.
#![tactic(auto)]

mod notes;
mod tracker;
mod walking;
pub mod worked;

pub use tracker::{Pair, Tracker};
