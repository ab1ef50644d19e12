//! The modules of a chain over one ground: the bank; validators, delegations and entries; distribution and
//! signing records, which listen to staking. They are marked and gone back to together, and what they keep
//! stands for states of the machine (Cosmos SDK v0.47: modules `x/bank`, `x/staking`, `x/distribution` and
//! `x/slashing`).
#![tactic(auto)]

mod context;
pub mod laws;
mod letting_go;
mod listening;
mod listing;
mod marks;
mod modules;

pub use letting_go::let_go;
pub use listening::Listening;
pub use modules::{Heard, Hooks, Modules, Stakes};
