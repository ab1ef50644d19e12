//! Keys that stand twice in a list, or among those of another.
#![tactic(auto)]

mod repeats;

pub use repeats::{add_key, are_among, has_repeat};
