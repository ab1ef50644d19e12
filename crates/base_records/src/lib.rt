//! The records of a module as items of the state: a module names each kind of its records by a key, a value
//! and an item, and keeps them in a table. Its items and its changes since the last settling follow, for one
//! table and for several side by side.
#![tactic(auto)]

mod as_item;
mod kinds;
mod marks;
mod walk;

pub use as_item::AsItem;
pub use kinds::{Both, Kinds, One};
pub use marks::mark_both;
