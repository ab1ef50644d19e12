//! Compact texts: what is matched is the compact text of a tree, so that `serde_json` reads that tree from it.
//!
//! Each call takes a text and gives what it begins with, and the text behind that. None says nothing of the text: a
//! caller reads it in another way then.
#![tactic(auto)]

mod addresses;
mod pieces;

pub use addresses::address;
pub use pieces::{after, amount, count, flag, string};
