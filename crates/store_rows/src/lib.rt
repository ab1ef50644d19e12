//! Rows of a store, one for each item of the state.
//!
//! [`encode`] gives the row of an item and [`decode`] the item of a row; items and rows are one to one. A
//! key is one byte that tells the kind of the item, and the fields of its key. A value is the other
//! fields. Numbers have a fixed length, heights and periods 8 bytes, amounts, decimals (their units of
//! 10^-18), counts and moments (their nanoseconds) 16, the length of a list 4, with the highest byte
//! first. So the rows of one kind are in the order of their keys, as they stand in a store.
//!
//! There are two formats, which differ in how a signing record tells the missed votes of its window
//! ([`Format`]); rows are written in the second. [`format_of`] tells the format of rows, and
//! [`window_of`] the length of a window, before they are read.
//!
//! The Cosmos SDK keeps its state in other rows; these are this project's own.
#![tactic(auto)]

mod coins;
mod fault;
mod fields;
mod format;
mod front;
mod items;
mod kind;
pub mod laws;
mod lists;
mod missed;
mod places;
mod rings;
mod rows;
mod told;
mod values;
pub mod worked;
mod writing;

pub use fault::RowFault;
pub use format::Format;
pub use rows::{decode, encode, key_of, read_back};
pub use told::{format_of, window_of};
