//! The records of a state out of its items, in any order.
#![tactic(auto)]

mod gathering;
mod places;
mod records;

pub use gathering::records_of;
pub use records::{PlainLists, PlainRecords, PlainShared, Signed};
