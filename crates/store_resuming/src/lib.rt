//! A chain out of what a keeper has of it, as a run left it there: rows are loaded and read as items, and the records
//! of these are put into modules.
//!
//! [`load_rows`] loads the rows of a keeper, of which there have to be some. [`restore`] loads the rows of a keeper, in either format, and gives the chain that stands for
//! each sound state of which they are the rows, or else a [`RestoreFault`].
//! [`restore_with_changes`] gives beside it the changes that bring the rows to the format that is
//! written. [`from_items`] gives the chain of items in any order.
//!
//! That rows suffice are laws: the records of a sound state stand for it ([`records_are_kept`]) and
//! are all that does ([`records_are_all`]), and so rows decide what is kept
//! ([`rows_decide_what_is_kept`]), in whichever format they are ([`formats_tell_the_same`]).
#![tactic(auto)]

mod fault;
mod laws;
mod restoring;
mod resuming;
mod telling;

pub use fault::RestoreFault;
pub use laws::{
    formats_tell_the_same, records_are_all, records_are_kept, rows_decide_what_is_kept,
};
pub use restoring::{Restored, chain_of_rows, load_rows, restore, restore_with_changes};
pub use resuming::from_items;
