//! A finite map in the order of its keys, as the records of modules are kept: it can be marked and gone
//! back, it lists what was touched since it was last settled, and each look-up, change and item of a walk
//! counts one step.
#![tactic(auto)]

mod change;
mod laws;
mod places;
mod slot;
mod table;
mod undo;
mod walk;

pub use base_types::{Copied, TableFault};
pub use laws::going_back_by_example;
pub use table::Table;
