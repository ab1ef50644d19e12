//! The modules of a chain out of the records of a state: each record is put into the module of its kind, and the
//! modules are settled as they stand then.
#![tactic(auto)]

mod listing;
mod loading;
mod modules;

pub use listing::items_of;
pub use modules::modules_of;
