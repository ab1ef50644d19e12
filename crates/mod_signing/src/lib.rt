//! Signing records and missed votes (Cosmos SDK v0.47: module `x/slashing`): the last votes of each
//! consensus address, the punishment of downtime, leaving jail, banning, and a window that changes.
//!
//! A record keeps an info and a ring: of the last votes of the window one bit each, by their places. The bits
//! stand in rows of a table beside that of the infos, under the same marks, so a vote changes one row, and
//! neither a mark nor a settling copies a ring.
#![tactic(auto)]

mod bits;
mod downtime;
mod entry;
mod hooks;
mod items;
mod laws;
mod records;
mod resizing;
mod ring;
mod signers;
mod tables;
mod unjailing;
mod voting;
mod walk;
mod window;

pub use laws::{banning_carries_records, resizing_carries_records};
pub use ring::Ring;
pub use window::Window;
