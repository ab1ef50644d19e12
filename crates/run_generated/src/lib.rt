//! The generated input: a genesis, and blocks whose votes, evidence and transactions are drawn from a seed. It is made
//! a line at a time, so that an input of any length takes the memory of its longest line.
//!
//! [`first_genesis`] is the genesis. A [`Generator`] draws the blocks one after another; [`Choices`] are what it draws
//! of a transaction. [`push_genesis_line`] and [`push_block_line`] append the lines of a genesis and of a block.
//! [`generate`] gives the line at a place, and [`write_input`] writes all of them to a sink; [`write_text`] writes a
//! text.
//!
//! [`input_by_example`] holds worked rows, [`lines_stand_at_their_places`] the law of `generate`, and [`generated_is_read`]
//! that the lines are read back.
#![tactic(auto)]

mod block;
mod by_place;
mod choices;
mod drawing;
mod genesis;
mod input;
mod lines;
mod messages;
mod names;
mod params;
mod spelling;
mod worked;

pub use by_place::generate;
pub use choices::Choices;
pub use drawing::Generator;
pub use genesis::first_genesis;
pub use input::{write_input, write_text};
pub use lines::{push_block_line, push_genesis_line};
pub use worked::{generated_is_read, input_by_example, lines_stand_at_their_places};
