//! The trial: the generated input is applied to a chain block by block, and summed up. No line of the input is formed.
//!
//! [`try_input`] gives the summary of the input of a seed, or else a [`TrialFault`]. [`Counts`] are what the reports of
//! blocks come to: how many transactions were carried out and how many were not, and what was burned. [`push_summary`]
//! appends the line of a summary: the counts, and what there is at the end.
//!
//! [`generated_is_input`], [`counts_have_room`] and [`trial_is_of_its_lines`] are laws: a chain takes the generated
//! input, its counts have room, and the summary is that of the lines of the input.
#![tactic(auto)]

mod counting;
mod counts;
mod fault;
mod laws;
mod line;
mod trying;

pub use counts::Counts;
pub use fault::TrialFault;
pub use laws::{counts_have_room, generated_is_input, trial_is_of_its_lines};
pub use line::push_summary;
pub use trying::try_input;
