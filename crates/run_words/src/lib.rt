//! The words of the command line: which of them are a command, and what it asks for.
#![tactic(auto)]

mod asked;
mod fault;
mod mode;
mod numbers;
mod words;
mod worked;

pub use fault::WordsFault;
pub use mode::{Command, Mode};
pub use words::read_words;
pub use worked::words_by_example;
