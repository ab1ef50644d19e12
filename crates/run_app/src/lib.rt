//! The top call: `run` reads lines from a source, lets the machine answer each, and writes the
//! answers to a sink.
#![tactic(auto)]

mod answer;
mod balloting;
mod checking;
mod feeding;
mod finishing;
mod generating;
mod keeping;
mod line;
mod performing;
mod progress;
mod recalling;
mod releasing;
mod report;
mod resuming;
mod running;
mod stating;
mod status;
mod taking;
mod tallying;

pub use running::run;
pub use status::{InputFault, LimitKind, Status};
