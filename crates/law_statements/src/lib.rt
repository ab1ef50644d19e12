//! Laws of the reward statements of a pair: what a payment rests on by the log of its validator, and that its statement is right.
#![tactic(auto)]

pub mod laws;
