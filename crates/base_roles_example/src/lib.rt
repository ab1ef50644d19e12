//! Small values of the traits of `base_roles`, and callers that know its roles alone: what votes, evidence,
//! slashes and delegating will do is proved here of every bank, hooks and slasher. They stand apart so that
//! nothing waits for them.
#![tactic(auto)]

pub mod callers;
pub mod forgetting;
pub mod trials;
