//! Worked rows of the summaries of `run_trial`, computed from the definitions. They stand apart so that nothing waits
//! for them.
#![tactic(auto)]

pub mod worked;
