//! Worked rows and whole runs of the machine of `rule_machine`, computed from the definitions. They stand apart so that
//! nothing waits for them.
#![tactic(auto)]

pub mod worked;
