//! Worked rows of the rules of `rule_modules`, computed from the definitions, and of the bracket: rewards that wrong
//! rules would pay. They stand apart so that nothing waits for them.
#![tactic(auto)]

pub mod rewards;
pub mod rules;
