//! Tests of what a run leaves where something outside fails, or where it stops. They stand apart so that they are proved
//! without what they try, and nothing waits for them.
#![tactic(auto)]

#[cfg(test)]
mod exit_tests;
#[cfg(test)]
mod old;
#[cfg(test)]
mod stop_tests;
#[cfg(test)]
mod whole;
