//! Tests of modules: of the bank (`mod_bank`), of staking and of unbonding entries over that bank (`mod_staking` and
//! `mod_unbonding`), and of F1 (`mod_periods`). They stand apart so that they are proved without these, no module waits
//! for another, and nothing waits for them.
#![tactic(auto)]

#[cfg(test)]
mod bank_letting_go;
#[cfg(test)]
mod bank_tests;
#[cfg(test)]
mod bank_trials;
pub mod counted;
#[cfg(test)]
mod period_calls;
#[cfg(test)]
mod period_letting_go;
#[cfg(test)]
mod period_tests;
#[cfg(test)]
mod period_trials;
#[cfg(test)]
mod plain_periods;
#[cfg(test)]
mod staking_letting_go;
#[cfg(test)]
mod staking_records;
#[cfg(test)]
mod staking_tests;
#[cfg(test)]
mod staking_trials;
#[cfg(test)]
mod unbonding_letting_go;
#[cfg(test)]
mod unbonding_records;
#[cfg(test)]
mod unbonding_tests;
#[cfg(test)]
mod unbonding_trials;
