//! The bank of the accounting: balances and supplies over two tables, with the message by which users
//! send coins (Cosmos SDK v0.47: what `x/staking` and `x/distribution` use of `x/bank`, and its `MsgSend`).
#![tactic(auto)]

mod balances;
mod kinds;
mod laws;
mod moves;
mod records;
mod tables;
mod walk;
mod worked;

pub use balances::BankBalances;
pub use laws::accounts_hold_what_they_are_given;
pub use worked::sends_by_example;
