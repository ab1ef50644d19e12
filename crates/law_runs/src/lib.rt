//! That the accounts of rewards are reached wherever a genesis and blocks lead to, and what follows of rewards: laws over the
//! whole machine.
//!
//! That steps keep accounts reached is proved in `law_rewards`, and that states stay sound in `law_soundness`; here both are put
//! together. Each law is the contract of a function that does nothing.
#![tactic(auto)]

pub mod runs;
