//! What the modules of the accounting share: the records that they keep, the facts that they tell, why a
//! call refuses or fails, and the traits by which they use one another without knowing how anything is
//! kept: banks, hooks of staking, delegations that can be unbonded, and slashing.
//!
//! The records and their names are those of Cosmos SDK v0.47 (modules `x/staking`, `x/distribution`,
//! `x/slashing`).
#![tactic(auto)]

pub mod bank;
pub mod calls;
pub mod delegation;
pub mod entities;
pub mod extra;
pub mod facts;
pub mod faults;
pub mod hooks;
pub mod items;
pub mod laws;
pub mod lists;
pub mod messages;
pub mod no_hooks;
pub mod pair;
pub mod params;
pub mod records;
pub mod refusal;
pub mod slashing;
pub mod staked;
pub mod worked;

pub use bank::{Bank, Ground};
pub use calls::Hook;
pub use delegation::Delegation;
pub use entities::{
    Commission, Historical, Purse, RedelegationEntry, SigningInfo, SlashEvent, StartingInfo,
    UnbondingEntry, Validator,
};
pub use extra::Extra;
pub use facts::{Fact, Facts};
pub use faults::{BankFault, HookFault, MessageFault, RecordFault};
pub use hooks::StakingHooks;
pub use items::Item;
pub use lists::Listed;
pub use messages::{CreateValidator, EditValidator, Evidence, Vote};
pub use no_hooks::NoHooks;
pub use pair::HookPair;
pub use params::{Ctx, Params};
pub use records::Records;
pub use refusal::Refusal;
pub use slashing::{RedelegationSlash, Signers, Slasher, UnbondingSlash};
pub use staked::{Unbonder, ValidatorView};
