//! Blocks over the modules of a chain: why one may not follow, its beginning, its transactions and its end (Cosmos
//! SDK v0.47: `BeginBlock`, `DeliverTx` and `EndBlock` of `baseapp`, over `x/distribution`, `x/slashing`,
//! `x/evidence` and `x/staking`).
#![tactic(auto)]

mod beginning;
mod block;
mod checking;
mod ending;
mod fault;

pub use block::apply;
pub use checking::is_past_blocks;
pub use ending::update_set;
