//! Reports of blocks and their transactions, and what a delegation's pending rewards are.

use base_coins::DecCoins;
use base_roles::{Facts, Listed, Refusal};
use base_types::{Addr, Moment};

/// How a transaction ended.
#[derive(Clone, Copy, Debug, PartialEq, Eq)]
pub enum Outcome {
    /// The fee was paid, and all its messages were carried out.
    Accepted,
    /// The payer was short of the fee, and nothing changed.
    FeeUnpaid,
    /// The fee was paid; the message at this place, the first such, was refused, and none was carried out.
    Refused(usize, Refusal),
}

/// What a transaction did.
#[derive(Debug, Drop)]
pub struct TxReport {
    pub facts: Facts,
    pub outcome: Outcome,
}

/// What a block did: at its beginning, for each transaction, and at its end.
#[derive(Debug, Drop)]
pub struct BlockReport {
    pub height: u64,
    pub time: Moment,
    pub begun: Facts,
    pub txs: Listed<TxReport>,
    pub ended: Facts,
}

/// What a delegation would be paid from, in decimal coins of 10^-18; None where the computation meets the
/// limit of decimals.
#[derive(Debug, Drop)]
pub struct Pending {
    pub delegator: Addr,
    pub operator: Addr,
    pub coins: Option<DecCoins>,
}
