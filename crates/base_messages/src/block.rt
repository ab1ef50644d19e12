//! Blocks with their votes, evidence and transactions (Cosmos SDK: what `BeginBlock` and `DeliverTx` are given).

use crate::message::Msg;
use base_coins::Coins;
use base_roles::{Evidence, Listed, Vote};
use base_types::{Addr, Copied, Moment, TableFault};

/// A block: when it is, who voted on the one before, what was brought forward against whom, and the
/// transactions in their order.
#[derive(Debug, Drop)]
pub struct Block {
    /// At most 2^63 - 1.
    pub height: u64,
    pub time: Moment,
    pub votes: Listed<Vote>,
    pub evidence: Listed<Evidence>,
    pub txs: Listed<Tx>,
}

/// A transaction: its messages stand or fall together, and its fee is paid before them.
#[derive(Debug, Drop)]
pub struct Tx {
    pub payer: Addr,
    pub fee: Coins,
    pub msgs: Listed<Msg>,
}

impl Copied for Tx {
    fn copied(&self) -> Result<Tx, TableFault> {
        Ok(Tx {
            payer: self.payer,
            fee: self.fee.copied()?,
            msgs: self.msgs.copied()?,
        })
    }
}

impl Copied for Block {
    fn copied(&self) -> Result<Block, TableFault> {
        Ok(Block {
            height: self.height,
            time: self.time,
            votes: self.votes.copied()?,
            evidence: self.evidence.copied()?,
            txs: self.txs.copied()?,
        })
    }
}
