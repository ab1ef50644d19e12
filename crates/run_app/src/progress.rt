//! Where a run stands between two lines, and where no more lines are taken.

use crate::status::Status;
use chain_whole::Chain;

/// Where a run stands: the number of the next line, what has come of it, and what the lines before it led to, of which the
/// last may wait for a commit.
#[derive(Drop)]
pub struct Progress {
    /// The number of the next line, from 1.
    pub number: u64,
    /// What has come of that line.
    pub line: Vec<u8>,
    /// The chain to which the lines before it led: none before the genesis.
    pub chain: Option<Chain>,
    /// How many of these lines wait: what they led to is not committed.
    pub waiting: u64,
    /// The texts of the lines that wait, one after another.
    pub held: Vec<u8>,
}

/// Where no more lines are taken. Each line before was answered, and the last of them may wait.
#[derive(Clone, Copy, Debug, PartialEq, Eq)]
pub enum Ending {
    /// At the end of the input.
    End,
    /// Where the source failed, at a line that has no answer, or at one that is over a limit: the run ends by this status.
    Before(Status),
}
