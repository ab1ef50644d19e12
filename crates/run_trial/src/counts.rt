//! The counts of a trial: its blocks, its transactions that were carried out or not, and what was burned.

/// What the reports of blocks come to.
#[derive(Clone, Copy, Debug, PartialEq, Eq)]
pub struct Counts {
    pub blocks: u64,
    /// Transactions that were carried out.
    pub accepted: u64,
    /// Transactions that were not, those whose fee was not paid among them.
    pub refused: u64,
    /// The sum of all burns.
    pub burned: u128,
}
