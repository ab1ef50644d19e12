//! The faults of a trial.

use base_messages::BlockFault;

/// Why there is no summary.
#[derive(Clone, Copy, Debug, PartialEq, Eq)]
pub enum TrialFault {
    /// The block on the line of this number, that of the genesis being 1, may not follow.
    Block(u64, BlockFault),
    /// Memory is wanting.
    NoMemory,
}
