//! The errors of lines that are read or printed, and of blocks that are not applied.

ghost use Rattle.std.specs.Prelude.{◌≡◌};

use base_decimals::Over;
use base_types::{Moment, TableFault};
use std::alloc::{AllocError, AllocFailed};
use thiserror::Error;

/// Why a line gives no value, or no text.
#[derive(Clone, Copy, Debug, PartialEq, Eq, Error)]
pub enum LineFault {
    /// It is no JSON.
    #[error("NotJson")]
    NotJson,
    /// The member of this number is missing or not of its form; 0: a member that has no number.
    #[error("BadShape")]
    BadShape(u16),
    /// Memory is wanting.
    #[error("NoMemory")]
    NoMemory,
}

/// Why a block is not applied.
#[derive(Clone, Copy, Debug, PartialEq, Eq)]
pub enum BlockFault {
    /// The height is not the one that was due, which is this.
    BadHeight(u64),
    /// The time is before the last one, which is this, or in a year past 9899.
    BadTime(Moment),
    /// The vote at this place names no validator.
    UnknownVote(usize),
    /// The vote at this place names the validator of an earlier vote.
    RepeatedVote(usize),
    /// The powers up to the vote at this place stand for more than 10^18 tokens.
    BadPower(usize),
    /// The evidence at this place is of height 0, of this block or a later one, of a later time, or of a power
    /// that stands for more than 10^18 tokens.
    BadEvidence(usize),
    /// A result of the beginning of the block would be 10^38 units or more; its operands.
    RatioLimit(Over),
    /// Memory is wanting.
    NoMemory,
}

impl From<AllocError> for LineFault {
    ghost use Rattle.base_messages.specs.declared.faults.LineFault.TheVariants.{NoMemory};

    ghost from_gives = { λ _ given. given ≡ NoMemory };

    fn from(_: AllocError) -> LineFault {
        LineFault::NoMemory
    }
}

impl<T: Drop> From<AllocFailed<T>> for LineFault {
    ghost use Rattle.base_messages.specs.declared.faults.LineFault.TheVariants.{NoMemory};

    ghost from_gives = { λ _ given. given ≡ NoMemory };

    fn from(_: AllocFailed<T>) -> LineFault {
        LineFault::NoMemory
    }
}

impl From<TableFault> for LineFault {
    ghost use Rattle.base_messages.specs.declared.faults.LineFault.TheVariants.{NoMemory};

    ghost from_gives = { λ _ given. given ≡ NoMemory };

    fn from(_: TableFault) -> LineFault {
        LineFault::NoMemory
    }
}

impl From<AllocError> for BlockFault {
    ghost use Rattle.base_messages.specs.declared.faults.BlockFault.TheVariants.{NoMemory};

    ghost from_gives = { λ _ given. given ≡ NoMemory };

    fn from(_: AllocError) -> BlockFault {
        BlockFault::NoMemory
    }
}

impl<T: Drop> From<AllocFailed<T>> for BlockFault {
    ghost use Rattle.base_messages.specs.declared.faults.BlockFault.TheVariants.{NoMemory};

    ghost from_gives = { λ _ given. given ≡ NoMemory };

    fn from(_: AllocFailed<T>) -> BlockFault {
        BlockFault::NoMemory
    }
}

impl From<TableFault> for BlockFault {
    ghost use Rattle.base_messages.specs.declared.faults.BlockFault.TheVariants.{NoMemory};

    ghost from_gives = { λ _ given. given ≡ NoMemory };

    fn from(_: TableFault) -> BlockFault {
        BlockFault::NoMemory
    }
}
