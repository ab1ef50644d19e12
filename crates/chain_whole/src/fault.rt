//! Why a genesis or items give no chain, or a chain gives no list.

ghost use Rattle.std.specs.Prelude.{◌≡◌};

use base_roles::RecordFault;
use base_types::TableFault;
use std::alloc::{AllocError, AllocFailed};

/// Why there is no chain, or no list of what it keeps.
#[derive(Clone, Copy, Debug, PartialEq, Eq)]
pub enum ChainFault {
    /// The genesis meets the condition of this number, and none of a smaller one.
    BadGenesis(u8),
    /// The items are not those of a state in order.
    BadItems,
    /// Memory is wanting.
    NoMemory,
}

impl From<AllocError> for ChainFault {
    ghost use Rattle.chain_whole.specs.declared.fault.ChainFault.TheVariants.{NoMemory};

    ghost from_gives = { λ _ given. given ≡ NoMemory };

    fn from(_: AllocError) -> ChainFault {
        ChainFault::NoMemory
    }
}

impl<T: Drop> From<AllocFailed<T>> for ChainFault {
    ghost use Rattle.chain_whole.specs.declared.fault.ChainFault.TheVariants.{NoMemory};

    ghost from_gives = { λ _ given. given ≡ NoMemory };

    fn from(_: AllocFailed<T>) -> ChainFault {
        ChainFault::NoMemory
    }
}

impl From<TableFault> for ChainFault {
    ghost use Rattle.chain_whole.specs.declared.fault.ChainFault.TheVariants.{NoMemory};

    ghost from_gives = { λ _ given. given ≡ NoMemory };

    fn from(_: TableFault) -> ChainFault {
        ChainFault::NoMemory
    }
}

impl From<RecordFault> for ChainFault {
    ghost use Rattle.chain_whole.specs.declared.fault.ChainFault.TheVariants.{NoMemory};

    ghost from_gives = { λ _ given. given ≡ NoMemory };

    fn from(_: RecordFault) -> ChainFault {
        ChainFault::NoMemory
    }
}
