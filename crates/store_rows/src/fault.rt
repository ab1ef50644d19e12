//! The faults of reading and writing rows.

use std::alloc::{AllocError, AllocFailed};
use thiserror::Error;

/// Why a row gives no item, or an item no row.
#[derive(Clone, Copy, Debug, PartialEq, Eq, Error)]
pub enum RowFault {
    /// The row is the spelling of no item.
    #[error("BadRow")]
    BadRow,
    /// Memory is wanting.
    #[error("NoMemory")]
    NoMemory,
}

impl From<AllocError> for RowFault {
    ghost use Rattle.std.specs.Prelude.{◌≡◌};
    ghost use Rattle.store_rows.specs.declared.fault.RowFault.TheVariants.{NoMemory};

    ghost from_gives = { λ _ given. given ≡ NoMemory };

    fn from(_: AllocError) -> RowFault {
        RowFault::NoMemory
    }
}

impl<T: Drop> From<AllocFailed<T>> for RowFault {
    ghost use Rattle.std.specs.Prelude.{◌≡◌};
    ghost use Rattle.store_rows.specs.declared.fault.RowFault.TheVariants.{NoMemory};

    ghost from_gives = { λ _ given. given ≡ NoMemory };

    fn from(_: AllocFailed<T>) -> RowFault {
        RowFault::NoMemory
    }
}
