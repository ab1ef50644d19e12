//! Why a text is no spelling of an address, or an address is not spelled.

use std::alloc::AllocError;
use thiserror::Error;

/// Why a text is not read, or an address not spelled.
#[derive(Clone, Copy, Debug, PartialEq, Eq, Error)]
pub enum BechFault {
    /// The text does not begin with the prefix and `1`.
    #[error("Prefix")]
    Prefix,
    /// Not thirty-eight bytes follow the prefix and `1`.
    #[error("Length")]
    Length,
    /// The byte at this place behind the prefix and `1`, counted from 0, is the first that is no letter of
    /// a spelling.
    #[error("Digit at {0}")]
    Digit(usize),
    /// The last six letters do not check the others.
    #[error("Sum")]
    Sum,
    /// Memory for a spelling is wanting.
    #[error("NoMemory")]
    NoMemory,
}

impl From<AllocError> for BechFault {
    ghost use Rattle.std.specs.Prelude.{◌≡◌};
    ghost use Rattle.base_bech32.specs.declared.fault.BechFault.TheVariants.{NoMemory};

    ghost from_gives = { λ _ fault. fault ≡ NoMemory };

    fn from(_: AllocError) -> BechFault {
        BechFault::NoMemory
    }
}
