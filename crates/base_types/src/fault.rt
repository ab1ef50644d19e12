//! The errors of texts that are read or printed.

use std::alloc::AllocError;
use thiserror::Error;

/// Why a text is not read, or not printed.
#[derive(Clone, Copy, Debug, PartialEq, Eq, Error)]
pub enum TextFault {
    /// The text spells no address of the asked kind.
    #[error("BadAddress")]
    BadAddress,
    /// The text spells no moment.
    #[error("BadMoment")]
    BadMoment,
    /// The text names no denomination.
    #[error("BadDenom")]
    BadDenom,
    /// Memory for a printed text is wanting.
    #[error("NoMemory")]
    NoMemory,
}

impl From<AllocError> for TextFault {
    ghost use Rattle.std.specs.Prelude.{◌≡◌};
    ghost use Rattle.base_types.specs.declared.fault.TextFault.TheVariants.{NoMemory};

    ghost from_gives = { λ _ fault. fault ≡ NoMemory };

    fn from(_: AllocError) -> TextFault {
        TextFault::NoMemory
    }
}
