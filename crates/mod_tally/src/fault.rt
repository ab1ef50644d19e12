ghost use Rattle.std.specs.Prelude.{◌≡◌};

use std::alloc::{AllocError, AllocFailed};

/// Why there is no tally.
#[derive(Clone, Copy, Debug, PartialEq, Eq)]
pub enum TallyFault {
    /// Memory is wanting.
    NoMemory,
}

impl From<AllocError> for TallyFault {
    ghost use Rattle.mod_tally.specs.declared.fault.TallyFault.TheVariants.{NoMemory};

    ghost from_gives = { λ _ given. given ≡ NoMemory };

    fn from(_: AllocError) -> TallyFault {
        TallyFault::NoMemory
    }
}

impl<T: Drop> From<AllocFailed<T>> for TallyFault {
    ghost use Rattle.mod_tally.specs.declared.fault.TallyFault.TheVariants.{NoMemory};

    ghost from_gives = { λ _ given. given ≡ NoMemory };

    fn from(_: AllocFailed<T>) -> TallyFault {
        TallyFault::NoMemory
    }
}
