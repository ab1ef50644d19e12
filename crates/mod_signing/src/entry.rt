//! Signing infos as they are kept, each with the length of its ring (`x/slashing`: `ValidatorSigningInfo`).

use base_roles::SigningInfo;
use base_types::{Copied, TableFault};

/// What stands of a consensus address beside the bits of its ring.
#[derive(Clone, Copy, Debug, PartialEq, Eq)]
pub(crate) struct Entry {
    pub(crate) info: SigningInfo,
    /// How many places its ring has. What is set behind them does not count.
    pub(crate) places: u64,
}

impl Copied for Entry {
    ghost use Rattle.std.specs.Prelude.{⊤};

    ghost is_infallible = { ⊤ };

    fn copied(&self) -> Result<Entry, TableFault> {
        Ok(*self)
    }
}
