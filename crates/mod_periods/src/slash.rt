//! Slash events as they are kept: the part that a slash took (`x/distribution`: `ValidatorSlashEvent`).

ghost use Rattle.std.specs.Prelude.{◌≡◌, ⊤};

use base_decimals::Dec;
use base_types::{Copied, TableFault};
use std::marker::Model;

/// The part of a validator's tokens that a slash took, as the table of slash events has it under the operator,
/// the height and the period. Contracts see it in units of 10^-18.
#[derive(Clone, Copy, Debug, PartialEq, Eq)]
pub struct Slash {
    fraction: Dec,
}

impl Model for Slash {
    ghost use Rattle.std.specs.Prelude.{ℕ};

    ghost Value = { ℕ };

    ghost view = { λ s. s.fraction };

    ghost inverse = { λ n. record { fraction = n } };
}

impl Slash {
    /// A slash of this part.
    pub(crate) fn of(fraction: Dec) -> Slash
        ensures { result ≡ fraction }
    {
        Slash { fraction }
    }

    /// The part.
    pub(crate) fn fraction(&self) -> Dec
        ensures { result ≡ self.now }
    {
        self.fraction
    }
}

impl Copied for Slash {
    ghost is_infallible = { ⊤ };

    fn copied(&self) -> Result<Slash, TableFault> {
        Ok(*self)
    }
}
