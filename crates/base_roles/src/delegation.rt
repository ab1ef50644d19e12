//! Delegations as they are kept: their shares (Cosmos SDK: `stakingtypes.Delegation`).

ghost use Rattle.std.specs.Prelude.{◌≡◌, ⊤};

use base_decimals::Dec;
use base_types::{Copied, TableFault};
use std::marker::Model;

/// A delegation, under its operator and delegator (`stakingtypes.Delegation`): its shares. Contracts see
/// their number of units of 10^-18.
#[derive(Clone, Copy, Debug, PartialEq, Eq)]
pub struct Delegation {
    shares: Dec,
}

impl Model for Delegation {
    ghost use Rattle.std.specs.Prelude.{ℕ};

    ghost Value = { ℕ };

    ghost view = { λ s. s.shares };

    ghost inverse = { λ n. record { shares = n } };
}

impl Delegation {
    /// A delegation of so many shares.
    pub fn of(shares: Dec) -> Delegation
        ensures { result ≡ shares }
    {
        Delegation { shares }
    }

    /// How many shares it has.
    pub fn shares(&self) -> Dec
        ensures { result ≡ self.now }
    {
        self.shares
    }
}

impl Copied for Delegation {
    ghost is_infallible = { ⊤ };

    fn copied(&self) -> Result<Delegation, TableFault> {
        Ok(*self)
    }
}
