//! The errors of calls on shares.

use base_decimals::Over;

/// Why a number of shares has no answer.
#[derive(Clone, Copy, Debug, PartialEq, Eq, Hash)]
pub enum ShareFault {
    /// There are shares and no tokens, so there is no rate at which to issue.
    RateInvalid,
    /// There are no tokens for which to give shares.
    NoTokens,
    /// The shares would be 10^38 units of 10^-18 or more.
    Over(Over),
}

impl From<Over> for ShareFault {
    ghost use Rattle.std.specs.Prelude.{◌≡◌};
    ghost use Rattle.base_shares.specs.declared.fault.ShareFault.TheVariants as fault_of;

    ghost from_gives = { λ over fault. fault ≡ fault_of.Over over };

    fn from(over: Over) -> ShareFault {
        ShareFault::Over(over)
    }
}
