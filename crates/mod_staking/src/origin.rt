//! Where the coins of a delegation come from: a wallet, or an account of staking.

use base_types::BondStatus;

/// Where the coins of a delegation come from.
#[derive(Clone, Copy, Debug, PartialEq, Eq)]
pub enum Origin {
    /// The delegator's own account.
    Wallet,
    /// The account that holds the tokens of a validator of this status.
    Pool(BondStatus),
}
