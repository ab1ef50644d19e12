//! Questions about a state.
use base_types::{Account, ConsAddr};

/// A question about a state.
#[derive(Clone, Copy, Debug, PartialEq, Eq)]
pub enum Query {
    /// The supply.
    Supply,
    /// The community pool.
    Pool,
    /// All validators.
    Validators,
    /// What an account holds, a module's included.
    Account(Account),
    /// The validator of this operator.
    Validator(Account),
    /// The delegations of this delegator.
    Delegations(Account),
    /// The pending rewards of this delegator.
    Rewards(Account),
    /// The unbonding entries of this delegator.
    Unbondings(Account),
    /// The redelegation entries of this delegator.
    Redelegations(Account),
    /// The signing record of this consensus address.
    Signing(ConsAddr),
}
