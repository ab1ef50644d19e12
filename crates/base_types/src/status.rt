//! The status of a validator: bonded, unbonding or unbonded.

/// Whether a validator votes (Cosmos SDK: `stakingtypes.BondStatus`).
#[derive(Clone, Copy, Debug, PartialEq, Eq, PartialOrd, Ord, Hash)]
pub enum BondStatus {
    /// In the bonded set.
    Bonded,
    /// Left the bonded set, and its unbonding time has not passed.
    Unbonding,
    /// Outside the bonded set.
    Unbonded,
}
