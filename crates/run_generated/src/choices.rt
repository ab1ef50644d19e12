//! What is drawn of a transaction of the generated input.

/// What is drawn of a transaction, whatever its kind is.
#[derive(Clone, Copy, Debug, PartialEq, Eq)]
pub struct Choices {
    /// Below 6: a delegation, an undelegation, a redelegation, a withdrawal of a reward, one of commission, or a
    /// payment.
    pub kind: u8,
    /// The number of a user from 10 to 39.
    pub delegator: u8,
    /// The number of a validator.
    pub validator: u8,
    /// From 1 to 1,000,000.
    pub amount: u64,
    /// The number of a user who is paid; modulo 10, that of a validator to which a delegation moves.
    pub other: u8,
}
