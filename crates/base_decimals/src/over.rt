//! The error of an operation that goes past the limit: its kind and its operands.

/// Which kind of operation went past the limit.
#[derive(Clone, Copy, Debug, PartialEq, Eq, PartialOrd, Ord, Hash)]
pub enum OverKind {
    /// A sum `a + b`.
    Sum,
    /// A product divided, `a * b / c`.
    Quotient,
    /// A period that stands at its limit, `a`.
    Period,
}

/// The operands of an operation whose result is 10^38 units or more.
///
/// A decimal stands here as its raw number of units of 10^-18. A place that the kind does not use is 0.
#[derive(Clone, Copy, Debug, PartialEq, Eq, PartialOrd, Ord, Hash)]
pub struct Over {
    pub kind: OverKind,
    pub a: u128,
    pub b: u128,
    pub c: u128,
}
