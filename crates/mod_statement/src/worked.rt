//! Worked examples, each a theorem that its function's contract names.

ghost use Rattle.mod_statement.specs.Worked.{BehindASlash, FirstOver, NoSpans, RewardOfThirds, WithCommission, WithoutCommission};

/// Two thirds of 882.
pub fn with_commission()
    ensures { WithCommission }
{}

/// Two thirds of 1,000, which is no decimal.
pub fn without_commission()
    ensures { WithoutCommission }
{}

/// A reward that is right, and one that is not.
pub fn reward_of_thirds()
    ensures { RewardOfThirds }
{}

/// Fees behind a slash.
pub fn behind_a_slash()
    ensures { BehindASlash }
{}

/// Entries that are no span.
pub fn no_spans()
    ensures { NoSpans }
{}

/// Bounds that are over, by their first operation.
pub fn first_over()
    ensures { FirstOver }
{}
