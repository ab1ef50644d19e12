//! Worked examples, each a theorem that its function's contract names.

ghost use Rattle.mod_tracking.specs.Worked.{BehindCommission, NoStatements, OthersAreFollowed, StartIsFollowed, WithoutCommission};

/// A genesis in which the pair's rewards begin.
pub fn start_is_followed()
    ensures { StartIsFollowed }
{}

/// Two thirds of 882.
pub fn behind_commission()
    ensures { BehindCommission }
{}

/// Two thirds of 1,000, which is no decimal.
pub fn without_commission()
    ensures { WithoutCommission }
{}

/// A slash, and the shares of another delegation.
pub fn others_are_followed()
    ensures { OthersAreFollowed }
{}

/// A payment whose bounds are over, one without a start, and one of nobody's.
pub fn no_statements()
    ensures { NoStatements }
{}
