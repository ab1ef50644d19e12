//! What the rounding keeps, each a theorem that its function's contract names.

ghost use Rattle.base_shares.specs.Laws.{FractionIsJustAbove, FractionGivesBurn, IssueNeverLowers};

/// The fraction that a slash records is a decimal, at least the exact one, less than one unit of 10^-18 above it, and
/// at most 1.
pub fn fraction_is_just_above()
    ensures { FractionIsJustAbove }
{}

/// The recorded fraction of the tokens, cut to a whole number, is what was burned.
pub fn fraction_gives_burn()
    ensures { FractionGivesBurn }
{}

/// Issued shares never lower the tokens per share.
pub fn issue_never_lowers()
    ensures { IssueNeverLowers }
{}
