//! Worked examples, each a theorem that its function's contract names.

ghost use Rattle.base_decimals.specs.Worked.{BurnedFractions, HalvesOfUnits, LargestDecimal, SharesOfTokens, TextsOfDecimals, Thirds, TieAt36Digits, WholeNumbers};

/// Halves of a few units: cut, to the nearest, upward.
pub fn halves_of_units()
    ensures { HalvesOfUnits }
{}

/// A third, cut and upward, and two thirds.
pub fn thirds()
    ensures { Thirds }
{}

/// A quotient is rounded from its 36 digits, and not from its exact value.
pub fn tie_at_36_digits()
    ensures { TieAt36Digits }
{}

/// The largest decimal, one unit more and one unit less.
pub fn largest_decimal()
    ensures { LargestDecimal }
{}

/// The fractions of two burns, rounded upward.
pub fn burned_fractions()
    ensures { BurnedFractions }
{}

/// Shares for tokens, their worth, and shares past the limit.
pub fn shares_of_tokens()
    ensures { SharesOfTokens }
{}

/// Whole numbers, cut and to the nearest.
pub fn whole_numbers()
    ensures { WholeNumbers }
{}

/// Texts that are decimals, texts that are none, and texts that are written.
pub fn texts_of_decimals()
    ensures { TextsOfDecimals }
{}
