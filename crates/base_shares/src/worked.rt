//! Worked examples, each a theorem that its function's contract names.

ghost use Rattle.base_shares.specs.Worked.{IssuingAfterASlash, UndelegatingTen, UndelegatingAllButOne, UndelegatingAll, BurningAThird, FractionsOfManyTokens, IssuingTooMany, WithoutTokens};

/// Issuing 10 where 100 shares have 99 tokens.
pub fn issuing_after_a_slash()
    ensures { IssuingAfterASlash }
{}

/// Undelegating 10 of these 99 tokens.
pub fn undelegating_ten()
    ensures { UndelegatingTen }
{}

/// Undelegating 98 of them, which gives 97.
pub fn undelegating_all_but_one()
    ensures { UndelegatingAllButOne }
{}

/// Undelegating all of them.
pub fn undelegating_all()
    ensures { UndelegatingAll }
{}

/// Burning 1 of 3 tokens.
pub fn burning_a_third()
    ensures { BurningAThird }
{}

/// Burning almost all, and almost nothing, of about 10^18 tokens.
pub fn fractions_of_many_tokens()
    ensures { FractionsOfManyTokens }
{}

/// Issuing that is over, with its operands.
pub fn issuing_too_many()
    ensures { IssuingTooMany }
{}

/// No tokens: first shares, shares with no rate, and shares for an amount.
pub fn without_tokens()
    ensures { WithoutTokens }
{}
