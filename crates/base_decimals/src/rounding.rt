//! Quotients rounded half to even, or upward.

ghost use Rattle.std.specs.Prelude.{◌≡◌, ◌+◌, ◌*◌, ◌^◌, ◌<◌};
ghost use Rattle.base_decimals.specs.Rounding.{up, even};

/// The whole number nearest to `quotient + rest / divisor`, and at a tie the even one.
#[tactic(auto, using(crate::proofs::Quotients::quotient_of_parts, crate::proofs::Quotients::rest_of_parts))]
pub fn nearest(quotient: u128, rest: u128, divisor: u128) -> u128
    requires limit { quotient < 10 ^ 38 }
    requires below { rest < divisor }
    requires room { divisor < 2 ^ 127 }
    ensures { result ≡ even (quotient * divisor + rest) divisor }
{
    let twice = 2 * rest;
    if twice < divisor {
        quotient
    } else if divisor < twice {
        quotient + 1
    } else {
        quotient + quotient % 2
    }
}

/// The least whole number that is not below `quotient + rest / divisor`.
#[tactic(auto, using(crate::proofs::Quotients::quotient_of_parts, crate::proofs::Quotients::rest_of_parts))]
pub fn upward(quotient: u128, rest: u128, divisor: u128) -> u128
    requires limit { quotient < 10 ^ 38 }
    requires below { rest < divisor }
    ensures { result ≡ up (quotient * divisor + rest) divisor }
{
    if rest == 0 { quotient } else { quotient + 1 }
}
