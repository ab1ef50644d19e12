//! Products divided in numbers of 128 bits, with the limit and the unit of decimals.

ghost use Rattle.std.specs.Prelude.{◌≡◌, ◌+◌, ◌*◌, ◌/◌, ◌%◌, ◌^◌, ◌<◌, ◌≤◌, IfSome, IfNone};
ghost use Rattle.base_decimals.specs.Decimals.{mul_div_of};
ghost use Rattle.base_decimals.specs.Rounding.{IsOver};

/// The limit of raw numbers, 10^38: a decimal has fewer units of 10^-18 than this.
pub const LIMIT: u128 = 100_000_000_000_000_000_000_000_000_000_000_000_000;

/// The units of one whole, 10^18.
pub const ONE: u128 = 1_000_000_000_000_000_000;

// The base of the digits of a long division, 2^64.
const BASE: u128 = 0x1_0000_0000_0000_0000;

/// `a * b` divided by `c`: the quotient and the rest, or None where the quotient is [`LIMIT`] or more.
///
/// No number is wider than 128 bits: a product that needs more is kept as two halves, and divided digit by
/// digit with the rest so far.
pub fn mul_div(a: u128, b: u128, c: u128) -> Option<(u128, u128)>
    requires positive { 0 < c }
    requires below_limit { c < 10 ^ 38 }

    ensures product { IfSome result (λ p. a * b ≡ p.0 * c + p.1) }
    ensures rest { IfSome result (λ p. p.1 < c) }
    ensures quotient { IfSome result (λ p. p.0 < 10 ^ 38) }
    ensures over { IfNone result (IsOver (a * b / c)) }

    // The same as one equation.
    ensures value { result ≡ mul_div_of a b c }
{
    let (low, high) = a.carrying_mul(b, 0);
    if c <= high {
        return None;
    }
    let (quotient, rest) = divide(high, low, c);
    if quotient < LIMIT {
        Some((quotient, rest))
    } else {
        None
    }
}

/// The digits of `a * factor / b` to 18 places: its whole number, and the digits behind the point as a
/// number below 10^18. None where the whole number is [`LIMIT`] or more.
pub fn with_digits(a: u128, factor: u128, b: u128) -> Option<(u128, u128)>
    requires positive { 0 < b }
    requires below_limit { b < 10 ^ 38 }
    ensures digits { IfSome result (λ p. a * factor * 10 ^ 18 / b ≡ p.0 * 10 ^ 18 + p.1) }
    ensures whole { IfSome result (λ p. p.0 < 10 ^ 38) }
    ensures places { IfSome result (λ p. p.1 < 10 ^ 18) }
    ensures over { IfNone result (IsOver (a * factor / b)) }
{
    let (whole, rest) = mul_div(a, factor, b)?;
    let (places, _) = mul_div(rest, ONE, b)?;
    Some((whole, places))
}

// The quotient and the rest of `high * 2^128 + low` by `divisor`.
fn divide(high: u128, low: u128, divisor: u128) -> (u128, u128)
    requires below { high < divisor }
    requires room { divisor < 2 ^ 127 }
    ensures whole { high * 2 ^ 128 + low ≡ result.0 * divisor + result.1 }
    ensures rest { result.1 < divisor }
{
    if high == 0 {
        let quotient = low / divisor;
        return (quotient, low - quotient * divisor);
    }
    // A long division in two digits of 64 bits. The estimate of a digit is good where the divisor's
    // top bit is set.
    let shift = divisor.leading_zeros();
    let scaled = divisor << shift;
    let top = (high << shift) + (low >> (128 - shift));
    let bottom = low << shift;
    let (first, between) = divide_digit(top, bottom / BASE, scaled);
    let (second, rest) = divide_digit(between, bottom % BASE, scaled);
    (first * BASE + second, rest >> shift)
}

// One digit of a long division: the quotient and the rest of `rest * 2^64 + digit` by `divisor`.
fn divide_digit(rest: u128, digit: u128, divisor: u128) -> (u128, u128)
    requires top_bit { 2 ^ 127 ≤ divisor }
    requires below { rest < divisor }
    requires digit_fits { digit < 2 ^ 64 }
    ensures whole { rest * 2 ^ 64 + digit ≡ result.0 * divisor + result.1 }
    ensures rest_below { result.1 < divisor }
    ensures quotient_fits { result.0 < 2 ^ 64 }
{
    let upper = divisor / BASE;
    let lower = divisor % BASE;
    // The upper half alone gives a digit that is at most two too large.
    let guess = rest / upper;
    let left = (rest - guess * upper) * BASE + digit;
    let owed = guess * lower;
    if owed <= left {
        (guess, left - owed)
    } else if owed - left <= divisor {
        (guess - 1, divisor - (owed - left))
    } else {
        (guess - 2, divisor - (owed - left - divisor))
    }
}
