//! Products and quotients, rounded from their exact value.

ghost use Rattle.std.specs.Prelude.{◌≡◌, ◌*◌, ◌^◌, ◌<◌, ◌≤◌};
ghost use Rattle.base_decimals.specs.Rounding.{cut, up};
ghost use Rattle.mod_statement.specs.Rounding.{product_of, quotient_cut_of, quotient_up_of};

use base_decimals::{Dec, LIMIT, Over, OverKind, mul_div};

/// The units of one whole, 10^18.
pub(crate) const ONE: u128 = 1_000_000_000_000_000_000;

/// The most tokens of an entry, 10^18.
pub(crate) const MOST_TOKENS: u128 = 1_000_000_000_000_000_000;

/// The decimal of so many units.
pub(crate) fn decimal(raw: u128) -> Dec
    requires { raw < 10 ^ 38 }
    ensures { result ≡ raw }
{
    Dec::from_raw(raw).unwrap()
}

/// `a * b / c`, cut.
pub(crate) fn quotient_cut(a: Dec, b: Dec, c: u128) -> Result<Dec, Over>
    requires positive { 0 < c }
    requires below_limit { c < 10 ^ 38 }
    ensures { result ≡ quotient_cut_of a b c }
{
    a.mul_int_quo_int(b.raw(), c)
}

/// `a * b / c`, rounded up from its exact value.
pub(crate) fn quotient_up(a: Dec, b: u128, c: u128) -> Result<Dec, Over>
    requires positive { 0 < c }
    requires below_limit { c < 10 ^ 38 }
    ensures { result ≡ quotient_up_of a b c }
{
    let over = Over {
        kind: OverKind::Quotient,
        a: a.raw(),
        b,
        c,
    };
    let (whole, rest) = mul_div(a.raw(), b, c).ok_or(over)?;
    let raw = if rest == 0 { whole } else { whole + 1 };
    Dec::from_raw(raw).ok_or(over)
}

/// A decimal times a whole number.
pub(crate) fn product(a: Dec, n: u128) -> Result<Dec, Over>
    ensures { result ≡ product_of a n }
{
    a.mul_int_quo_int(n, 1)
}

/// The part of an amount that `part` is of `whole`, cut.
pub(crate) fn part_cut(amount: Dec, part: u128, whole: u128) -> Dec
    requires within { part ≤ whole }
    requires positive { 0 < whole }
    requires below_limit { whole < 10 ^ 38 }
    ensures { result ≡ cut (amount * part) whole }
{
    amount.mul_int_quo_int(part, whole).unwrap()
}

/// The part of an amount that `part` is of `whole`, rounded up.
pub(crate) fn part_up(amount: Dec, part: u128, whole: u128) -> Dec
    requires within { part ≤ whole }
    requires positive { 0 < whole }
    requires below_limit { whole < 10 ^ 38 }
    ensures { result ≡ up (amount * part) whole }
{
    quotient_up(amount, part, whole).unwrap()
}

/// The least whole number of units of one that is not below an amount, as so many units of 10^-18.
pub(crate) fn whole_up(amount: Dec) -> Dec
    ensures { result ≡ up amount (10 ^ 18) }
{
    part_up(amount, 1, ONE)
}
