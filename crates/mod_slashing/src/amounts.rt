//! What a slash amounts to, and the fraction that is recorded of it.

ghost use Rattle.std.specs.Prelude.{◌≡◌, ◌*◌, ◌^◌, ◌<◌, ◌≤◌, min};
ghost use Rattle.base_decimals.specs.Decimals.{quo_up_of};
ghost use Rattle.rule_modules.specs.Slashing.{slash_amount, slash_fraction};

use base_decimals::{Dec, Over};

/// One, in units of 10^-18.
const ONE: u128 = 1_000_000_000_000_000_000;

/// The amount of a slash: the factor of the tokens that the power stands for, cut
/// (`TokensFromConsensusPower`, `TruncateInt`).
pub(crate) fn slash_amount(power: u64, reduction: u64, factor: Dec) -> u128
    requires factor { factor ≤ 10 ^ 18 }
    requires power { power * reduction ≤ 10 ^ 18 }
    ensures { result ≡ slash_amount power reduction factor }
{
    power as u128 * reduction as u128 * factor.raw() / ONE
}

/// The fraction that is recorded of what burns of some tokens, rounded upward, and at most one
/// (`effectiveFraction`).
pub(crate) fn slash_fraction(burned: u128, tokens: u128) -> Dec
    requires some { 0 < tokens }
    requires most { tokens ≤ 10 ^ 18 }
    requires within { burned ≤ tokens }
    ensures value { result ≡ slash_fraction burned tokens }
    ensures most { result ≤ 10 ^ 18 }
{
    part_of(burned, tokens).unwrap()
}

/// What part of some tokens so many are, rounded upward (`QuoRoundUp`).
fn part_of(some: u128, tokens: u128) -> Result<Dec, Over>
    requires above { 0 < tokens }
    requires most { tokens ≤ 10 ^ 18 }
    requires within { some ≤ tokens }
    ensures { result ≡ quo_up_of (some * 10 ^ 18) (tokens * 10 ^ 18) }
{
    whole(some).quo_up(whole(tokens))
}

/// The decimal of a whole number.
fn whole(n: u128) -> Dec
    requires { n ≤ 10 ^ 18 }
    ensures { result ≡ n * 10 ^ 18 }
{
    Dec::of_whole(n).unwrap()
}

/// The smaller of two amounts.
pub(crate) fn smaller(a: u128, b: u128) -> u128
    ensures { result ≡ min a b }
{
    if a < b { a } else { b }
}
