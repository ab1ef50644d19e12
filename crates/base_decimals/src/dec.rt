//! Decimals of 18 places and their arithmetic (Cosmos SDK: `LegacyDec` of `math`).

ghost use Rattle.std.specs.Prelude.{◌≡◌, ◌-◌, ◌*◌, ◌^◌, ◌<◌, ◌≤◌, ◌↔◌, IsSome, IfSome};
ghost use Rattle.base_decimals.specs.Decimals.{below, quotient_over as quotient_over_of, add_of, whole_of, mul_even_of, mul_cut_of, quo_even_of, quo_cut_of, quo_up_of, mul_int_quo_even_of, mul_int_quo_cut_of, mul_int_quo_int_of, trunc_of, round_int_of};

use crate::kernel::{LIMIT, ONE, mul_div, with_digits};
use crate::over::{Over, OverKind};
use crate::rounding::{nearest, upward};
use std::marker::Model;

/// A decimal of 18 places, at least 0 and below 10^20: a whole number of units of 10^-18 below 10^38.
#[derive(Clone, Copy, Debug, PartialEq, Eq, PartialOrd, Ord, Hash)]
pub struct Dec {
    raw: u128,
}

impl Model for Dec {
    ghost use Rattle.std.specs.Prelude.{ℕ, ◌<◌, ◌^◌};

    ghost Value = { ℕ };

    ghost view = { λ d. d.raw };

    ghost invariant = { λ d. d.raw < 10 ^ 38 };

    ghost inverse = { λ n. record { raw = n } };
}

impl Dec {
    /// The decimal of this many units of 10^-18, or None where there are 10^38 or more.
    pub fn from_raw(raw: u128) -> Option<Dec>
        ensures fits { IsSome result ↔ (raw < 10 ^ 38) }
        ensures value { IfSome result (λ d. d ≡ raw) }
    {
        if raw < LIMIT { Some(Dec { raw }) } else { None }
    }

    /// The number of units of 10^-18.
    pub fn raw(self) -> u128
        ensures value { result ≡ self }
        ensures limit { result < 10 ^ 38 }
    {
        self.raw
    }

    /// The decimal of a whole number.
    ///
    /// `Over` comes exactly where that is 10^38 units or more; it has kind Quotient and the operands `n`, 10^18
    /// and 1.
    pub fn of_whole(n: u128) -> Result<Dec, Over>
        ensures { result ≡ whole_of n }
    {
        let over = quotient_over(n, ONE, 1);
        let (raw, _) = mul_div(n, ONE, 1).ok_or(over)?;
        checked(raw, over)
    }

    /// The sum.
    ///
    /// `Over` comes exactly where that is 10^38 units or more; it has kind Sum and the two raw numbers.
    pub fn add(self, other: Dec) -> Result<Dec, Over>
        ensures { result ≡ add_of self other }
    {
        let over = Over {
            kind: OverKind::Sum,
            a: self.raw,
            b: other.raw,
            c: 0,
        };
        checked(self.raw + other.raw, over)
    }

    /// The difference; `other` is at most this.
    pub fn sub(self, other: Dec) -> Dec
        requires { other ≤ self }
        ensures { result ≡ self - other }
    {
        Dec {
            raw: self.raw - other.raw,
        }
    }

    /// The product, rounded half to even (`Mul` of the SDK).
    ///
    /// `Over` comes exactly where that is 10^38 units or more; it has kind Quotient, the two raw numbers and
    /// 10^18.
    pub fn mul_even(self, other: Dec) -> Result<Dec, Over>
        ensures { result ≡ mul_even_of self other }
    {
        let over = quotient_over(self.raw, other.raw, ONE);
        let (whole, rest) = mul_div(self.raw, other.raw, ONE).ok_or(over)?;
        checked(nearest(whole, rest, ONE), over)
    }

    /// The product, cut (`MulTruncate` of the SDK).
    ///
    /// `Over` comes exactly where that is 10^38 units or more, with what [`Dec::mul_even`] gives it.
    pub fn mul_cut(self, other: Dec) -> Result<Dec, Over>
        ensures { result ≡ mul_cut_of self other }
    {
        let over = quotient_over(self.raw, other.raw, ONE);
        let (whole, _) = mul_div(self.raw, other.raw, ONE).ok_or(over)?;
        checked(whole, over)
    }

    /// The quotient, rounded half to even from its 36 digits behind the point (`Quo` of the SDK); `other` is
    /// above 0.
    ///
    /// `Over` comes exactly where that is 10^38 units or more; it has kind Quotient, the raw number of this,
    /// 10^18 and the raw number of `other`.
    pub fn quo_even(self, other: Dec) -> Result<Dec, Over>
        requires { 0 < other }
        ensures { result ≡ quo_even_of self other }
    {
        self.mul_int_quo_even(1, other)
    }

    /// The quotient, cut from its 36 digits behind the point (`QuoTruncate` of the SDK); `other` is above 0.
    ///
    /// `Over` comes exactly where that is 10^38 units or more, with what [`Dec::quo_even`] gives it.
    pub fn quo_cut(self, other: Dec) -> Result<Dec, Over>
        requires { 0 < other }
        ensures { result ≡ quo_cut_of self other }
    {
        self.mul_int_quo_cut(1, other)
    }

    /// The quotient, rounded upward from its 36 digits behind the point (`QuoRoundUp` of the SDK); `other` is
    /// above 0. What lies behind the 36th digit does not count.
    ///
    /// `Over` comes exactly where that is 10^38 units or more, with what [`Dec::quo_even`] gives it.
    #[tactic(auto, using(crate::proofs::Quotients::cut_36))]
    pub fn quo_up(self, other: Dec) -> Result<Dec, Over>
        requires { 0 < other }
        ensures { result ≡ quo_up_of self other }
    {
        let over = quotient_over(self.raw, ONE, other.raw);
        let (whole, places) = with_digits(self.raw, ONE, other.raw).ok_or(over)?;
        checked(upward(whole, places, ONE), over)
    }

    /// `self * n / other`, rounded half to even from its 36 digits behind the point (`MulInt`, then `Quo`). `n`
    /// is a whole number of at most 10^20, and `other` is above 0.
    ///
    /// `Over` comes exactly where that is 10^38 units or more; it has kind Quotient, the raw number of this,
    /// `n * 10^18` and the raw number of `other`.
    #[tactic(auto, using(crate::proofs::Quotients::cut_36_of_factor, crate::proofs::Quotients::digits_of_factor))]
    pub fn mul_int_quo_even(self, n: u128, other: Dec) -> Result<Dec, Over>
        requires factor { n ≤ 10 ^ 20 }
        requires positive { 0 < other }
        ensures { result ≡ mul_int_quo_even_of self n other }
    {
        let factor = n * ONE;
        let over = quotient_over(self.raw, factor, other.raw);
        let (whole, places) = with_digits(self.raw, factor, other.raw).ok_or(over)?;
        checked(nearest(whole, places, ONE), over)
    }

    /// `self * n / other`, cut from its 36 digits behind the point (`MulInt`, then `QuoTruncate`). Its needs
    /// are those of [`Dec::mul_int_quo_even`].
    ///
    /// `Over` comes exactly where that is 10^38 units or more, with what [`Dec::mul_int_quo_even`] gives it.
    #[tactic(auto, using(crate::proofs::Quotients::cut_36_of_factor, crate::proofs::Quotients::digits_of_factor))]
    pub fn mul_int_quo_cut(self, n: u128, other: Dec) -> Result<Dec, Over>
        requires factor { n ≤ 10 ^ 20 }
        requires positive { 0 < other }
        ensures { result ≡ mul_int_quo_cut_of self n other }
    {
        let factor = n * ONE;
        let over = quotient_over(self.raw, factor, other.raw);
        let (whole, _) = mul_div(self.raw, factor, other.raw).ok_or(over)?;
        checked(whole, over)
    }

    /// `self * n / m` for whole numbers, cut (`MulInt`, then `QuoInt`); `m` is above 0 and below 10^38.
    ///
    /// `Over` comes exactly where that is 10^38 units or more; it has kind Quotient, the raw number of this,
    /// `n` and `m`.
    pub fn mul_int_quo_int(self, n: u128, m: u128) -> Result<Dec, Over>
        requires positive { 0 < m }
        requires below_limit { m < 10 ^ 38 }
        ensures { result ≡ mul_int_quo_int_of self n m }
    {
        let over = quotient_over(self.raw, n, m);
        let (whole, _) = mul_div(self.raw, n, m).ok_or(over)?;
        checked(whole, over)
    }

    /// The whole part (`TruncateInt` of the SDK).
    pub fn trunc(self) -> u128
        ensures { result ≡ trunc_of self }
    {
        self.raw / ONE
    }

    /// The nearest whole number, and at a tie the even one (`RoundInt` of the SDK).
    pub fn round_int(self) -> u128
        ensures { result ≡ round_int_of self }
    {
        nearest(self.raw / ONE, self.raw % ONE, ONE)
    }
}

// The decimal of a raw number, or else what led past the limit.
fn checked(raw: u128, over: Over) -> Result<Dec, Over>
    ensures { result ≡ below over raw }
{
    Dec::from_raw(raw).ok_or(over)
}

// The operands of a product `a * b` divided by `c`.
fn quotient_over(a: u128, b: u128, c: u128) -> Over
    ensures { result ≡ quotient_over_of a b c }
{
    Over {
        kind: OverKind::Quotient,
        a,
        b,
        c,
    }
}
