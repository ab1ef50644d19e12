//! Shares issued for tokens, what shares are worth, and shares taken out (Cosmos SDK: `stakingtypes.Validator`).

ghost use Rattle.std.specs.Prelude.{◌≡◌, ◌+◌, ◌*◌, ◌^◌, ◌<◌, ◌≤◌, ◌↔◌};
ghost use Rattle.base_shares.specs.Shares.{HasInvalidRate, issued_shares, value_even_of, value_cut_of, shares_for_amount, removed};

use crate::fault::ShareFault;
use base_decimals::Dec;

/// The shares that `amount` more tokens issue where `shares` have `tokens`, which are at most 10^18.
///
/// The first shares equal the amount; later ones are `shares * amount / tokens`, cut
/// (`Validator.AddTokensFromDel`).
///
/// `RateInvalid` comes exactly where there are shares and no tokens (`Validator.InvalidExRate`). `Over` comes
/// exactly where the new shares would be 10^38 units or more; it has the operands of the product: the amount,
/// 10^18 and 1 for the first shares, and then the raw number of `shares`, the amount and the tokens.
pub fn issue(tokens: u128, shares: Dec, amount: u128) -> Result<Dec, ShareFault>
    requires { tokens ≤ 10 ^ 18 }
    ensures value { result ≡ issued_shares tokens shares amount }
    ensures rate_invalid { (result ≡ Err ShareFault.RateInvalid) ↔ HasInvalidRate tokens shares }
{
    if shares.raw() == 0 {
        return Ok(Dec::of_whole(amount)?);
    }
    if tokens == 0 {
        return Err(ShareFault::RateInvalid);
    }
    shares_for(tokens, shares, amount)
}

/// What `part` of the shares is worth in tokens, `part * tokens / shares`, rounded half to even from its 36
/// digits behind the point (`Validator.TokensFromShares`).
///
/// There are at most 10^18 tokens and more than 0 shares, of which `part` is a part.
#[tactic(auto, using(crate::proofs::Values::value_even_fits, crate::proofs::Values::value_even_most))]
pub fn value_even(tokens: u128, shares: Dec, part: Dec) -> Dec
    requires tokens { tokens ≤ 10 ^ 18 }
    requires some { 0 < shares }
    requires part { part ≤ shares }
    ensures value { result ≡ value_even_of tokens shares part }
    ensures at_most_all { result ≤ tokens * 10 ^ 18 }
{
    part.mul_int_quo_even(tokens, shares).unwrap()
}

/// What `part` of the shares is worth in tokens, `part * tokens / shares`, cut from its 36 digits behind the
/// point (`Validator.TokensFromSharesTruncated`).
///
/// Its needs are those of [`value_even`].
#[tactic(auto, using(crate::proofs::Values::value_cut_fits, crate::proofs::Values::value_cut_most))]
pub fn value_cut(tokens: u128, shares: Dec, part: Dec) -> Dec
    requires tokens { tokens ≤ 10 ^ 18 }
    requires some { 0 < shares }
    requires part { part ≤ shares }
    ensures value { result ≡ value_cut_of tokens shares part }
    ensures at_most_all { result ≤ tokens * 10 ^ 18 }
{
    part.mul_int_quo_cut(tokens, shares).unwrap()
}

/// The shares that `amount` of the tokens has, `shares * amount / tokens`, cut (`Validator.SharesFromTokens`);
/// there are at most 10^18 tokens.
///
/// `NoTokens` comes exactly where there are no tokens. `Over` comes exactly where the shares would be 10^38
/// units or more; it has the raw number of `shares`, the amount and the tokens.
pub fn shares_for(tokens: u128, shares: Dec, amount: u128) -> Result<Dec, ShareFault>
    requires { tokens ≤ 10 ^ 18 }
    ensures value { result ≡ shares_for_amount tokens shares amount }
    ensures no_tokens { (result ≡ Err ShareFault.NoTokens) ↔ (tokens ≡ 0) }
{
    if tokens == 0 {
        return Err(ShareFault::NoTokens);
    }
    Ok(shares.mul_int_quo_int(amount, tokens)?)
}

/// Takes `part` from the shares: the tokens left, the shares left, and the amount that goes out.
///
/// All tokens go out where no share is left, and else the whole part of [`value_even`]
/// (`Validator.RemoveDelShares`). Its needs are those of [`value_even`].
#[tactic(auto, using(crate::proofs::Values::value_whole_most))]
pub fn remove(tokens: u128, shares: Dec, part: Dec) -> (u128, Dec, u128)
    requires tokens { tokens ≤ 10 ^ 18 }
    requires some { 0 < shares }
    requires part { part ≤ shares }
    ensures value { result ≡ removed tokens shares part }
    ensures no_token_lost { result.0 + result.2 ≡ tokens }
    ensures no_share_lost { result.1 + part ≡ shares }
{
    let left = shares.sub(part);
    if left.raw() == 0 {
        return (0, left, tokens);
    }
    let out = value_even(tokens, shares, part).trunc();
    (tokens - out, left, out)
}
