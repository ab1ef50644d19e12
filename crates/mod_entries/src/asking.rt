//! What messages ask that take an amount out of a delegation.

ghost use Rattle.std.specs.Prelude.{◌≡◌, ◌*◌, ◌^◌, ◌<◌, ◌≤◌, not};
ghost use Rattle.std.specs.BTreeMap.{is_at};
ghost use Rattle.base_types.specs.Orders.{denom_cmp};
ghost use Rattle.rule_modules.specs.Unbonding.{shares_to_unbond};
ghost use Rattle.rule_modules.specs.Unbondings.{completion};

use base_coins::Coin;
use base_decimals::Dec;
use base_roles::{Ctx, Refusal, Validator};
use base_shares::shares_for;
use base_types::Moment;
use std::cmp::Ordering;

/// All shares of a delegation, and those that an amount stands for (`ValidateUnbondAmount`).
///
/// It is refused as `NoDelegation` where there is none, else as `NoTokens` where the validator has no
/// tokens, else as `TooManyShares` where the amount stands for 10^38 units of shares or more, or for more
/// than the delegation has.
pub fn shares_to_unbond(
    held: &Option<Dec>,
    v: &Validator,
    amount: u128,
) -> Result<(Dec, Dec), Refusal>
    requires tokens { v.now.tokens ≤ 10 ^ 18 }
    ensures { result ≡ shares_to_unbond held.now v.now amount }
{
    let all = match held {
        Some(all) => *all,
        None => return Err(Refusal::NoDelegation),
    };
    if v.tokens == 0 {
        return Err(Refusal::NoTokens);
    }
    let part = match shares_for(v.tokens, v.shares, amount) {
        Ok(part) => part,
        Err(_) => return Err(Refusal::TooManyShares),
    };
    if all.raw() < part.raw() {
        return Err(Refusal::TooManyShares);
    }
    Ok((all, part))
}

/// When an unbonding that begins now completes.
pub fn completion(ctx: &Ctx) -> Moment
    requires time { ctx.now.time < 250_246_627_200 * 10 ^ 9 }
    requires unbonding { ctx.now.params.unbonding_time ≤ 10 ^ 9 }
    ensures { result ≡ completion ctx.now }
{
    let wait = ctx.params.unbonding_time as u128 * 1_000_000_000;
    Moment::of(ctx.time.nanos() + wait).unwrap()
}

/// Whether a coin is of another denomination than what is delegated.
pub fn is_wrong(coin: &Coin, ctx: &Ctx) -> bool
    ensures { result ≡ not (is_at (denom_cmp ctx.now.params.bond_denom) coin.now.denom) }
{
    ctx.params.bond_denom.cmp(&coin.denom) != Ordering::Equal
}
