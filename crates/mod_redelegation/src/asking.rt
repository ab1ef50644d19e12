//! What is judged of a redelegation before anything changes.

ghost use Rattle.std.specs.Prelude.{◌≡◌, ◌+◌, ◌*◌, ◌^◌, ◌<◌, ◌≤◌, length, is_none};
ghost use Rattle.base_roles.specs.Ground.{seen};
ghost use Rattle.base_roles.specs.Staked.{validator_at};
ghost use Rattle.rule_modules.specs.Redelegations.{is_transitive, begin_info};
ghost use Rattle.mod_staking.specs.Calls.{IsSoundStake};
ghost use Rattle.mod_redelegation.specs.Calls.{leaving, joining, redelegation};
ghost use Rattle.mod_redelegation.specs.Own.{own_entries};

use crate::keyed::{Key, known, next_own};
use crate::redelegations::Redelegations;
use base_coins::Coin;
use base_decimals::Dec;
use base_roles::{Bank, Ctx, Ground, Refusal, Unbonder, Validator, ValidatorView};
use base_shares::remove;
use base_types::{Addr, BondStatus, Moment, Steps};
use mod_entries::{completion, is_same, is_wrong, shares_to_unbond};
use mod_staking::{Staking, shares_given};
use std::sync::ledger::Ledger;

impl Redelegations {
    /// The source's validator, and the shares that an amount to redelegate stands for; or why it is refused.
    pub(crate) fn can_begin<B: Bank, L: Ledger>(
        &self,
        g: &Ground<B>,
        staking: &Staking,
        delegator: &Addr,
        source: &Addr,
        target: &Addr,
        coin: &Coin,
        steps: &mut Steps<L>,
    ) -> Result<(Validator, Dec), Refusal>
        requires sound { IsSoundStake staking.now.staked }
        ensures { result ≡ redelegation delegator.now source.now target.now coin.now
            self.now.lists staking.now.staked (seen B.holdings g.now) }
    {
        let asked = can_leave(g, staking, delegator, source, coin, steps)?;
        let (v, part) = asked;
        let out = remove(v.tokens, v.shares, part);
        self.can_join(g, staking, delegator, source, target, out.2, steps)?;
        Ok((v, part))
    }

    /// The shares that an amount gives at the target; or why it is refused.
    fn can_join<B: Bank, L: Ledger>(
        &self,
        g: &Ground<B>,
        staking: &Staking,
        delegator: &Addr,
        source: &Addr,
        target: &Addr,
        amount: u128,
        steps: &mut Steps<L>,
    ) -> Result<Dec, Refusal>
        requires sound { IsSoundStake staking.now.staked }
        ensures { result ≡ joining delegator.now source.now target.now amount
            self.now.lists staking.now.staked (seen B.holdings g.now) }
    {
        if is_same(source, target) {
            return Err(Refusal::SelfRedelegation);
        }
        let t = match staking.validator(target, steps) {
            Some(t) => *t,
            None => return Err(Refusal::NoValidator),
        };
        if self.is_transitive(delegator, source, steps) {
            return Err(Refusal::Transitive);
        }
        let key = (*delegator, *source, *target);
        if g.ctx.params.max_entries <= self.list_at(&key, steps).len() as u64 {
            return Err(Refusal::RedelegationsFull);
        }
        if amount == 0 {
            return Err(Refusal::TinyRedelegation);
        }
        shares_given(&t, amount)
    }

    /// Whether some entry of the delegator has the source as its target (`HasReceivingRedelegation`). It takes a
    /// step for each key of the delegator, and one more.
    fn is_transitive<L: Ledger>(
        &self,
        delegator: &Addr,
        source: &Addr,
        steps: &mut Steps<L>,
    ) -> bool
        ensures value { result ≡ is_transitive self.now.lists delegator.now source.now }
        ensures cost { steps.new ≤ steps.old
            + length (own_entries delegator.now self.now.lists) + 1 }
    {
        known(&self.entries);
        let mut after: Option<Key> = None;
        while let Some((key, _list)) = next_own(&self.entries, delegator, after.as_ref(), steps) {
            if is_same(&key.2, source) {
                return true;
            }
            after = Some(*key);
        }
        false
    }
}

/// The source's validator, and the shares that an amount stands for; or why it is refused.
fn can_leave<B: Bank, L: Ledger>(
    g: &Ground<B>,
    staking: &Staking,
    delegator: &Addr,
    source: &Addr,
    coin: &Coin,
    steps: &mut Steps<L>,
) -> Result<(Validator, Dec), Refusal>
    requires sound { IsSoundStake staking.now.staked }
    ensures { result ≡ leaving delegator.now source.now coin.now
        staking.now.staked (seen B.holdings g.now) }
{
    if coin.amount == 0 {
        return Err(Refusal::NonPositive);
    }
    let v = match staking.validator(source, steps) {
        Some(v) => *v,
        None => return Err(Refusal::NoValidator),
    };
    let held = staking.shares_of(delegator, source, steps);
    let (_, part) = shares_to_unbond(&held, &v, coin.amount)?;
    if is_wrong(coin, &g.ctx) {
        return Err(Refusal::WrongDenom);
    }
    Ok((v, part))
}

/// Whether an operator has no validator.
pub(crate) fn is_gone<L: Ledger>(staking: &Staking, operator: &Addr, steps: &mut Steps<L>) -> bool
    ensures { result ≡ is_none (validator_at staking.now.staked operator.now) }
{
    match staking.validator(operator, steps) {
        Some(_) => false,
        None => true,
    }
}

/// The height and the completion of an entry (`getBeginInfo`): those of now where the source is bonded or
/// gone, those of the source's own unbonding where it unbonds, and None where it is unbonded.
pub(crate) fn begun(source: &Validator, gone: bool, ctx: &Ctx) -> Option<(u64, Moment)>
    requires time { ctx.now.time < 250_246_627_200 * 10 ^ 9 }
    requires unbonding { ctx.now.params.unbonding_time ≤ 10 ^ 9 }
    ensures { result ≡ begin_info source.now gone ctx.now }
{
    if gone {
        return Some((ctx.height, completion(ctx)));
    }
    match source.status {
        BondStatus::Bonded => Some((ctx.height, completion(ctx))),
        BondStatus::Unbonding => Some((source.unbonding_height, source.unbonding_time)),
        BondStatus::Unbonded => None,
    }
}
