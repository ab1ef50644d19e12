//! What a slash burns of the validator itself.

ghost use Rattle.std.specs.Prelude.{◌≡◌, ◌^◌, ◌<◌, ◌≤◌, Some, OnOk};
ghost use Rattle.base_roles.specs.Answers.{Follows};
ghost use Rattle.base_roles.specs.Ground.{seen, CanBeUndone};
ghost use Rattle.base_roles.specs.Hooks.{MayCall};
ghost use Rattle.base_roles.specs.Log.{Log};
ghost use Rattle.base_roles.specs.Staked.{Staked, validator_at, bonded_tokens, other_tokens};
ghost use Rattle.base_roles.specs.StakeChanges.{HoldsStake, StakeFalls, StillStand};
ghost use Rattle.base_roles.specs.declared.calls.Hook.TheVariants.{Slashing as slashing};
ghost use Rattle.rule_modules.specs.Answers.{Leaves};
ghost use Rattle.rule_modules.specs.Slashing.{slash_fraction, slash_told, validator_slashed, rest_slashed};
ghost use Rattle.mod_staking.specs.Calls.{behind_log};
ghost use Rattle.mod_staking.specs.Scenes.{IsHooked};
ghost use Rattle.mod_slashing.specs.Scenes.{HasTokens, LeavesBehind};

use crate::amounts::{slash_fraction, smaller};
use base_roles::{Bank, Fact, Ground, HookFault, StakingHooks, Validator, ValidatorView};
use base_types::{Addr, Steps};
use mod_staking::{Staking, burn_bond, pool_of};
use std::alloc::Global;
use std::sync::ledger::Ledger;

/// The validator of an operator, where it still stands, burns an amount, and at most its tokens. Answers what it
/// burned.
pub(crate) fn slash_rest<B: Bank, H: StakingHooks, L: Ledger>(
    alloc: Global,
    g: &mut Ground<B>,
    hooks: &mut H,
    staking: &mut Staking,
    operator: &Addr,
    amount: u128,
    steps: &mut Steps<L>,
) -> Result<u128, HookFault>
    requires hooked { IsHooked H.tells (H.holds hooks.old)
        (seen B.holdings g.old) staking.old.staked }
    requires accounts { HoldsStake (seen B.holdings g.old) (bonded_tokens staking.old.staked)
        (other_tokens staking.old.staked) }

    ensures told { (h : H.Held) → H.holds hooks.old h → (log : Log)
        → Follows (rest_slashed H.tells.told (validator_at staking.old.staked operator.now) amount
        (behind_log log staking.old.staked h (seen B.holdings g.old)))
        staking.new.staked (H.holds hooks.new) (seen B.holdings g.new) result }
    ensures falls { OnOk result (StakeFalls (seen B.holdings g.old) (seen B.holdings g.new)
        (bonded_tokens staking.old.staked) (other_tokens staking.old.staked)
        (bonded_tokens staking.new.staked) (other_tokens staking.new.staked)) }
    ensures still { OnOk result (StillStand staking.old.staked staking.new.staked) }
    ensures hooked { OnOk result (IsHooked H.tells (H.holds hooks.new)
        (seen B.holdings g.new) staking.new.staked) }

    // Whatever the answer.
    ensures behind { LeavesBehind B.marks B.most_steps H.marks
        g.old g.new hooks.old hooks.new staking.old staking.new }
{
    let v = match staking.validator(operator, steps) {
        Some(v) => *v,
        None => return Ok(0),
    };
    slash_validator(alloc, g, hooks, staking, &v, amount, steps)
}

/// A validator burns an amount, and at most its tokens, from the account of its status (`RemoveValidatorTokens`,
/// `burnBondedTokens`, `burnNotBondedTokens`). Answers what it burned.
fn slash_validator<B: Bank, H: StakingHooks, L: Ledger>(
    alloc: Global,
    g: &mut Ground<B>,
    hooks: &mut H,
    staking: &mut Staking,
    v: &Validator,
    amount: u128,
    steps: &mut Steps<L>,
) -> Result<u128, HookFault>
    requires stands { validator_at staking.old.staked v.now.operator ≡ Some v.now }
    requires hooked { IsHooked H.tells (H.holds hooks.old)
        (seen B.holdings g.old) staking.old.staked }
    requires tokens { HasTokens v.now (seen B.holdings g.old) }

    ensures told { (h : H.Held) → H.holds hooks.old h → (log : Log)
        → Follows (validator_slashed H.tells.told v.now amount
        (behind_log log staking.old.staked h (seen B.holdings g.old)))
        staking.new.staked (H.holds hooks.new) (seen B.holdings g.new) result }
    ensures falls { OnOk result (StakeFalls (seen B.holdings g.old) (seen B.holdings g.new)
        (bonded_tokens staking.old.staked) (other_tokens staking.old.staked)
        (bonded_tokens staking.new.staked) (other_tokens staking.new.staked)) }
    ensures still { OnOk result (StillStand staking.old.staked staking.new.staked) }
    ensures hooked { OnOk result (IsHooked H.tells (H.holds hooks.new)
        (seen B.holdings g.new) staking.new.staked) }

    // Whatever the answer.
    ensures behind { LeavesBehind B.marks B.most_steps H.marks
        g.old g.new hooks.old hooks.new staking.old staking.new }
{
    let burned = smaller(amount, v.tokens);
    tell_slash(alloc, g, hooks, v, burned, steps)?;
    staking.burn_tokens(&v.operator, burned, steps)?;
    burn_bond(alloc, g, pool_of(v.status), burned, steps)?;
    Ok(burned)
}

/// The hook of a slash, and its fact; a validator without tokens has neither (`BeforeValidatorSlashed`).
fn tell_slash<B: Bank, H: StakingHooks, L: Ledger>(
    alloc: Global,
    g: &mut Ground<B>,
    hooks: &mut H,
    v: &Validator,
    burned: u128,
    steps: &mut Steps<L>,
) -> Result<(), HookFault>
    requires most { v.now.tokens ≤ 10 ^ 18 }
    requires within { burned ≤ v.now.tokens }
    requires ready { MayCall (H.holds hooks.old) H.tells
        (slashing v.now (slash_fraction burned v.now.tokens)) (seen B.holdings g.old) }

    ensures told { (h : H.Held) → H.holds hooks.old h → (log : Log) (s : Staked)
        → Leaves (slash_told H.tells.told v.now burned
        (behind_log log s h (seen B.holdings g.old)))
        s (H.holds hooks.new) (seen B.holdings g.new) result }

    // Whatever the answer.
    ensures undone { CanBeUndone B.marks g.old g.new }
    ensures bank { B.most_steps g.new.bank ≡ B.most_steps g.old.bank }
    ensures hook_marks { H.marks hooks.new ≡ H.marks hooks.old }
{
    if v.tokens == 0 {
        return Ok(());
    }
    let fraction = slash_fraction(burned, v.tokens);
    hooks.before_validator_slashed(alloc, g, v, fraction, steps)?;
    g.facts.push(Fact::Slashed {
        validator: v.operator,
        fraction,
        burned,
    })?;
    Ok(())
}
