//! The bonded set made anew.

ghost use Rattle.std.specs.Prelude.{◌≡◌, ◌+◌, ◌*◌, ◌^◌, ◌≤◌, true, length, OnOk, IfErr, option_map};
ghost use Rattle.std.specs.List.{AllByRecursion};
ghost use Rattle.std.specs.Map.{values_of};
ghost use Rattle.base_roles.specs.declared.faults.HookFault.TheVariants.{NoMemory};
ghost use Rattle.base_roles.specs.Ground.{seen, CanBeUndone, IsInOrder};
ghost use Rattle.base_roles.specs.Hooks.{Stand};
ghost use Rattle.base_roles.specs.Log.{Log};
ghost use Rattle.base_roles.specs.Staked.{lists_of, is_bonded};
ghost use Rattle.base_roles.specs.Flow.{each};
ghost use Rattle.rule_modules.specs.Amounts.{count_where};
ghost use Rattle.rule_modules.specs.Answers.{Leaves};
ghost use Rattle.rule_modules.specs.BondedSet.{HaveOwnOperators, joined_set, set_updated, tokens_of};
ghost use Rattle.mod_staking.specs.Calls.{IsSoundStake, behind_log};
ghost use Rattle.mod_staking.specs.KnownSet.{IsKnown};
ghost use Rattle.mod_staking.specs.Places.{standing};
ghost use Rattle.mod_staking.specs.Scenes.{IsHooked, IsScene, KeepsAccounts};
ghost use Rattle.rule_modules.specs.Unbondings.{completion};
ghost use Rattle.mod_bonded_set.specs.Calls.{AllStays, RegisterStays};
ghost use Rattle.mod_bonded_set.specs.Sets.{AllStand, all_joined, all_left, all_leavings_noted};

use crate::joining::join;
use crate::leaving::leave;
use crate::paying::move_difference;
use crate::set::who_moves;
use base_roles::{Bank, Ground, HookFault, StakingHooks, Validator};
use base_types::{Addr, Steps};
use mod_staking::Staking;
use std::alloc::Global;
use std::sync::ledger::Ledger;

/// The bonded set is made anew (`ApplyAndReturnValidatorSetUpdates`): those of the first validators by power
/// that are not bonded yet join it, in its order, each with its hook; then the bonded ones that are not among
/// them leave it, by rising operator; last, the difference of their tokens moves between the two staking
/// accounts.
///
/// The errors are `NoMemory` and `Over`, which comes exactly where a hook exceeds, which sure hooks never do.
pub fn update<B: Bank, H: StakingHooks, L: Ledger>(
    alloc: Global,
    g: &mut Ground<B>,
    hooks: &mut H,
    staking: &mut Staking,
    steps: &mut Steps<L>,
) -> Result<(), HookFault>
    requires scene { IsScene H.tells (H.holds hooks.old)
        (seen B.holdings g.old) staking.old.staked }
    requires power { staking.old.power_reduction ≡ g.old.ctx.params.power_reduction }

    ensures told { (h : H.Held) → H.holds hooks.old h → (log : Log)
        → Leaves (set_updated H.tells.told
        (behind_log log staking.old.staked h (seen B.holdings g.old)))
        staking.new.staked (H.holds hooks.new) (seen B.holdings g.new) result }
    ensures sure { (h : H.Held) → H.holds hooks.old h
        → Stand H.tells h (seen B.holdings g.old) (lists_of staking.old.staked)
        → H.tells.sure h ≡ true → IfErr result (λ fault. fault ≡ NoMemory) }
    ensures scene { OnOk result (IsScene H.tells (H.holds hooks.new)
        (seen B.holdings g.new) staking.new.staked) }

    // Whatever the answer.
    ensures stays { AllStays B.marks B.most_steps H.marks
        g.old g.new hooks.old hooks.new staking.old staking.new result }
    ensures cost { (h : H.Held) → H.holds hooks.old h → H.tells.most_steps h ≤ 4
        → B.most_steps g.old.bank ≤ 8 → steps.new ≤ steps.old + 24
        * (g.old.ctx.params.max_validators
        + count_where (λ v. is_bonded v.status) (values_of staking.old.staked.validators) + 1) }
{
    let reduction = g.ctx.params.power_reduction;
    let most = g.ctx.params.max_validators;
    let moves = who_moves(alloc, staking, reduction, most, steps)?;
    let joining = moves.joining.as_slice();
    let leaving = moves.leaving.as_slice();
    join_all(alloc, g, hooks, staking, joining, steps)?;
    leave_all(g, staking, leaving, steps)?;
    let joined = tokens_of(joining);
    let left = tokens_of(leaving);
    move_difference(alloc, g, joined, left, steps)?;
    tell(staking, &moves.last);
    Ok(())
}

/// Tells staking the place down to which validators are bonded and behind which none is, where one was found.
fn tell(staking: &mut Staking, last: &Option<(u64, Addr)>)
    requires { IsKnown staking.old.power_reduction (option_map standing last.now)
        staking.old.staked.validators }
    ensures { staking.new ≡ staking.old }
{
    if let Some(last) = last {
        staking.know_set(*last);
    }
}

/// Validators join the bonded set one after another.
fn join_all<B: Bank, H: StakingHooks, L: Ledger>(
    alloc: Global,
    g: &mut Ground<B>,
    hooks: &mut H,
    staking: &mut Staking,
    joining: &[Validator],
    steps: &mut Steps<L>,
) -> Result<(), HookFault>
    requires stand { AllStand staking.old.staked joining.now }
    requires apart { HaveOwnOperators joining.now }
    requires hooked { IsHooked H.tells (H.holds hooks.old)
        (seen B.holdings g.old) staking.old.staked }

    ensures told { (h : H.Held) → H.holds hooks.old h → (log : Log)
        → Leaves (each (joined_set H.tells.told) joining.now
        (behind_log log staking.old.staked h (seen B.holdings g.old)))
        staking.new.staked (H.holds hooks.new) (seen B.holdings g.new) result }
    ensures staked { OnOk result (staking.new.staked
        ≡ all_joined joining.now staking.old.staked) }
    ensures sure { (h : H.Held) → H.holds hooks.old h
        → Stand H.tells h (seen B.holdings g.old) (lists_of staking.old.staked)
        → H.tells.sure h ≡ true → IfErr result (λ fault. fault ≡ NoMemory) }
    ensures hooked { OnOk result (IsHooked H.tells (H.holds hooks.new)
        (seen B.holdings g.new) staking.new.staked) }
    ensures keeps { KeepsAccounts H.tells (H.holds hooks.old) staking.old.staked
        (seen B.holdings g.old) (seen B.holdings g.new) result }

    // Whatever the answer.
    ensures stays { AllStays B.marks B.most_steps H.marks
        g.old g.new hooks.old hooks.new staking.old staking.new result }
    ensures cost { (h : H.Held) → H.holds hooks.old h
        → steps.new ≤ steps.old + length joining.now * (9 + H.tells.most_steps h) }
{
    for v in joining {
        join(alloc, g, hooks, staking, v, steps)?;
    }
    Ok(())
}

/// Validators leave the bonded set one after another. The only error is `NoMemory`.
fn leave_all<B: Bank, L: Ledger>(
    g: &mut Ground<B>,
    staking: &mut Staking,
    leaving: &[Validator],
    steps: &mut Steps<L>,
) -> Result<(), HookFault>
    requires stand { AllStand staking.old.staked leaving.now }
    requires apart { HaveOwnOperators leaving.now }
    requires sound { IsSoundStake staking.old.staked }
    requires in_order { IsInOrder (seen B.holdings g.old) }

    ensures staked { OnOk result (staking.new.staked ≡ all_left
        g.old.ctx.height (completion g.old.ctx) leaving.now staking.old.staked) }
    ensures ground { OnOk result (seen B.holdings g.new
        ≡ all_leavings_noted leaving.now (seen B.holdings g.old)) }
    ensures bank { g.new.bank ≡ g.old.bank }
    ensures sound { OnOk result (IsSoundStake staking.new.staked) }
    ensures fault { IfErr result (λ fault. fault ≡ NoMemory) }

    // Whatever the answer.
    ensures undone { CanBeUndone B.marks g.old g.new }
    ensures register { RegisterStays staking.old staking.new result }
    ensures cost { steps.new ≤ steps.old + 9 * length leaving.now }
{
    for v in leaving {
        leave(g, staking, v, steps)?;
    }
    Ok(())
}

/// The tokens of validators together.
fn tokens_of(validators: &[Validator]) -> u128
    requires { AllByRecursion (λ v. v.tokens ≤ 10 ^ 18) validators.now }
    ensures { result ≡ tokens_of validators.now }
{
    let mut total = 0u128;
    for v in validators {
        total += v.tokens;
    }
    total
}
