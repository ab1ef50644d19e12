//! Validators whose unbonding is mature.

ghost use Rattle.std.specs.Prelude.{◌≡◌, ◌+◌, ◌*◌, ◌≤◌, ◌==◌, true, false, Some, length, map, filter, OnOk, IfOk, IfErr};
ghost use Rattle.std.specs.Map.{values_of};
ghost use Rattle.base_roles.specs.declared.entities.Validator.{Validator};
ghost use Rattle.base_roles.specs.declared.faults.HookFault.TheVariants.{NoMemory};
ghost use Rattle.base_roles.specs.Ground.{seen};
ghost use Rattle.base_roles.specs.Hooks.{Stand};
ghost use Rattle.base_roles.specs.Log.{Log};
ghost use Rattle.base_roles.specs.Staked.{validator_at, lists_of};
ghost use Rattle.rule_modules.specs.Amounts.{count_where};
ghost use Rattle.rule_modules.specs.Answers.{Leaves};
ghost use Rattle.rule_modules.specs.BondedSet.{matured, validators_matured};
ghost use Rattle.mod_staking.specs.Calls.{IsSoundStake, behind_log};
ghost use Rattle.mod_staking.specs.Scenes.{IsHooked, GoesOn, KeepsAccounts};
ghost use Rattle.mod_staking.specs.Places.{time_cmp, maturing_place, in_order};
ghost use Rattle.mod_bonded_set.specs.Calls.{AllStays};
ghost use Rattle.mod_bonded_set.specs.Sets.{is_due, due_in, goes_at};

use base_roles::{Bank, Ground, HookFault, StakingHooks, ValidatorView};
use base_types::{Addr, BondStatus, Moment, Steps};
use mod_staking::Staking;
use std::alloc::Global;
use std::sync::ledger::Ledger;

/// Validators whose unbonding is mature become unbonded, by rising operator, and go where they have no shares
/// (`UnbondAllMatureValidators`). Where all that are mature have shares, that takes at most twelve steps for
/// each, and two more.
///
/// The errors are `NoMemory` and `Over`, which comes exactly where a hook exceeds, which sure hooks never do.
pub fn mature_validators<B: Bank, H: StakingHooks, L: Ledger>(
    alloc: Global,
    g: &mut Ground<B>,
    hooks: &mut H,
    staking: &mut Staking,
    steps: &mut Steps<L>,
) -> Result<(), HookFault>
    requires hooked { IsHooked H.tells (H.holds hooks.old)
        (seen B.holdings g.old) staking.old.staked }

    ensures told { (h : H.Held) → H.holds hooks.old h → (log : Log)
        → Leaves (validators_matured H.tells.told
        (behind_log log staking.old.staked h (seen B.holdings g.old)))
        staking.new.staked (H.holds hooks.new) (seen B.holdings g.new) result }
    ensures sure { (h : H.Held) → H.holds hooks.old h
        → Stand H.tells h (seen B.holdings g.old) (lists_of staking.old.staked)
        → H.tells.sure h ≡ true → IfErr result (λ fault. fault ≡ NoMemory) }
    ensures hooked { OnOk result (IsHooked H.tells (H.holds hooks.new)
        (seen B.holdings g.new) staking.new.staked) }
    ensures keeps { KeepsAccounts H.tells (H.holds hooks.old) staking.old.staked
        (seen B.holdings g.old) (seen B.holdings g.new) result }

    // Whatever the answer.
    ensures stays { AllStays B.marks B.most_steps H.marks
        g.old g.new hooks.old hooks.new staking.old staking.new result }
    ensures cost { count_where (goes_at g.old.ctx.time)
        (values_of staking.old.staked.validators) ≡ 0 → steps.new ≤ steps.old + 2 + 12
        * count_where (is_due g.old.ctx.time) (values_of staking.old.staked.validators) }
{
    let due = who_matures(alloc, staking, g.ctx.time, steps)?;
    mature_all(alloc, g, hooks, staking, due.as_slice(), steps)
}

/// The validators of these operators, which are all that are mature, become unbonded in this order, and go
/// where they have no shares.
///
/// The errors are those of [`mature_validators`].
fn mature_all<B: Bank, H: StakingHooks, L: Ledger>(
    alloc: Global,
    g: &mut Ground<B>,
    hooks: &mut H,
    staking: &mut Staking,
    due: &[Addr],
    steps: &mut Steps<L>,
) -> Result<(), HookFault>
    requires due { due.now ≡ map (λ v. v.operator)
        (filter (is_due g.old.ctx.time) (values_of staking.old.staked.validators)) }
    requires hooked { IsHooked H.tells (H.holds hooks.old)
        (seen B.holdings g.old) staking.old.staked }

    ensures told { (h : H.Held) → H.holds hooks.old h → (log : Log)
        → Leaves (validators_matured H.tells.told
        (behind_log log staking.old.staked h (seen B.holdings g.old)))
        staking.new.staked (H.holds hooks.new) (seen B.holdings g.new) result }
    ensures sure { (h : H.Held) → H.holds hooks.old h
        → Stand H.tells h (seen B.holdings g.old) (lists_of staking.old.staked)
        → H.tells.sure h ≡ true → IfErr result (λ fault. fault ≡ NoMemory) }
    ensures hooked { OnOk result (IsHooked H.tells (H.holds hooks.new)
        (seen B.holdings g.new) staking.new.staked) }
    ensures keeps { KeepsAccounts H.tells (H.holds hooks.old) staking.old.staked
        (seen B.holdings g.old) (seen B.holdings g.new) result }

    // Whatever the answer.
    ensures stays { AllStays B.marks B.most_steps H.marks
        g.old g.new hooks.old hooks.new staking.old staking.new result }
    ensures cost { count_where (goes_at g.old.ctx.time)
        (values_of staking.old.staked.validators) ≡ 0
        → steps.new ≤ steps.old + 10 * length due.now }
{
    for operator in due {
        mature(alloc, g, hooks, staking, operator, steps)?;
    }
    Ok(())
}

/// The operators of the unbonding validators whose time has come, by rising operator. The only error is
/// `NoMemory`.
fn who_matures<L: Ledger>(
    alloc: Global,
    staking: &Staking,
    now: Moment,
    steps: &mut Steps<L>,
) -> Result<Vec<Addr>, HookFault>
    requires sound { IsSoundStake staking.now.staked }
    ensures due { IfOk result (λ due. due.items
        ≡ map (λ v. v.operator) (filter (is_due now) (values_of staking.now.staked.validators))) }
    ensures fault { IfErr result (λ fault. fault ≡ NoMemory) }
    ensures cost { steps.new ≤ steps.old + 2
        * (count_where (is_due now) (values_of staking.now.staked.validators) + 1) }
{
    let mut due = queued(alloc, staking, now, steps)?;
    due.sort_unstable();
    Ok(due)
}

/// The operators of the unbonding validators whose time has come, in the order of the queue. The only error
/// is `NoMemory`.
fn queued<L: Ledger>(
    alloc: Global,
    staking: &Staking,
    now: Moment,
    steps: &mut Steps<L>,
) -> Result<Vec<Addr>, HookFault>
    requires sound { IsSoundStake staking.now.staked }
    ensures due { IfOk result (λ due. due.items ≡ due_in now (in_order time_cmp
        (maturing_place staking.now.power_reduction) staking.now.staked.validators)) }
    ensures fault { IfErr result (λ fault. fault ≡ NoMemory) }
    ensures cost { steps.new ≤ steps.old + 2
        * (count_where (is_due now) (values_of staking.now.staked.validators) + 1) }
{
    let mut due = Vec::new(alloc);
    let mut after: Option<(Moment, Addr)> = None;
    while let Some(v) = staking.next_maturing(after, steps) {
        if now.nanos() < v.unbonding_time.nanos() {
            return Ok(due);
        }
        due.push(v.operator)?;
        after = Some((v.unbonding_time, v.operator));
    }
    Ok(due)
}

/// An unbonding validator is unbonded, and goes where it has no shares.
fn mature<B: Bank, H: StakingHooks, L: Ledger>(
    alloc: Global,
    g: &mut Ground<B>,
    hooks: &mut H,
    staking: &mut Staking,
    operator: &Addr,
    steps: &mut Steps<L>,
) -> Result<(), HookFault>
    requires stands { (v : Validator) × ((validator_at staking.old.staked operator.now ≡ Some v)
        × (is_due g.old.ctx.time v ≡ true)) }
    requires hooked { IsHooked H.tells (H.holds hooks.old)
        (seen B.holdings g.old) staking.old.staked }

    ensures told { (h : H.Held) → H.holds hooks.old h → (log : Log)
        → (v : Validator) → validator_at staking.old.staked operator.now ≡ Some v
        → Leaves (matured H.tells.told v
        (behind_log log staking.old.staked h (seen B.holdings g.old)))
        staking.new.staked (H.holds hooks.new) (seen B.holdings g.new) result }
    ensures sure { (h : H.Held) → H.holds hooks.old h
        → Stand H.tells h (seen B.holdings g.old) (lists_of staking.old.staked)
        → H.tells.sure h ≡ true → IfErr result (λ fault. fault ≡ NoMemory) }
    ensures hooked { OnOk result (IsHooked H.tells (H.holds hooks.new)
        (seen B.holdings g.new) staking.new.staked) }
    ensures keeps { KeepsAccounts H.tells (H.holds hooks.old) staking.old.staked
        (seen B.holdings g.old) (seen B.holdings g.new) result }

    // Whatever the answer.
    ensures goes_on { GoesOn B.marks B.most_steps H.marks
        g.old g.new hooks.old hooks.new staking.old staking.new result }
    ensures cost { (v : Validator) → validator_at staking.old.staked operator.now ≡ Some v
        → (v.shares == 0) ≡ false → steps.new ≤ steps.old + 10 }
{
    let v = *staking.validator(operator, steps).unwrap();
    staking.set_status(
        &mut g.facts,
        operator,
        BondStatus::Unbonded,
        v.unbonding_height,
        v.unbonding_time,
        steps,
    )?;
    if v.shares.raw() == 0 {
        return staking.remove_validator(alloc, g, hooks, operator, steps);
    }
    Ok(())
}
