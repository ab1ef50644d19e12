//! Validators that join the bonded set.

ghost use Rattle.std.specs.Prelude.{◌≡◌, ◌+◌, ◌≤◌, true, Some, OnOk, IfErr};
ghost use Rattle.base_types.specs.declared.status.BondStatus.TheVariants.{Bonded};
ghost use Rattle.base_roles.specs.declared.faults.HookFault.TheVariants.{NoMemory};
ghost use Rattle.base_roles.specs.Ground.{seen};
ghost use Rattle.base_roles.specs.Hooks.{Stand};
ghost use Rattle.base_roles.specs.Log.{Log};
ghost use Rattle.base_roles.specs.Staked.{validator_at, put_validator, lists_of};
ghost use Rattle.rule_modules.specs.Answers.{Leaves};
ghost use Rattle.rule_modules.specs.BondedSet.{joined_set};
ghost use Rattle.mod_staking.specs.Calls.{behind_log};
ghost use Rattle.mod_staking.specs.Scenes.{IsHooked, GoesOn, KeepsAccounts};

use base_roles::{Bank, Ground, HookFault, StakingHooks, Validator};
use base_types::{BondStatus, Steps};
use mod_staking::Staking;
use std::alloc::Global;
use std::sync::ledger::Ledger;

/// A validator joins the bonded set, and its hook is called (`bondValidator`: `AfterValidatorBonded`).
///
/// The errors are `NoMemory` and `Over`, which comes exactly where the hook exceeds, which sure hooks never do.
pub(crate) fn join<B: Bank, H: StakingHooks, L: Ledger>(
    alloc: Global,
    g: &mut Ground<B>,
    hooks: &mut H,
    staking: &mut Staking,
    v: &Validator,
    steps: &mut Steps<L>,
) -> Result<(), HookFault>
    requires stands { validator_at staking.old.staked v.now.operator ≡ Some v.now }
    requires hooked { IsHooked H.tells (H.holds hooks.old)
        (seen B.holdings g.old) staking.old.staked }

    ensures told { (h : H.Held) → H.holds hooks.old h → (log : Log)
        → Leaves (joined_set H.tells.told v.now
        (behind_log log staking.old.staked h (seen B.holdings g.old)))
        staking.new.staked (H.holds hooks.new) (seen B.holdings g.new) result }
    ensures staked { OnOk result (staking.new.staked
        ≡ put_validator (record v.now { status = Bonded }) staking.old.staked) }
    ensures sure { (h : H.Held) → H.holds hooks.old h
        → Stand H.tells h (seen B.holdings g.old) (lists_of staking.old.staked)
        → H.tells.sure h ≡ true → IfErr result (λ fault. fault ≡ NoMemory) }
    ensures hooked { OnOk result (IsHooked H.tells (H.holds hooks.new)
        (seen B.holdings g.new) staking.new.staked) }
    ensures keeps { KeepsAccounts H.tells (H.holds hooks.old) staking.old.staked
        (seen B.holdings g.old) (seen B.holdings g.new) result }

    // Whatever the answer.
    ensures goes_on { GoesOn B.marks B.most_steps H.marks
        g.old g.new hooks.old hooks.new staking.old staking.new result }
    ensures cost { (h : H.Held) → H.holds hooks.old h
        → steps.new ≤ steps.old + 9 + H.tells.most_steps h }
{
    staking.set_status(
        &mut g.facts,
        &v.operator,
        BondStatus::Bonded,
        v.unbonding_height,
        v.unbonding_time,
        steps,
    )?;
    let mut joined = *v;
    joined.status = BondStatus::Bonded;
    match hooks.after_validator_bonded(alloc, g, &joined, steps) {
        Ok(()) => Ok(()),
        Err(fault) => Err(fault),
    }
}
