//! Validators that leave the bonded set.

ghost use Rattle.std.specs.Prelude.{◌≡◌, ◌+◌, ◌^◌, ◌<◌, ◌≤◌, Some, OnOk, IfErr};
ghost use Rattle.base_types.specs.declared.status.BondStatus.TheVariants.{Unbonding};
ghost use Rattle.base_roles.specs.declared.faults.HookFault.TheVariants.{NoMemory};
ghost use Rattle.base_roles.specs.declared.facts.Fact.TheVariants as fact;
ghost use Rattle.base_roles.specs.Ground.{seen, IsInOrder, CanBeUndone, end_of_blocks};
ghost use Rattle.base_roles.specs.Staked.{validator_at, put_validator};
ghost use Rattle.base_roles.specs.World.{noted};
ghost use Rattle.rule_modules.specs.Unbondings.{completion};
ghost use Rattle.mod_staking.specs.Calls.{IsSoundStake};
ghost use Rattle.mod_staking.specs.Scenes.{RegisterGoesOn};

use base_roles::{Bank, Ctx, Ground, HookFault, Validator};
use base_types::{BondStatus, Moment, Steps};
use mod_staking::Staking;
use std::sync::ledger::Ledger;

/// Nanoseconds in a second.
const SECOND: u128 = 1_000_000_000;

/// A validator leaves the bonded set and begins to unbond (`beginUnbondingValidator`). The only error is
/// `NoMemory`.
pub(crate) fn leave<B: Bank, L: Ledger>(
    g: &mut Ground<B>,
    staking: &mut Staking,
    v: &Validator,
    steps: &mut Steps<L>,
) -> Result<(), HookFault>
    requires stands { validator_at staking.old.staked v.now.operator ≡ Some v.now }
    requires sound { IsSoundStake staking.old.staked }
    requires in_order { IsInOrder (seen B.holdings g.old) }

    ensures staked { OnOk result (staking.new.staked ≡ put_validator (record v.now {
      status = Unbonding;
      unbonding_height = g.old.ctx.height;
      unbonding_time = completion g.old.ctx;
    }) staking.old.staked) }
    ensures ground { OnOk result (seen B.holdings g.new
        ≡ noted (fact.Changed v.now.operator Unbonding) (seen B.holdings g.old)) }
    ensures sound { OnOk result (IsSoundStake staking.new.staked) }
    ensures fault { IfErr result (λ fault. fault ≡ NoMemory) }

    // Whatever the answer.
    ensures undone { CanBeUndone B.marks g.old g.new }
    ensures bank { g.new.bank ≡ g.old.bank }
    ensures register { RegisterGoesOn staking.old staking.new result }
    ensures cost { steps.new ≤ steps.old + 9 }
{
    let time = completion(&g.ctx);
    staking.set_status(
        &mut g.facts,
        &v.operator,
        BondStatus::Unbonding,
        g.ctx.height,
        time,
        steps,
    )
}

/// When what begins to unbond now is mature.
fn completion(ctx: &Ctx) -> Moment
    requires time { ctx.now.time < end_of_blocks }
    requires unbonding_time { ctx.now.params.unbonding_time ≤ 10 ^ 9 }
    ensures { result ≡ completion ctx.now }
{
    let nanos = ctx.time.nanos() + u128::from(ctx.params.unbonding_time) * SECOND;
    Moment::of(nanos).unwrap()
}
