//! Steps of calls of a block's end where so many validators are bonded, or nothing is mature, over the chain's own bank and
//! hooks. A program keeps no number of steps, so these are no tests that run: what a call takes is said by contracts alone.

ghost use Rattle.std.specs.Prelude.{◌≡◌, ◌+◌, ◌≤◌};
ghost use Rattle.std.specs.Map.{values_of};
ghost use Rattle.base_roles.specs.Ground.{seen, IsInOrder};
ghost use Rattle.base_roles.specs.StakeChanges.{HoldsStake};
ghost use Rattle.base_roles.specs.Staked.{is_bonded};
ghost use Rattle.rule_modules.specs.Amounts.{count_where};
ghost use Rattle.rule_modules.specs.EntrySlashes.{redelegation_made, unbonding_made};
ghost use Rattle.rule_modules.specs.Owed.{entry_balances};
ghost use Rattle.mod_entries.specs.Walked.{mature_entries};
ghost use Rattle.mod_unbonding.specs.Calls as unbonding;
ghost use Rattle.mod_redelegation.specs.Calls as redelegation;
ghost use Rattle.chain_modules.specs.Kept.{IsStakeScene};

use base_roles::{Extra, Ground, HookFault};
use base_types::{Moment, Steps};
use chain_modules::Modules;
use mod_bank::BankBalances;
use mod_bonded_set::update;
use mod_redelegation::Redelegations;
use mod_unbonding::Unbondings;
use std::alloc::Global;
use std::sync::ledger::Ledger;

/// Makes the bonded set anew where ten validators may be bonded, and ten are: in at most 504 steps, whether there are
/// eleven validators or 5,000.
pub fn set_of_ten<E: Extra, L: Ledger>(
    alloc: Global,
    modules: &mut Modules<E>,
    steps: &mut Steps<L>,
) -> Result<(), HookFault>
    requires scene { IsStakeScene modules.old }
    requires most { modules.old.ground.ctx.params.max_validators ≡ 10 }
    requires bonded { count_where (λ v. is_bonded v.status)
        (values_of modules.old.stakes.staking.staked.validators) ≡ 10 }
    ensures { steps.new ≤ steps.old + 504 }
{
    update(
        alloc,
        &mut modules.ground,
        &mut modules.hooks,
        &mut modules.stakes.staking,
        steps,
    )
}

/// Completes unbondings where none is mature: in one step, whether there is no entry or 10,000.
pub fn no_unbonding_matures<L: Ledger>(
    alloc: Global,
    unbondings: &mut Unbondings,
    g: &mut Ground<BankBalances>,
    steps: &mut Steps<L>,
) -> Result<(), HookFault>
    requires entries { unbonding.AreSoundLists unbondings.old.lists }
    requires in_order { IsInOrder (seen (λ b. b.holdings) g.old) }
    requires account { HoldsStake (seen (λ b. b.holdings) g.old) 0
        (entry_balances unbondings.old.lists) }
    requires none { mature_entries unbonding_made g.old.ctx.time unbondings.old.lists ≡ 0 }
    ensures { steps.new ≤ steps.old + 1 }
{
    unbondings.complete(alloc, g, steps)
}

/// Completes redelegations where none is mature: in one step, whether there is no entry or 10,000.
pub fn no_redelegation_matures<L: Ledger>(
    alloc: Global,
    redelegations: &mut Redelegations,
    now: Moment,
    steps: &mut Steps<L>,
) -> Result<(), HookFault>
    requires entries { redelegation.AreSoundLists redelegations.old.lists }
    requires none { mature_entries redelegation_made now redelegations.old.lists ≡ 0 }
    ensures { steps.new ≤ steps.old + 1 }
{
    redelegations.complete(alloc, now, steps)
}
