//! The end of a block: the bonded set, then validators, unbondings and redelegations that are mature.

ghost use Rattle.std.specs.Prelude.{◌≡◌, OnOk};
ghost use Rattle.rule_modules.specs.Chain.{State, set_step, maturing_step, unbondings_step, redelegations_step, end_block};
ghost use Rattle.rule_machine.specs.Listening.{Hearing, ending_heard, maturing_heard, set_heard};
ghost use Rattle.chain_modules.specs.Heard.{Hears, HearsAfter};
ghost use Rattle.chain_modules.specs.Kept.{Keeps, StandsWhole, kept_of, AreSteady, IsStakeScene, listener_of};
ghost use Rattle.chain_modules.specs.Marks.{GoOn};
ghost use Rattle.chain_blocks.specs.Answers.{Leads, TakesStep};

use base_roles::{Extra, HookFault};
use base_types::Steps;
use chain_modules::Modules;
use mod_bonded_set::{mature_validators, update};
use std::alloc::Global;
use std::sync::ledger::Ledger;

/// Ends a block (`x/staking`: `BlockValidatorUpdates`). After an error some of it may stand.
pub(crate) fn end<E: Extra, L: Ledger>(
    alloc: Global,
    modules: &mut Modules<E>,
    steps: &mut Steps<L>,
) -> Result<(), HookFault>
    requires steady { AreSteady modules.old }
    ensures takes { TakesStep end_block modules.old modules.new result }
    ensures heard { (w : Hearing E.Heard) → Hears E.heard StandsWhole modules.old w
        → OnOk result (HearsAfter E.heard StandsWhole
        (ending_heard E.hears w) modules.new) }

    // Whatever the answer.
    ensures listener { E.Records.marks (listener_of modules.new)
        ≡ E.Records.marks (listener_of modules.old) }
{
    make_set(alloc, modules, steps)?;
    mature(alloc, modules, steps)?;
    pay_unbondings(alloc, modules, steps)?;
    end_redelegations(alloc, modules, steps)
}

/// Makes the bonded set anew, also of a genesis that has not bonded anybody yet.
///
/// # Errors
/// `Over` with the operands, exactly where a hook exceeds, and `NoMemory`. Some of it may stand then.
pub fn update_set<E: Extra, L: Ledger>(
    alloc: Global,
    modules: &mut Modules<E>,
    steps: &mut Steps<L>,
) -> Result<(), HookFault>
    requires scene { IsStakeScene modules.old }
    ensures leads { (p : State) → Keeps (kept_of modules.old) p
        → Leads Keeps (set_step p) (kept_of modules.new) result }
    ensures heard { (w : Hearing E.Heard) → Hears E.heard Keeps modules.old w
        → OnOk result (HearsAfter E.heard Keeps
        (set_heard E.hears w) modules.new) }

    // Whatever the answer.
    ensures go_on { GoOn modules.old modules.new }
    ensures listener { E.Records.marks (listener_of modules.new)
        ≡ E.Records.marks (listener_of modules.old) }
{
    update(
        alloc,
        &mut modules.ground,
        &mut modules.hooks,
        &mut modules.stakes.staking,
        steps,
    )
}

/// Makes the bonded set anew (`ApplyAndReturnValidatorSetUpdates`).
fn make_set<E: Extra, L: Ledger>(
    alloc: Global,
    modules: &mut Modules<E>,
    steps: &mut Steps<L>,
) -> Result<(), HookFault>
    requires steady { AreSteady modules.old }
    ensures takes { TakesStep set_step modules.old modules.new result }
    ensures heard { (w : Hearing E.Heard) → Hears E.heard StandsWhole modules.old w
        → OnOk result (HearsAfter E.heard StandsWhole
        (set_heard E.hears w) modules.new) }

    // Whatever the answer.
    ensures listener { E.Records.marks (listener_of modules.new)
        ≡ E.Records.marks (listener_of modules.old) }
{
    update_set(alloc, modules, steps)
}

/// Validators whose unbonding is mature become unbonded (`UnbondAllMatureValidators`).
fn mature<E: Extra, L: Ledger>(
    alloc: Global,
    modules: &mut Modules<E>,
    steps: &mut Steps<L>,
) -> Result<(), HookFault>
    requires steady { AreSteady modules.old }
    ensures takes { TakesStep maturing_step modules.old modules.new result }
    ensures heard { (w : Hearing E.Heard) → Hears E.heard StandsWhole modules.old w
        → OnOk result (HearsAfter E.heard StandsWhole
        (maturing_heard E.hears w) modules.new) }

    // Whatever the answer.
    ensures listener { E.Records.marks (listener_of modules.new)
        ≡ E.Records.marks (listener_of modules.old) }
{
    mature_validators(
        alloc,
        &mut modules.ground,
        &mut modules.hooks,
        &mut modules.stakes.staking,
        steps,
    )
}

/// Unbondings that are mature are paid (`CompleteUnbonding`).
fn pay_unbondings<E: Extra, L: Ledger>(
    alloc: Global,
    modules: &mut Modules<E>,
    steps: &mut Steps<L>,
) -> Result<(), HookFault>
    requires steady { AreSteady modules.old }
    ensures takes { TakesStep unbondings_step modules.old modules.new result }

    // Whatever the answer.
    ensures listener { listener_of modules.new ≡ listener_of modules.old }
{
    modules
        .stakes
        .unbondings
        .complete(alloc, &mut modules.ground, steps)
}

/// Redelegations that are mature go (`CompleteRedelegation`).
fn end_redelegations<E: Extra, L: Ledger>(
    alloc: Global,
    modules: &mut Modules<E>,
    steps: &mut Steps<L>,
) -> Result<(), HookFault>
    requires steady { AreSteady modules.old }
    ensures takes { TakesStep redelegations_step modules.old modules.new result }

    // Whatever the answer.
    ensures listener { listener_of modules.new ≡ listener_of modules.old }
{
    let now = modules.ground.ctx.time;
    modules.stakes.redelegations.complete(alloc, now, steps)
}
