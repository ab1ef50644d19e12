//! Messages that make entries, and one that takes from them.

ghost use Rattle.std.specs.Prelude.{◌≡◌, OnOk};
ghost use Rattle.rule_modules.specs.Effects.{undelegate, begin_redelegate, cancel_unbonding};
ghost use Rattle.rule_machine.specs.Listening.{Hearing, undelegation_heard, redelegation_heard, cancellation_heard};
ghost use Rattle.chain_modules.specs.Heard.{Hears, HearsAfter};
ghost use Rattle.chain_modules.specs.Kept.{StandsWhole, AreSteady, listener_of};
ghost use Rattle.chain_transactions.specs.Answers.{EndsWell};

use base_messages::{BeginRedelegate, CancelUnbonding, Undelegate};
use base_roles::{Extra, MessageFault};
use base_types::Steps;
use chain_modules::Modules;
use std::alloc::Global;
use std::sync::ledger::Ledger;

/// A coin is taken out of a delegation (`x/staking`: `msgServer.Undelegate`).
pub(crate) fn undelegate<E: Extra, L: Ledger>(
    alloc: Global,
    modules: &mut Modules<E>,
    m: &Undelegate,
    steps: &mut Steps<L>,
) -> Result<(), MessageFault>
    requires steady { AreSteady modules.old }
    ensures ends { EndsWell (undelegate m.now.delegator m.now.validator m.now.amount)
        modules.old modules.new result }
    ensures heard { (w : Hearing E.Heard) → Hears E.heard StandsWhole modules.old w → OnOk result
        (HearsAfter E.heard StandsWhole (undelegation_heard E.hears m.now.delegator
        m.now.validator m.now.amount w) modules.new) }

    // Whatever the answer.
    ensures listener { E.Records.marks (listener_of modules.new)
        ≡ E.Records.marks (listener_of modules.old) }
{
    let answer = modules.stakes.unbondings.undelegate(
        alloc,
        &mut modules.ground,
        &mut modules.hooks,
        &mut modules.stakes.staking,
        &m.delegator,
        &m.validator,
        &m.amount,
        steps,
    );
    match answer {
        Ok(_) => Ok(()),
        Err(stop) => Err(stop),
    }
}

/// A coin of a delegation moves to another validator (`x/staking`: `msgServer.BeginRedelegate`).
pub(crate) fn begin_redelegate<E: Extra, L: Ledger>(
    alloc: Global,
    modules: &mut Modules<E>,
    m: &BeginRedelegate,
    steps: &mut Steps<L>,
) -> Result<(), MessageFault>
    requires steady { AreSteady modules.old }
    ensures ends { EndsWell (begin_redelegate m.now.delegator m.now.source m.now.target
        m.now.amount) modules.old modules.new result }
    ensures heard { (w : Hearing E.Heard) → Hears E.heard StandsWhole modules.old w → OnOk result
        (HearsAfter E.heard StandsWhole (redelegation_heard E.hears m.now.delegator
        m.now.source m.now.target m.now.amount w) modules.new) }

    // Whatever the answer.
    ensures listener { E.Records.marks (listener_of modules.new)
        ≡ E.Records.marks (listener_of modules.old) }
{
    modules.stakes.redelegations.begin(
        alloc,
        &mut modules.ground,
        &mut modules.hooks,
        &mut modules.stakes.staking,
        &m.delegator,
        &m.source,
        &m.target,
        &m.amount,
        steps,
    )
}

/// A coin that is being undelegated is delegated again (`x/staking`: `msgServer.CancelUnbondingDelegation`).
pub(crate) fn cancel_unbonding<E: Extra, L: Ledger>(
    alloc: Global,
    modules: &mut Modules<E>,
    m: &CancelUnbonding,
    steps: &mut Steps<L>,
) -> Result<(), MessageFault>
    requires steady { AreSteady modules.old }
    ensures ends { EndsWell (cancel_unbonding m.now.delegator m.now.validator m.now.amount
        m.now.creation_height) modules.old modules.new result }
    ensures heard { (w : Hearing E.Heard) → Hears E.heard StandsWhole modules.old w → OnOk result
        (HearsAfter E.heard StandsWhole (cancellation_heard E.hears m.now.delegator
        m.now.validator m.now.amount m.now.creation_height w) modules.new) }

    // Whatever the answer.
    ensures listener { E.Records.marks (listener_of modules.new)
        ≡ E.Records.marks (listener_of modules.old) }
{
    modules.stakes.unbondings.cancel(
        alloc,
        &mut modules.ground,
        &mut modules.hooks,
        &mut modules.stakes.staking,
        &m.delegator,
        &m.validator,
        &m.amount,
        m.creation_height,
        steps,
    )
}
