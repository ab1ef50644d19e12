//! Messages about validators, and delegating.

ghost use Rattle.std.specs.Prelude.{◌≡◌, OnOk};
ghost use Rattle.rule_modules.specs.Effects.{create_validator, edit_validator, delegate, unjail};
ghost use Rattle.rule_machine.specs.Listening.{Hearing, creation_heard, delegation_heard};
ghost use Rattle.chain_modules.specs.Heard.{Hears, HearsAfter};
ghost use Rattle.chain_modules.specs.Kept.{StandsWhole, AreSteady, listener_of};
ghost use Rattle.chain_transactions.specs.Answers.{EndsWell};

use base_messages::{Delegate, Unjail};
use base_roles::{CreateValidator, EditValidator, Extra, MessageFault};
use base_types::Steps;
use chain_modules::Modules;
use std::alloc::Global;
use std::sync::ledger::Ledger;

/// A validator is created (`x/staking`: `msgServer.CreateValidator`).
pub(crate) fn create_validator<E: Extra, L: Ledger>(
    alloc: Global,
    modules: &mut Modules<E>,
    m: &CreateValidator,
    steps: &mut Steps<L>,
) -> Result<(), MessageFault>
    requires steady { AreSteady modules.old }
    ensures ends { EndsWell (create_validator m.now) modules.old modules.new result }
    ensures heard { (w : Hearing E.Heard) → Hears E.heard StandsWhole modules.old w → OnOk result
        (HearsAfter E.heard StandsWhole (creation_heard E.hears m.now w) modules.new) }

    // Whatever the answer.
    ensures listener { E.Records.marks (listener_of modules.new)
        ≡ E.Records.marks (listener_of modules.old) }
{
    modules
        .stakes
        .staking
        .create_validator(alloc, &mut modules.ground, &mut modules.hooks, m, steps)
}

/// A validator's rate or least self-delegation changes (`x/staking`: `msgServer.EditValidator`).
pub(crate) fn edit_validator<E: Extra, L: Ledger>(
    modules: &mut Modules<E>,
    m: &EditValidator,
    steps: &mut Steps<L>,
) -> Result<(), MessageFault>
    requires steady { AreSteady modules.old }
    ensures ends { EndsWell (edit_validator m.now) modules.old modules.new result }

    // Whatever the answer.
    ensures listener { listener_of modules.new ≡ listener_of modules.old }
{
    modules
        .stakes
        .staking
        .edit_validator(&mut modules.ground, m, steps)
}

/// A coin is delegated from the delegator's wallet (`x/staking`: `msgServer.Delegate`).
pub(crate) fn delegate<E: Extra, L: Ledger>(
    alloc: Global,
    modules: &mut Modules<E>,
    m: &Delegate,
    steps: &mut Steps<L>,
) -> Result<(), MessageFault>
    requires steady { AreSteady modules.old }
    ensures ends { EndsWell (delegate m.now.delegator m.now.validator m.now.amount)
        modules.old modules.new result }
    ensures heard { (w : Hearing E.Heard) → Hears E.heard StandsWhole modules.old w → OnOk result
        (HearsAfter E.heard StandsWhole (delegation_heard E.hears m.now.delegator
        m.now.validator m.now.amount w) modules.new) }

    // Whatever the answer.
    ensures listener { E.Records.marks (listener_of modules.new)
        ≡ E.Records.marks (listener_of modules.old) }
{
    let answer = modules.stakes.staking.delegate_coin(
        alloc,
        &mut modules.ground,
        &mut modules.hooks,
        &m.delegator,
        &m.validator,
        &m.amount,
        steps,
    );
    match answer {
        Ok(_) => Ok(()),
        Err(stop) => Err(stop),
    }
}

/// A validator leaves jail (`x/slashing`: `msgServer.Unjail`).
pub(crate) fn unjail<E: Extra, L: Ledger>(
    modules: &mut Modules<E>,
    m: &Unjail,
    steps: &mut Steps<L>,
) -> Result<(), MessageFault>
    requires steady { AreSteady modules.old }
    ensures ends { EndsWell (unjail m.now.validator) modules.old modules.new result }

    // Whatever the answer.
    ensures listener { listener_of modules.new ≡ listener_of modules.old }
{
    modules.hooks.second.unjail(
        &mut modules.ground,
        &mut modules.stakes.staking,
        &m.validator,
        steps,
    )
}
