//! Coins that users send.

ghost use Rattle.std.specs.Prelude.{◌≡◌};
ghost use Rattle.rule_modules.specs.Effects.{send};
ghost use Rattle.chain_modules.specs.Kept.{AreSteady, listener_of};
ghost use Rattle.chain_transactions.specs.Answers.{EndsWell};

use base_messages::Send;
use base_roles::{Extra, MessageFault};
use base_types::Steps;
use chain_modules::Modules;
use std::alloc::Global;
use std::sync::ledger::Ledger;

/// Coins go from a user to an account (`x/bank`: `msgServer.Send`).
pub(crate) fn send<E: Extra, L: Ledger>(
    alloc: Global,
    modules: &mut Modules<E>,
    m: &Send,
    steps: &mut Steps<L>,
) -> Result<(), MessageFault>
    requires steady { AreSteady modules.old }
    ensures ends { EndsWell (send m.now.from m.now.to m.now.coins) modules.old modules.new result }

    // Whatever the answer.
    ensures listener { listener_of modules.new ≡ listener_of modules.old }
{
    // It tells that they are a list of coins.
    let _ = m.coins.len();
    let facts = &mut modules.ground.facts;
    modules
        .ground
        .bank
        .transfer(alloc, facts, &m.from, &m.to, &m.coins, steps)
}
