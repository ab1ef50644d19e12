//! The messages, each by its kind.

ghost use Rattle.std.specs.Prelude.{◌≡◌, OnOk};
ghost use Rattle.rule_modules.specs.Chain.{State};
ghost use Rattle.rule_machine.specs.Messages.{effect_of};
ghost use Rattle.rule_machine.specs.Listening.{Hearing, effect_heard};
ghost use Rattle.chain_modules.specs.Heard.{Hears, HearsAfter};
ghost use Rattle.chain_modules.specs.Kept.{StandsWhole, kept_of, AreSteady, listener_of};
ghost use Rattle.chain_modules.specs.Marks.{MessagesGoOn};
ghost use Rattle.chain_transactions.specs.Answers.{MessageEnds};

use crate::distributing::{
    community_pool_spend, fund_community_pool, set_withdraw_address, withdraw_commission,
    withdraw_reward,
};
use crate::moving::send;
use crate::staking::{create_validator, delegate, edit_validator, unjail};
use crate::unbonding::{begin_redelegate, cancel_unbonding, undelegate};
use crate::updating::update_params;
use base_messages::Msg;
use base_roles::{Extra, MessageFault};
use base_types::Steps;
use chain_modules::Modules;
use std::alloc::Global;
use std::sync::ledger::Ledger;

/// Carries out a message, or answers why it is refused (`MsgServiceRouter.Handler`). After a refusal some of it
/// may stand.
#[tactic(auto, using(chain_modules::proofs::MarkLemmas::at_moment))]
pub fn apply_message<E: Extra, L: Ledger>(
    alloc: Global,
    modules: &mut Modules<E>,
    message: &Msg,
    steps: &mut Steps<L>,
) -> Result<(), MessageFault>
    requires steady { AreSteady modules.old }
    ensures ends { (p : State) → StandsWhole (kept_of modules.old) p
        → MessageEnds (effect_of message.now p) (kept_of modules.new) result }
    ensures heard { (w : Hearing E.Heard) → Hears E.heard StandsWhole modules.old w → OnOk result
        (HearsAfter E.heard StandsWhole (effect_heard E.hears message.now w) modules.new) }
    ensures steady { OnOk result (AreSteady modules.new) }

    // Whatever the answer.
    ensures go_on { MessagesGoOn modules.old modules.new }
    ensures listener { E.Records.marks (listener_of modules.new)
        ≡ E.Records.marks (listener_of modules.old) }
{
    match message {
        Msg::Send(m) => send(alloc, modules, m, steps),
        Msg::CreateValidator(m) => create_validator(alloc, modules, m, steps),
        Msg::EditValidator(m) => edit_validator(modules, m, steps),
        Msg::Delegate(m) => delegate(alloc, modules, m, steps),
        Msg::Undelegate(m) => undelegate(alloc, modules, m, steps),
        Msg::BeginRedelegate(m) => begin_redelegate(alloc, modules, m, steps),
        Msg::CancelUnbonding(m) => cancel_unbonding(alloc, modules, m, steps),
        Msg::Unjail(m) => unjail(modules, m, steps),
        Msg::WithdrawReward(m) => withdraw_reward(alloc, modules, m, steps),
        Msg::WithdrawCommission(m) => withdraw_commission(alloc, modules, m, steps),
        Msg::SetWithdrawAddress(m) => set_withdraw_address(modules, m, steps),
        Msg::FundCommunityPool(m) => fund_community_pool(alloc, modules, m, steps),
        Msg::CommunityPoolSpend(m) => community_pool_spend(alloc, modules, m, steps),
        Msg::UpdateParams(m) => update_params(modules, m, steps),
    }
}
