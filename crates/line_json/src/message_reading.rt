//! The messages of a transaction.
ghost use Rattle.std.specs.Prelude.{◌≡◌};
ghost use Rattle.line_json.specs.Reading.{Gives};
ghost use Rattle.line_json.specs.Messages.{amount_named, delegator_named, message_of_kind, validator_named};

use crate::coin_reading::{coin_at, coins_at};
use crate::kind::Kind;
use crate::members::{
    account_at, cons_at, member_at, only_named, operator_at, optional_at, user_at,
};
use crate::nested::{FromTree, object_at};
use crate::tree::Tree;
use base_bech32::Form;
use base_coins::Coin;
use base_messages::{
    BeginRedelegate, CancelUnbonding, CommunityPoolSpend, Delegate, FundCommunityPool, LineFault,
    Msg, Send, SetWithdrawAddress, Undelegate, Unjail, UpdateParams, WithdrawCommission,
    WithdrawReward,
};
use base_roles::{CreateValidator, EditValidator};
use base_types::Addr;
use std::alloc::Global;

/// The operator whom a message names.
fn validator_named<N: Tree>(form: Form, tree: &N) -> Result<Addr, LineFault>
    ensures { result ≡ validator_named form (N.seen tree.now) }
{
    operator_at(form, 94, "validator", tree)
}

/// The delegator whom a message names.
fn delegator_named<N: Tree>(form: Form, tree: &N) -> Result<Addr, LineFault>
    ensures { result ≡ delegator_named form (N.seen tree.now) }
{
    user_at(form, 95, "delegator", tree)
}

/// The coin that a message names.
fn amount_named<N: Tree>(alloc: Global, tree: &N) -> Result<Coin, LineFault>
    ensures { Gives (λ coin. coin) result (amount_named (N.seen tree.now)) }
{
    coin_at(alloc, 96, "amount", tree)
}

impl FromTree for Send {
    ghost use Rattle.line_json.specs.Messages.{send_of};

    ghost reading = { send_of };

    #[tactic(auto, unfolding(crate::specs::Messages::send_of))]
    fn from_tree<N: Tree>(form: Form, alloc: Global, tree: &N) -> Result<Send, LineFault> {
        let from = user_at(form, 91, "from", tree)?;
        let to = account_at(form, 92, "to", tree)?;
        let coins = coins_at(alloc, 93, "coins", tree)?;
        only_named(&["kind", "from", "to", "coins"], tree)?;
        Ok(Send { from, to, coins })
    }
}

impl FromTree for CreateValidator {
    ghost use Rattle.line_json.specs.Messages.{create_validator_of};

    ghost reading = { create_validator_of };

    #[tactic(auto, unfolding(crate::specs::Messages::create_validator_of))]
    fn from_tree<N: Tree>(
        form: Form,
        alloc: Global,
        tree: &N,
    ) -> Result<CreateValidator, LineFault> {
        let validator = validator_named(form, tree)?;
        let cons = cons_at(form, 100, "cons", tree)?;
        let rate = member_at(101, "rate", tree)?;
        let max_rate = member_at(102, "max_rate", tree)?;
        let max_change_rate = member_at(103, "max_change_rate", tree)?;
        let min_self_delegation = member_at(104, "min_self_delegation", tree)?;
        let amount = amount_named(alloc, tree)?;
        only_named(
            &[
                "kind",
                "validator",
                "cons",
                "rate",
                "max_rate",
                "max_change_rate",
                "min_self_delegation",
                "amount",
            ],
            tree,
        )?;
        Ok(CreateValidator {
            validator,
            cons,
            rate,
            max_rate,
            max_change_rate,
            min_self_delegation,
            amount,
        })
    }
}

impl FromTree for EditValidator {
    ghost use Rattle.line_json.specs.Messages.{edit_validator_of};

    ghost reading = { edit_validator_of };

    #[tactic(auto, unfolding(crate::specs::Messages::edit_validator_of))]
    fn from_tree<N: Tree>(
        form: Form,
        _alloc: Global,
        tree: &N,
    ) -> Result<EditValidator, LineFault> {
        let validator = validator_named(form, tree)?;
        let rate = optional_at(101, "rate", tree)?;
        let min_self_delegation = optional_at(104, "min_self_delegation", tree)?;
        only_named(&["kind", "validator", "rate", "min_self_delegation"], tree)?;
        Ok(EditValidator {
            validator,
            rate,
            min_self_delegation,
        })
    }
}

impl FromTree for Delegate {
    ghost use Rattle.line_json.specs.Messages.{delegate_of};

    ghost reading = { delegate_of };

    #[tactic(auto, unfolding(crate::specs::Messages::delegate_of))]
    fn from_tree<N: Tree>(form: Form, alloc: Global, tree: &N) -> Result<Delegate, LineFault> {
        let delegator = delegator_named(form, tree)?;
        let validator = validator_named(form, tree)?;
        let amount = amount_named(alloc, tree)?;
        only_named(&["kind", "delegator", "validator", "amount"], tree)?;
        Ok(Delegate {
            delegator,
            validator,
            amount,
        })
    }
}

impl FromTree for Undelegate {
    ghost use Rattle.line_json.specs.Messages.{undelegate_of};

    ghost reading = { undelegate_of };

    #[tactic(auto, unfolding(crate::specs::Messages::undelegate_of))]
    fn from_tree<N: Tree>(form: Form, alloc: Global, tree: &N) -> Result<Undelegate, LineFault> {
        let delegator = delegator_named(form, tree)?;
        let validator = validator_named(form, tree)?;
        let amount = amount_named(alloc, tree)?;
        only_named(&["kind", "delegator", "validator", "amount"], tree)?;
        Ok(Undelegate {
            delegator,
            validator,
            amount,
        })
    }
}

impl FromTree for BeginRedelegate {
    ghost use Rattle.line_json.specs.Messages.{begin_redelegate_of};

    ghost reading = { begin_redelegate_of };

    #[tactic(auto, unfolding(crate::specs::Messages::begin_redelegate_of))]
    fn from_tree<N: Tree>(
        form: Form,
        alloc: Global,
        tree: &N,
    ) -> Result<BeginRedelegate, LineFault> {
        let delegator = delegator_named(form, tree)?;
        let source = operator_at(form, 97, "source", tree)?;
        let target = operator_at(form, 98, "target", tree)?;
        let amount = amount_named(alloc, tree)?;
        only_named(&["kind", "delegator", "source", "target", "amount"], tree)?;
        Ok(BeginRedelegate {
            delegator,
            source,
            target,
            amount,
        })
    }
}

impl FromTree for CancelUnbonding {
    ghost use Rattle.line_json.specs.Messages.{cancel_unbonding_of};

    ghost reading = { cancel_unbonding_of };

    #[tactic(auto, unfolding(crate::specs::Messages::cancel_unbonding_of))]
    fn from_tree<N: Tree>(
        form: Form,
        alloc: Global,
        tree: &N,
    ) -> Result<CancelUnbonding, LineFault> {
        let delegator = delegator_named(form, tree)?;
        let validator = validator_named(form, tree)?;
        let amount = amount_named(alloc, tree)?;
        let creation_height = member_at(99, "creation_height", tree)?;
        only_named(
            &[
                "kind",
                "delegator",
                "validator",
                "amount",
                "creation_height",
            ],
            tree,
        )?;
        Ok(CancelUnbonding {
            delegator,
            validator,
            amount,
            creation_height,
        })
    }
}

impl FromTree for Unjail {
    ghost use Rattle.line_json.specs.Messages.{unjail_of};

    ghost reading = { unjail_of };

    #[tactic(auto, unfolding(crate::specs::Messages::unjail_of))]
    fn from_tree<N: Tree>(form: Form, _alloc: Global, tree: &N) -> Result<Unjail, LineFault> {
        let validator = validator_named(form, tree)?;
        only_named(&["kind", "validator"], tree)?;
        Ok(Unjail { validator })
    }
}

impl FromTree for WithdrawReward {
    ghost use Rattle.line_json.specs.Messages.{withdraw_reward_of};

    ghost reading = { withdraw_reward_of };

    #[tactic(auto, unfolding(crate::specs::Messages::withdraw_reward_of))]
    fn from_tree<N: Tree>(
        form: Form,
        _alloc: Global,
        tree: &N,
    ) -> Result<WithdrawReward, LineFault> {
        let delegator = delegator_named(form, tree)?;
        let validator = validator_named(form, tree)?;
        only_named(&["kind", "delegator", "validator"], tree)?;
        Ok(WithdrawReward {
            delegator,
            validator,
        })
    }
}

impl FromTree for WithdrawCommission {
    ghost use Rattle.line_json.specs.Messages.{withdraw_commission_of};

    ghost reading = { withdraw_commission_of };

    #[tactic(auto, unfolding(crate::specs::Messages::withdraw_commission_of))]
    fn from_tree<N: Tree>(
        form: Form,
        _alloc: Global,
        tree: &N,
    ) -> Result<WithdrawCommission, LineFault> {
        let validator = validator_named(form, tree)?;
        only_named(&["kind", "validator"], tree)?;
        Ok(WithdrawCommission { validator })
    }
}

impl FromTree for SetWithdrawAddress {
    ghost use Rattle.line_json.specs.Messages.{set_withdraw_address_of};

    ghost reading = { set_withdraw_address_of };

    #[tactic(auto, unfolding(crate::specs::Messages::set_withdraw_address_of))]
    fn from_tree<N: Tree>(
        form: Form,
        _alloc: Global,
        tree: &N,
    ) -> Result<SetWithdrawAddress, LineFault> {
        let delegator = delegator_named(form, tree)?;
        let withdraw = account_at(form, 105, "withdraw", tree)?;
        only_named(&["kind", "delegator", "withdraw"], tree)?;
        Ok(SetWithdrawAddress {
            delegator,
            withdraw,
        })
    }
}

impl FromTree for FundCommunityPool {
    ghost use Rattle.line_json.specs.Messages.{fund_community_pool_of};

    ghost reading = { fund_community_pool_of };

    #[tactic(auto, unfolding(crate::specs::Messages::fund_community_pool_of))]
    fn from_tree<N: Tree>(
        form: Form,
        alloc: Global,
        tree: &N,
    ) -> Result<FundCommunityPool, LineFault> {
        let depositor = user_at(form, 106, "depositor", tree)?;
        let coins = coins_at(alloc, 93, "coins", tree)?;
        only_named(&["kind", "depositor", "coins"], tree)?;
        Ok(FundCommunityPool { depositor, coins })
    }
}

impl FromTree for CommunityPoolSpend {
    ghost use Rattle.line_json.specs.Messages.{community_pool_spend_of};

    ghost reading = { community_pool_spend_of };

    #[tactic(auto, unfolding(crate::specs::Messages::community_pool_spend_of))]
    fn from_tree<N: Tree>(
        form: Form,
        alloc: Global,
        tree: &N,
    ) -> Result<CommunityPoolSpend, LineFault> {
        let authority = user_at(form, 107, "authority", tree)?;
        let recipient = account_at(form, 108, "recipient", tree)?;
        let coins = coins_at(alloc, 93, "coins", tree)?;
        only_named(&["kind", "authority", "recipient", "coins"], tree)?;
        Ok(CommunityPoolSpend {
            authority,
            recipient,
            coins,
        })
    }
}

impl FromTree for UpdateParams {
    ghost use Rattle.line_json.specs.Messages.{update_params_of};

    ghost reading = { update_params_of };

    #[tactic(auto, unfolding(crate::specs::Messages::update_params_of))]
    fn from_tree<N: Tree>(form: Form, alloc: Global, tree: &N) -> Result<UpdateParams, LineFault> {
        let authority = user_at(form, 107, "authority", tree)?;
        let params = object_at(form, alloc, 109, "params", tree)?;
        only_named(&["kind", "authority", "params"], tree)?;
        Ok(UpdateParams { authority, params })
    }
}

/// A message of this kind.
fn message_of_kind<N: Tree>(
    form: Form,
    alloc: Global,
    kind: Kind,
    tree: &N,
) -> Result<Msg, LineFault>
    ensures { Gives (λ message. message) result (message_of_kind form kind (N.seen tree.now)) }
{
    match kind {
        Kind::Send => Ok(Msg::Send(Send::from_tree(form, alloc, tree)?)),
        Kind::CreateValidator => Ok(Msg::CreateValidator(CreateValidator::from_tree(
            form, alloc, tree,
        )?)),
        Kind::EditValidator => Ok(Msg::EditValidator(EditValidator::from_tree(form, alloc, tree)?)),
        Kind::Delegate => Ok(Msg::Delegate(Delegate::from_tree(form, alloc, tree)?)),
        Kind::Undelegate => Ok(Msg::Undelegate(Undelegate::from_tree(form, alloc, tree)?)),
        Kind::BeginRedelegate => Ok(Msg::BeginRedelegate(BeginRedelegate::from_tree(
            form, alloc, tree,
        )?)),
        Kind::CancelUnbonding => Ok(Msg::CancelUnbonding(CancelUnbonding::from_tree(
            form, alloc, tree,
        )?)),
        Kind::Unjail => Ok(Msg::Unjail(Unjail::from_tree(form, alloc, tree)?)),
        Kind::WithdrawReward => Ok(Msg::WithdrawReward(WithdrawReward::from_tree(
            form, alloc, tree,
        )?)),
        Kind::WithdrawCommission => Ok(Msg::WithdrawCommission(WithdrawCommission::from_tree(
            form, alloc, tree,
        )?)),
        Kind::SetWithdrawAddress => Ok(Msg::SetWithdrawAddress(SetWithdrawAddress::from_tree(
            form, alloc, tree,
        )?)),
        Kind::FundCommunityPool => Ok(Msg::FundCommunityPool(FundCommunityPool::from_tree(
            form, alloc, tree,
        )?)),
        Kind::CommunityPoolSpend => Ok(Msg::CommunityPoolSpend(CommunityPoolSpend::from_tree(
            form, alloc, tree,
        )?)),
        Kind::UpdateParams => Ok(Msg::UpdateParams(UpdateParams::from_tree(form, alloc, tree)?)),
    }
}

impl FromTree for Msg {
    ghost use Rattle.line_json.specs.Messages.{message_of};

    ghost reading = { message_of };

    #[tactic(auto, unfolding(crate::specs::Messages::message_of))]
    fn from_tree<N: Tree>(form: Form, alloc: Global, tree: &N) -> Result<Msg, LineFault> {
        let kind = member_at(90, "kind", tree)?;
        message_of_kind(form, alloc, kind, tree)
    }
}
