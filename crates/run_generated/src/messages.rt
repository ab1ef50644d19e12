//! The messages of an input's lines. Members stand in ascending order of their names.

ghost use Rattle.base_messages.specs.declared.message.Msg.TheVariants as msg;
ghost use Rattle.run_generated.specs.Lines.{message_data};

use crate::params::push_params;
use crate::spelling::{Spelled, push_members, push_object, push_with_amount};
use base_bech32::Form;
use base_messages::{
    BeginRedelegate, CancelUnbonding, CommunityPoolSpend, CreateValidator, Delegate, EditValidator,
    FundCommunityPool, LineFault, Msg, Send, SetWithdrawAddress, Undelegate, Unjail, UpdateParams,
    WithdrawCommission, WithdrawReward,
};
use json::Writer;
use line_json::Told;
use std::alloc::Global;

impl Spelled for Send {
    ghost spelled = { λ form message. message_data form (msg.Send message) };

    fn spell(&self, form: Form, alloc: Global, writer: &mut Writer) -> Result<(), LineFault> {
        let members = [
            ("coins", Told::Coins(&self.coins)),
            ("from", Told::User(form, &self.from)),
            ("kind", Told::Word("send")),
            ("to", Told::Account(form, &self.to)),
        ];
        push_object(alloc, writer, &members)
    }
}

impl Spelled for CreateValidator {
    ghost spelled = { λ form message. message_data form (msg.CreateValidator message) };

    fn spell(&self, form: Form, alloc: Global, writer: &mut Writer) -> Result<(), LineFault> {
        let members = [
            ("cons", Told::Cons(form, &self.cons)),
            ("kind", Told::Word("create_validator")),
            ("max_change_rate", Told::Decimal(self.max_change_rate)),
            ("max_rate", Told::Decimal(self.max_rate)),
            (
                "min_self_delegation",
                Told::Amount(self.min_self_delegation),
            ),
            ("rate", Told::Decimal(self.rate)),
            ("validator", Told::Operator(form, &self.validator)),
        ];
        push_with_amount(alloc, writer, &self.amount, &members)
    }
}

impl Spelled for EditValidator {
    ghost spelled = { λ form message. message_data form (msg.EditValidator message) };

    fn spell(&self, form: Form, alloc: Global, writer: &mut Writer) -> Result<(), LineFault> {
        let kind = ("kind", Told::Word("edit_validator"));
        let validator = ("validator", Told::Operator(form, &self.validator));
        match (self.min_self_delegation, self.rate) {
            (None, None) => push_object(alloc, writer, &[kind, validator]),
            (Some(least), None) => push_object(
                alloc,
                writer,
                &[
                    kind,
                    ("min_self_delegation", Told::Amount(least)),
                    validator,
                ],
            ),
            (None, Some(rate)) => push_object(
                alloc,
                writer,
                &[kind, ("rate", Told::Decimal(rate)), validator],
            ),
            (Some(least), Some(rate)) => push_object(
                alloc,
                writer,
                &[
                    kind,
                    ("min_self_delegation", Told::Amount(least)),
                    ("rate", Told::Decimal(rate)),
                    validator,
                ],
            ),
        }
    }
}

impl Spelled for Delegate {
    ghost spelled = { λ form message. message_data form (msg.Delegate message) };

    fn spell(&self, form: Form, alloc: Global, writer: &mut Writer) -> Result<(), LineFault> {
        let members = [
            ("delegator", Told::User(form, &self.delegator)),
            ("kind", Told::Word("delegate")),
            ("validator", Told::Operator(form, &self.validator)),
        ];
        push_with_amount(alloc, writer, &self.amount, &members)
    }
}

impl Spelled for Undelegate {
    ghost spelled = { λ form message. message_data form (msg.Undelegate message) };

    fn spell(&self, form: Form, alloc: Global, writer: &mut Writer) -> Result<(), LineFault> {
        let members = [
            ("delegator", Told::User(form, &self.delegator)),
            ("kind", Told::Word("undelegate")),
            ("validator", Told::Operator(form, &self.validator)),
        ];
        push_with_amount(alloc, writer, &self.amount, &members)
    }
}

impl Spelled for BeginRedelegate {
    ghost spelled = { λ form message. message_data form (msg.BeginRedelegate message) };

    fn spell(&self, form: Form, alloc: Global, writer: &mut Writer) -> Result<(), LineFault> {
        let members = [
            ("delegator", Told::User(form, &self.delegator)),
            ("kind", Told::Word("begin_redelegate")),
            ("source", Told::Operator(form, &self.source)),
            ("target", Told::Operator(form, &self.target)),
        ];
        push_with_amount(alloc, writer, &self.amount, &members)
    }
}

impl Spelled for CancelUnbonding {
    ghost spelled = { λ form message. message_data form (msg.CancelUnbonding message) };

    fn spell(&self, form: Form, alloc: Global, writer: &mut Writer) -> Result<(), LineFault> {
        let members = [
            ("creation_height", Told::Count(self.creation_height)),
            ("delegator", Told::User(form, &self.delegator)),
            ("kind", Told::Word("cancel_unbonding")),
            ("validator", Told::Operator(form, &self.validator)),
        ];
        push_with_amount(alloc, writer, &self.amount, &members)
    }
}

impl Spelled for Unjail {
    ghost spelled = { λ form message. message_data form (msg.Unjail message) };

    fn spell(&self, form: Form, alloc: Global, writer: &mut Writer) -> Result<(), LineFault> {
        let members = [
            ("kind", Told::Word("unjail")),
            ("validator", Told::Operator(form, &self.validator)),
        ];
        push_object(alloc, writer, &members)
    }
}

impl Spelled for WithdrawReward {
    ghost spelled = { λ form message. message_data form (msg.WithdrawReward message) };

    fn spell(&self, form: Form, alloc: Global, writer: &mut Writer) -> Result<(), LineFault> {
        let members = [
            ("delegator", Told::User(form, &self.delegator)),
            ("kind", Told::Word("withdraw_reward")),
            ("validator", Told::Operator(form, &self.validator)),
        ];
        push_object(alloc, writer, &members)
    }
}

impl Spelled for WithdrawCommission {
    ghost spelled = { λ form message. message_data form (msg.WithdrawCommission message) };

    fn spell(&self, form: Form, alloc: Global, writer: &mut Writer) -> Result<(), LineFault> {
        let members = [
            ("kind", Told::Word("withdraw_commission")),
            ("validator", Told::Operator(form, &self.validator)),
        ];
        push_object(alloc, writer, &members)
    }
}

impl Spelled for SetWithdrawAddress {
    ghost spelled = { λ form message. message_data form (msg.SetWithdrawAddress message) };

    fn spell(&self, form: Form, alloc: Global, writer: &mut Writer) -> Result<(), LineFault> {
        let members = [
            ("delegator", Told::User(form, &self.delegator)),
            ("kind", Told::Word("set_withdraw_address")),
            ("withdraw", Told::Account(form, &self.withdraw)),
        ];
        push_object(alloc, writer, &members)
    }
}

impl Spelled for FundCommunityPool {
    ghost spelled = { λ form message. message_data form (msg.FundCommunityPool message) };

    fn spell(&self, form: Form, alloc: Global, writer: &mut Writer) -> Result<(), LineFault> {
        let members = [
            ("coins", Told::Coins(&self.coins)),
            ("depositor", Told::User(form, &self.depositor)),
            ("kind", Told::Word("fund_community_pool")),
        ];
        push_object(alloc, writer, &members)
    }
}

impl Spelled for CommunityPoolSpend {
    ghost spelled = { λ form message. message_data form (msg.CommunityPoolSpend message) };

    fn spell(&self, form: Form, alloc: Global, writer: &mut Writer) -> Result<(), LineFault> {
        let members = [
            ("authority", Told::User(form, &self.authority)),
            ("coins", Told::Coins(&self.coins)),
            ("kind", Told::Word("community_pool_spend")),
            ("recipient", Told::Account(form, &self.recipient)),
        ];
        push_object(alloc, writer, &members)
    }
}

impl Spelled for UpdateParams {
    ghost spelled = { λ form message. message_data form (msg.UpdateParams message) };

    fn spell(&self, form: Form, alloc: Global, writer: &mut Writer) -> Result<(), LineFault> {
        let members = [
            ("authority", Told::User(form, &self.authority)),
            ("kind", Told::Word("update_params")),
        ];
        writer.begin_object()?;
        push_members(alloc, writer, &members)?;
        writer.key("params")?;
        push_params(form, alloc, writer, &self.params)?;
        writer.end_object()?;
        Ok(())
    }
}

impl Spelled for Msg {
    ghost spelled = { message_data };

    fn spell(&self, form: Form, alloc: Global, writer: &mut Writer) -> Result<(), LineFault> {
        match self {
            Msg::Send(message) => message.spell(form, alloc, writer),
            Msg::CreateValidator(message) => message.spell(form, alloc, writer),
            Msg::EditValidator(message) => message.spell(form, alloc, writer),
            Msg::Delegate(message) => message.spell(form, alloc, writer),
            Msg::Undelegate(message) => message.spell(form, alloc, writer),
            Msg::BeginRedelegate(message) => message.spell(form, alloc, writer),
            Msg::CancelUnbonding(message) => message.spell(form, alloc, writer),
            Msg::Unjail(message) => message.spell(form, alloc, writer),
            Msg::WithdrawReward(message) => message.spell(form, alloc, writer),
            Msg::WithdrawCommission(message) => message.spell(form, alloc, writer),
            Msg::SetWithdrawAddress(message) => message.spell(form, alloc, writer),
            Msg::FundCommunityPool(message) => message.spell(form, alloc, writer),
            Msg::CommunityPoolSpend(message) => message.spell(form, alloc, writer),
            Msg::UpdateParams(message) => message.spell(form, alloc, writer),
        }
    }
}
