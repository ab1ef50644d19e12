//! Leaving jail.

ghost use Rattle.std.specs.Prelude.{◌≡◌, ℕ, ◌+◌, ◌^◌, ◌<◌, ◌≤◌, OnOk};
ghost use Rattle.base_roles.specs.Ground.{seen, CanBeUndone};
ghost use Rattle.rule_modules.specs.Answers.{AnswersHeld};
ghost use Rattle.rule_modules.specs.Window.{may_leave, signing_of, unjailed};
ghost use Rattle.mod_staking.specs.Calls.{IsSoundStake};
ghost use Rattle.mod_staking.specs.Scenes.{RegisterGoesOn};
ghost use Rattle.mod_signing.specs.Stands.{AllVotes, KeepsSignings, IsKept};
ghost use Rattle.mod_signing.specs.Calls.{free_to_leave, over_by, OnRefusal};

use crate::window::Window;
use base_decimals::Dec;
use base_roles::{
    Bank, Ground, MessageFault, Refusal, SigningInfo, Unbonder, Validator, ValidatorView,
};
use base_shares::value_even;
use base_types::{Addr, ConsAddr, Moment, Steps};
use mod_staking::Staking;
use std::sync::ledger::Ledger;

impl Window {
    /// The message by which the validator of an operator leaves jail (`msgServer.Unjail`).
    ///
    /// It is refused as `NoValidator`, else as `NoSelfDelegation` where the operator has no delegation to it,
    /// else as `SelfBelowMinimum` where that is worth less than the least self-delegation, else as
    /// `NotJailed`, else as `Tombstoned`, else as `StillJailed` where the time in jail is not over. A refusal
    /// leaves everything as it was.
    pub fn unjail<B: Bank, L: Ledger>(
        &mut self,
        g: &mut Ground<B>,
        staking: &mut Staking,
        operator: &Addr,
        steps: &mut Steps<L>,
    ) -> Result<(), MessageFault>
        requires kept { IsKept g.old.ctx.params.signed_blocks_window self.old.kept }
        requires sound { IsSoundStake staking.old.staked }
        ensures told { (i : AllVotes)
            → KeepsSignings g.old.ctx.params.signed_blocks_window self.old.kept i
            → AnswersHeld (unjailed operator.now i staking.old.staked (seen B.holdings g.old))
            staking.new.staked (seen B.holdings g.new) result }
        ensures refused { OnRefusal result ((g.new ≡ g.old) × (staking.new ≡ staking.old)) }
        ensures same { self.new ≡ self.old }
        ensures sound { OnOk result (IsSoundStake staking.new.staked) }

        // Whatever the answer.
        ensures undone { CanBeUndone B.marks g.old g.new }
        ensures bank { B.most_steps g.new.bank ≡ B.most_steps g.old.bank }
        ensures register { RegisterGoesOn staking.old staking.new result }
    {
        let v = match staking.validator(operator, steps) {
            Some(v) => *v,
            None => return Err(MessageFault::Refused(Refusal::NoValidator)),
        };
        let held = match staking.shares_of(operator, operator, steps) {
            Some(held) => held,
            None => return Err(MessageFault::Refused(Refusal::NoSelfDelegation)),
        };
        is_free_to_leave(&v, held)?;
        self.may_leave(&v.cons, g.ctx.time, steps)?;
        staking.clear_jail(&mut g.facts, operator, steps)?;
        Ok(())
    }

    /// What refuses at a time to let a consensus address leave jail.
    fn may_leave<L: Ledger>(
        &self,
        cons: &ConsAddr,
        now: Moment,
        steps: &mut Steps<L>,
    ) -> Result<(), Refusal>
        ensures told { (window : ℕ) (i : AllVotes) → KeepsSignings window self.now.kept i
            → result ≡ may_leave now (signing_of i cons.now) }
        ensures cost { steps.new ≤ steps.old + 1 }
    {
        match self.tables.entry(cons, steps) {
            Some(entry) => is_over(&entry.info, now),
            None => Ok(()),
        }
    }
}

/// What refuses at a time to let a record with this info leave jail.
fn is_over(info: &SigningInfo, now: Moment) -> Result<(), Refusal>
    ensures { result ≡ over_by now info.now }
{
    if info.tombstoned {
        return Err(Refusal::Tombstoned);
    }
    let until = info.jailed_until;
    if now.nanos() < until.nanos() {
        return Err(Refusal::StillJailed(until));
    }
    Ok(())
}

/// What refuses of a validator and of the shares that its own operator holds.
fn is_free_to_leave(v: &Validator, held: Dec) -> Result<(), Refusal>
    requires tokens { v.now.tokens ≤ 10 ^ 18 }
    requires some { 0 < v.now.shares }
    requires part { held ≤ v.now.shares }
    ensures { result ≡ free_to_leave v.now held }
{
    if value_even(v.tokens, v.shares, held).trunc() < v.min_self {
        return Err(Refusal::SelfBelowMinimum);
    }
    if !v.jailed {
        return Err(Refusal::NotJailed);
    }
    Ok(())
}
