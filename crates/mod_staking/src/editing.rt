//! Editing a validator.

ghost use Rattle.std.specs.Prelude.{◌≡◌, ◌+◌, ◌<◌, ◌≤◌, OnOk};
ghost use Rattle.base_roles.specs.Ground.{seen};
ghost use Rattle.rule_modules.specs.Answers.{AnswersHeld};
ghost use Rattle.rule_modules.specs.Validators.{edit_formed, rate_edited, minimum_edited};
ghost use Rattle.mod_staking.specs.Calls.{IsSoundStake, edited_over};
ghost use Rattle.mod_staking.specs.Scenes.{RegisterGoesOn};

use crate::staking::Staking;
use base_decimals::Dec;
use base_roles::{Bank, EditValidator, Ground, MessageFault, Refusal, Validator};
use base_types::{Moment, Steps};
use std::sync::ledger::Ledger;

/// One, as a decimal's number of units.
const ONE: u128 = 1_000_000_000_000_000_000;

/// 24 hours, in nanoseconds.
const DAY: u128 = 86_400_000_000_000;

impl Staking {
    /// The message that changes a validator's rate or least self-delegation (`msgServer.EditValidator`).
    ///
    /// It is refused as `MinSelfNotPositive` where the least self-delegation is given as 0, else as
    /// `CommissionRange` where the rate is above one, else as `NoValidator`, else as `CommissionTooSoon`
    /// where less than 24 hours passed since the rate was changed, else as `CommissionAboveMax`, else as
    /// `CommissionStep`, else as `CommissionBelowMinimum`, else as `MinSelfNotRaised`, else as
    /// `SelfBelowMinimum` where the least self-delegation is above the tokens.
    pub fn edit_validator<B: Bank, L: Ledger>(
        &mut self,
        g: &mut Ground<B>,
        m: &EditValidator,
        steps: &mut Steps<L>,
    ) -> Result<(), MessageFault>
        requires sound { IsSoundStake self.old.staked }
        ensures told { AnswersHeld (edited_over m.now self.old.staked (seen B.holdings g.old))
            self.new.staked (seen B.holdings g.new) result }
        ensures ground { g.new ≡ g.old }
        ensures sound { OnOk result (IsSoundStake self.new.staked) }
        ensures register { RegisterGoesOn self.old self.new result }
        ensures cost { steps.new ≤ steps.old + 9 }
    {
        self.known();
        form_edit(m)?;
        let v = match self.at(&m.validator, steps) {
            Some(v) => *v,
            None => return Err(MessageFault::Refused(Refusal::NoValidator)),
        };
        let rated = edit_rate(&v, m.rate, g.ctx.time, g.ctx.params.min_commission_rate)?;
        let set = edit_minimum(&rated, m.min_self_delegation)?;
        self.put(&set, steps)?;
        Ok(())
    }
}

/// What is refused of an edit whatever stands.
fn form_edit(m: &EditValidator) -> Result<(), Refusal>
    ensures { result ≡ edit_formed m.now }
{
    if let Some(0) = m.min_self_delegation {
        return Err(Refusal::MinSelfNotPositive);
    }
    match m.rate {
        Some(rate) if rate.raw() > ONE => Err(Refusal::CommissionRange),
        _ => Ok(()),
    }
}

/// A validator with another rate, where one is given.
fn edit_rate(
    v: &Validator,
    rate: Option<Dec>,
    time: Moment,
    minimum: Dec,
) -> Result<Validator, Refusal>
    ensures { result ≡ rate_edited rate time minimum v.now }
{
    match rate {
        None => Ok(*v),
        Some(rate) => {
            if time.nanos().saturating_sub(v.commission.updated.nanos()) < DAY {
                return Err(Refusal::CommissionTooSoon);
            }
            if v.commission.max_rate.raw() < rate.raw() {
                return Err(Refusal::CommissionAboveMax);
            }
            if v.commission.rate.raw() + v.commission.max_change.raw() < rate.raw() {
                return Err(Refusal::CommissionStep);
            }
            if rate.raw() < minimum.raw() {
                return Err(Refusal::CommissionBelowMinimum);
            }
            let mut next = *v;
            next.commission.rate = rate;
            next.commission.updated = time;
            Ok(next)
        }
    }
}

/// A validator with another least self-delegation, where one is given.
fn edit_minimum(v: &Validator, minimum: Option<u128>) -> Result<Validator, Refusal>
    ensures { result ≡ minimum_edited minimum v.now }
{
    match minimum {
        None => Ok(*v),
        Some(least) => {
            if least <= v.min_self {
                return Err(Refusal::MinSelfNotRaised);
            }
            if v.tokens < least {
                return Err(Refusal::SelfBelowMinimum);
            }
            let mut next = *v;
            next.min_self = least;
            Ok(next)
        }
    }
}
