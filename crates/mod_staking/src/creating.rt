//! Creating a validator.

ghost use Rattle.std.specs.Prelude.{◌≡◌, not, OnOk};
ghost use Rattle.std.specs.BTreeMap.{is_at};
ghost use Rattle.base_types.specs.Orders.{denom_cmp};
ghost use Rattle.base_roles.specs.Answers.{AnswersAs};
ghost use Rattle.base_roles.specs.Ground.{seen};
ghost use Rattle.rule_modules.specs.Validators.{are_out_of_range, created, new_validator};
ghost use Rattle.mod_staking.specs.Calls.{over, create_formed};
ghost use Rattle.mod_staking.specs.Scenes.{IsScene, GoesOn};

use crate::origin::Origin;
use crate::staking::Staking;
use base_decimals::Dec;
use base_roles::{
    Bank, Commission, CreateValidator, Ground, MessageFault, Refusal, StakingHooks, Validator,
};
use base_types::{BondStatus, Denom, Moment, Steps};
use std::alloc::Global;
use std::cmp::Ordering;
use std::sync::ledger::Ledger;

/// One, as a decimal's number of units.
const ONE: u128 = 1_000_000_000_000_000_000;

impl Staking {
    /// The message that creates a validator (`msgServer.CreateValidator`): it stands unbonded and without
    /// tokens, its first hook is called, and then its operator delegates to it from the wallet.
    ///
    /// It is refused as `NonPositive` where the amount is 0, else as `CommissionRange` where the greatest
    /// rate is above one, or a rate or step above it, else as `MinSelfNotPositive`, else as
    /// `SelfBelowMinimum` where the amount is below the least self-delegation, else as
    /// `CommissionBelowMinimum`, else as `ValidatorExists`, else as `ConsKeyExists`, else as `WrongDenom`;
    /// then for the causes of [`Staking::delegate`].
    pub fn create_validator<B: Bank, H: StakingHooks, L: Ledger>(
        &mut self,
        alloc: Global,
        g: &mut Ground<B>,
        hooks: &mut H,
        m: &CreateValidator,
        steps: &mut Steps<L>,
    ) -> Result<(), MessageFault>
        requires scene { IsScene H.tells (H.holds hooks.old)
            (seen B.holdings g.old) self.old.staked }

        ensures told { (h : H.Held) → H.holds hooks.old h
            → AnswersAs (created H.tells.told m.now
            (over self.old.staked h (seen B.holdings g.old)))
            self.new.staked (H.holds hooks.new) (seen B.holdings g.new) result }
        ensures scene { OnOk result (IsScene H.tells (H.holds hooks.new)
            (seen B.holdings g.new) self.new.staked) }

        // Whatever the answer.
        ensures goes_on { GoesOn B.marks B.most_steps H.marks
            g.old g.new hooks.old hooks.new self.old self.new result }
    {
        self.known();
        form_create(m, g.ctx.params.min_commission_rate)?;
        match self.at(&m.validator, steps) {
            Some(_) => return Err(MessageFault::Refused(Refusal::ValidatorExists)),
            None => (),
        }
        match self.at_cons(&m.cons, steps) {
            Some(_) => return Err(MessageFault::Refused(Refusal::ConsKeyExists)),
            None => (),
        }
        if is_other(&g.ctx.params.bond_denom, &m.amount.denom) {
            return Err(MessageFault::Refused(Refusal::WrongDenom));
        }
        let v = new_validator(m, g.ctx.time);
        self.add(&v, steps)?;
        hooks.after_validator_created(alloc, g, &v, steps)?;
        let delegated = self.delegate_to(
            alloc,
            g,
            hooks,
            &v,
            &m.validator,
            m.amount.amount,
            Origin::Wallet,
            steps,
        );
        match delegated {
            Ok(_) => Ok(()),
            Err(stop) => Err(stop),
        }
    }
}

/// Whether two denominations are not one.
pub(crate) fn is_other(denom: &Denom, other: &Denom) -> bool
    ensures { result ≡ not (is_at (denom_cmp denom.now) other.now) }
{
    denom.cmp(other) != Ordering::Equal
}

/// What is refused of a new validator whatever stands.
fn form_create(m: &CreateValidator, minimum: Dec) -> Result<(), Refusal>
    ensures { result ≡ create_formed m.now minimum }
{
    if m.amount.amount == 0 {
        return Err(Refusal::NonPositive);
    }
    if are_out_of_range(m) {
        return Err(Refusal::CommissionRange);
    }
    if m.min_self_delegation == 0 {
        return Err(Refusal::MinSelfNotPositive);
    }
    if m.amount.amount < m.min_self_delegation {
        return Err(Refusal::SelfBelowMinimum);
    }
    if m.rate.raw() < minimum.raw() {
        return Err(Refusal::CommissionBelowMinimum);
    }
    Ok(())
}

/// Whether the rates are no rates: more than one, or above the highest (`CommissionRates.Validate`).
fn are_out_of_range(m: &CreateValidator) -> bool
    ensures { result ≡ are_out_of_range m.now }
{
    m.max_rate.raw() > ONE
        || m.max_rate.raw() < m.rate.raw()
        || m.max_rate.raw() < m.max_change_rate.raw()
}

/// A new validator, whose commission counts as changed now (`NewValidator`, `NewCommissionWithTime`).
pub(crate) fn new_validator(m: &CreateValidator, time: Moment) -> Validator
    ensures { result ≡ new_validator m.now time }
{
    Validator {
        operator: m.validator,
        cons: m.cons,
        status: BondStatus::Unbonded,
        jailed: false,
        tokens: 0,
        shares: nothing(),
        commission: Commission {
            rate: m.rate,
            max_rate: m.max_rate,
            max_change: m.max_change_rate,
            updated: time,
        },
        min_self: m.min_self_delegation,
        unbonding_height: 0,
        unbonding_time: beginning(),
    }
}

/// The decimal 0.
pub(crate) fn nothing() -> Dec
    ensures { result ≡ 0 }
{
    Dec::from_raw(0).unwrap()
}

/// The first moment, 1970-01-01T00:00:00Z.
pub(crate) fn beginning() -> Moment
    ensures { result ≡ 0 }
{
    Moment::of(0).unwrap()
}
