//! Delegating to a validator.

ghost use Rattle.std.specs.Prelude.{◌≡◌, ℕ, ◌+◌, ◌*◌, ◌^◌, ◌<◌, ◌≤◌, unwrap_or, Some, None, IsSome, OnOk};
ghost use Rattle.base_roles.specs.declared.entities.Validator.{Validator};
ghost use Rattle.base_roles.specs.Answers.{Answers, AnswersAs};
ghost use Rattle.base_roles.specs.Ground.{seen, CanBeUndone};
ghost use Rattle.base_roles.specs.Hooks.{MayCall};
ghost use Rattle.base_roles.specs.Log.{Log};
ghost use Rattle.base_roles.specs.Staked.{validator_at};
ghost use Rattle.rule_modules.specs.Delegating.{shares_given, hook_before, delegated, delegated_by};
ghost use Rattle.rule_modules.specs.Stakes.{refusal_of_shares};
ghost use Rattle.mod_staking.specs.Calls.{over, behind_log, origin_of, HasOrigin};
ghost use Rattle.mod_staking.specs.Scenes.{IsScene, GoesOn};

use crate::creating::is_other;
use crate::origin::Origin;
use crate::paying::pay_in;
use crate::staking::Staking;
use base_coins::Coin;
use base_decimals::Dec;
use base_roles::{Bank, Ground, HookFault, MessageFault, Refusal, StakingHooks, Validator};
use base_shares::{ShareFault, issue};
use base_types::{Addr, Steps};
use std::alloc::Global;
use std::sync::ledger::Ledger;

impl Staking {
    /// Delegates a positive amount to the validator of an operator (`x/staking/keeper`: `Delegate`), in this
    /// order: the hook before; the coins move; tokens and shares grow; the hook after. Answers the issued
    /// shares.
    ///
    /// It is refused as `RateInvalid` where shares stand over no tokens, else as `Overflow` where the new
    /// shares or their sum with the old are over, else as `TinyDelegation` where they are 0, else as
    /// `Overflow` where the hook before exceeds, else as `InsufficientFunds` where the delegator is short,
    /// else as `Overflow` where the hook after exceeds.
    pub fn delegate<B: Bank, H: StakingHooks, L: Ledger>(
        &mut self,
        alloc: Global,
        g: &mut Ground<B>,
        hooks: &mut H,
        delegator: &Addr,
        operator: &Addr,
        amount: u128,
        origin: Origin,
        steps: &mut Steps<L>,
    ) -> Result<Dec, MessageFault>
        requires known { IsSome (validator_at self.old.staked operator.now) }
        requires some { 0 < amount }
        requires scene { IsScene H.tells (H.holds hooks.old)
            (seen B.holdings g.old) self.old.staked }
        requires origin { HasOrigin (origin_of origin) amount
            self.old.staked (seen B.holdings g.old) }

        ensures told { (h : H.Held) → H.holds hooks.old h
            → (v : Validator) → validator_at self.old.staked operator.now ≡ Some v
            → AnswersAs (delegated H.tells.told v delegator.now amount (origin_of origin)
            (over self.old.staked h (seen B.holdings g.old)))
            self.new.staked (H.holds hooks.new) (seen B.holdings g.new) result }
        ensures scene { OnOk result (IsScene H.tells (H.holds hooks.new)
            (seen B.holdings g.new) self.new.staked) }

        // Whatever the answer.
        ensures goes_on { GoesOn B.marks B.most_steps H.marks
            g.old g.new hooks.old hooks.new self.old self.new result }
    {
        self.known();
        let v = *self.at(operator, steps).unwrap();
        self.delegate_to(alloc, g, hooks, &v, delegator, amount, origin, steps)
    }

    /// The message by which a coin is delegated from the delegator's wallet (`msgServer.Delegate`). Answers the
    /// issued shares.
    ///
    /// It is refused as `NonPositive` where the amount is 0, else as `NoValidator`, else as `WrongDenom`; then
    /// for the causes of [`Staking::delegate`].
    pub fn delegate_coin<B: Bank, H: StakingHooks, L: Ledger>(
        &mut self,
        alloc: Global,
        g: &mut Ground<B>,
        hooks: &mut H,
        delegator: &Addr,
        operator: &Addr,
        coin: &Coin,
        steps: &mut Steps<L>,
    ) -> Result<Dec, MessageFault>
        requires scene { IsScene H.tells (H.holds hooks.old)
            (seen B.holdings g.old) self.old.staked }

        ensures told { (h : H.Held) → H.holds hooks.old h
            → AnswersAs (delegated_by H.tells.told delegator.now operator.now coin.now
            (over self.old.staked h (seen B.holdings g.old)))
            self.new.staked (H.holds hooks.new) (seen B.holdings g.new) result }
        ensures scene { OnOk result (IsScene H.tells (H.holds hooks.new)
            (seen B.holdings g.new) self.new.staked) }

        // Whatever the answer.
        ensures goes_on { GoesOn B.marks B.most_steps H.marks
            g.old g.new hooks.old hooks.new self.old self.new result }
    {
        if coin.amount == 0 {
            return Err(MessageFault::Refused(Refusal::NonPositive));
        }
        self.known();
        let v = match self.at(operator, steps) {
            Some(v) => *v,
            None => return Err(MessageFault::Refused(Refusal::NoValidator)),
        };
        if is_other(&g.ctx.params.bond_denom, &coin.denom) {
            return Err(MessageFault::Refused(Refusal::WrongDenom));
        }
        let origin = Origin::Wallet;
        self.delegate_to(alloc, g, hooks, &v, delegator, coin.amount, origin, steps)
    }

    /// Delegates a positive amount to this validator, which stands: the work of [`Staking::delegate`],
    /// whose answers and refusals it has.
    pub(crate) fn delegate_to<B: Bank, H: StakingHooks, L: Ledger>(
        &mut self,
        alloc: Global,
        g: &mut Ground<B>,
        hooks: &mut H,
        v: &Validator,
        delegator: &Addr,
        amount: u128,
        origin: Origin,
        steps: &mut Steps<L>,
    ) -> Result<Dec, MessageFault>
        requires stands { validator_at self.old.staked v.now.operator ≡ Some v.now }
        requires some { 0 < amount }
        requires scene { IsScene H.tells (H.holds hooks.old)
            (seen B.holdings g.old) self.old.staked }
        requires origin { HasOrigin (origin_of origin) amount
            self.old.staked (seen B.holdings g.old) }

        ensures told { (h : H.Held) → H.holds hooks.old h → (log : Log)
            → AnswersAs (delegated H.tells.told v.now delegator.now amount (origin_of origin)
            (behind_log log self.old.staked h (seen B.holdings g.old)))
            self.new.staked (H.holds hooks.new) (seen B.holdings g.new) result }
        ensures scene { OnOk result (IsScene H.tells (H.holds hooks.new)
            (seen B.holdings g.new) self.new.staked) }

        // Whatever the answer.
        ensures goes_on { GoesOn B.marks B.most_steps H.marks
            g.old g.new hooks.old hooks.new self.old self.new result }
    {
        let issued = shares_given(v, amount)?;
        let held = self.held(delegator, &v.operator, steps);
        call_before(alloc, g, hooks, v, delegator, &held, steps)?;
        pay_in(alloc, g, delegator, v.status, amount, origin, steps)?;
        let grown = Validator {
            tokens: v.tokens + amount,
            shares: v.shares.add(issued).unwrap(),
            ..*v
        };
        let shares = total_of(&held, issued);
        self.put(&grown, steps)?;
        self.put_shares(delegator, &v.operator, shares, steps)?;
        hooks.after_delegation_modified(alloc, g, &grown, delegator, shares, steps)?;
        Ok(issued)
    }
}

/// The shares that an amount gives (`Validator.AddTokensFromDel`). Refused where shares stand over no
/// tokens, where the new shares or their sum with the old are over, and where they are 0.
pub fn shares_given(v: &Validator, amount: u128) -> Result<Dec, Refusal>
    requires { v.now.tokens ≤ 10 ^ 18 }
    ensures { result ≡ shares_given v.now amount }
{
    let issued = match issue(v.tokens, v.shares, amount) {
        Ok(issued) => issued,
        Err(fault) => return Err(refusal_of_shares(fault)),
    };
    if let Err(over) = v.shares.add(issued) {
        return Err(Refusal::Overflow(over));
    }
    if issued.raw() == 0 {
        return Err(Refusal::TinyDelegation);
    }
    Ok(issued)
}

/// Why a message is refused whose shares are not given.
fn refusal_of_shares(fault: ShareFault) -> Refusal
    ensures { result ≡ refusal_of_shares fault }
{
    match fault {
        ShareFault::RateInvalid => Refusal::RateInvalid,
        ShareFault::NoTokens => Refusal::NoTokens,
        ShareFault::Over(over) => Refusal::Overflow(over),
    }
}

/// The shares of a delegation once so many were issued.
fn total_of(held: &Option<Dec>, issued: Dec) -> Dec
    requires { unwrap_or held.now 0 + issued < 10 ^ 38 }
    ensures { result ≡ unwrap_or held.now 0 + issued }
{
    match held {
        Some(held) => held.add(issued).unwrap(),
        None => issued,
    }
}

/// The hook before a delegation changes: it is new, or has shares.
fn call_before<B: Bank, H: StakingHooks, L: Ledger>(
    alloc: Global,
    g: &mut Ground<B>,
    hooks: &mut H,
    v: &Validator,
    delegator: &Addr,
    held: &Option<Dec>,
    steps: &mut Steps<L>,
) -> Result<(), HookFault>
    requires { MayCall (H.holds hooks.old) H.tells (hook_before v.now delegator.now held.now)
        (seen B.holdings g.old) }
    ensures told { (h : H.Held) → H.holds hooks.old h
        → Answers (H.tells.told h (hook_before v.now delegator.now held.now)
        (seen B.holdings g.old))
        (H.holds hooks.new) (seen B.holdings g.new) result }
    ensures undone { CanBeUndone B.marks g.old g.new }
    ensures bank { B.most_steps g.new.bank ≡ B.most_steps g.old.bank }
    ensures marks { H.marks hooks.new ≡ H.marks hooks.old }
{
    match held {
        None => hooks.before_delegation_created(alloc, g, v, delegator, steps),
        Some(shares) => hooks.before_shares_modified(alloc, g, v, delegator, *shares, steps),
    }
}
