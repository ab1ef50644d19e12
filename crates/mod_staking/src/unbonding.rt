//! Look-ups, and unbonding shares of a delegation, as other modules use them.

ghost use Rattle.std.specs.Prelude.{◌≡◌, ℕ, ◌-◌, ◌<◌, ◌≤◌, ◌^◌, ◌||◌, true, Some, IfOk, OnOk, IfErr, refl};
ghost use Rattle.base_roles.specs.Answers.{Follows};
ghost use Rattle.base_roles.specs.Ground.{seen, CanBeUndone};
ghost use Rattle.base_roles.specs.declared.faults.HookFault.TheVariants.{NoMemory};
ghost use Rattle.base_roles.specs.Hooks.{Stands, MayCall};
ghost use Rattle.base_roles.specs.Log.{Log};
ghost use Rattle.base_roles.specs.Orders.{same_addr};
ghost use Rattle.base_roles.specs.declared.calls.Hook.TheVariants.{Modified as modified};
ghost use Rattle.base_roles.specs.Staked.{Staked, validator_at, delegation, lists_of};
ghost use Rattle.base_roles.specs.StakeChanges.{HasShares, IsUnbonded};
ghost use Rattle.rule_modules.specs.Answers.{Leaves};
ghost use Rattle.rule_modules.specs.Unbonding.{shares_unbonded, unbonded_shares, falls_below_minimum, left_standing, removed_if_empty};
ghost use Rattle.mod_staking.specs.Registered.{behind, holding, Behind};
ghost use Rattle.mod_staking.specs.Calls.{IsSoundStake, over, behind_log, jailed_if, jail_noted};
ghost use Rattle.mod_staking.specs.Scenes.{IsHooked, GoesOn, KeepsAccounts};

use crate::staking::Staking;
use base_decimals::Dec;
use base_roles::{Bank, Fact, Ground, HookFault, StakingHooks, Unbonder, Validator, ValidatorView};
use base_shares::{remove, value_even};
use base_types::{Addr, BondStatus, ConsAddr, Steps};
use std::alloc::Global;
use std::cmp::Ordering;
use std::sync::ledger::Ledger;

impl ValidatorView for Staking {
    ghost staked = { λ s. s.staked };

    fn validator<L: Ledger>(&self, operator: &Addr, steps: &mut Steps<L>) -> Option<&Validator> {
        self.known();
        self.at(operator, steps)
    }

    fn by_cons<L: Ledger>(&self, cons: &ConsAddr, steps: &mut Steps<L>) -> Option<&Validator> {
        self.at_cons(cons, steps)
    }
}

impl Unbonder for Staking {
    ghost Held = { Staked };

    ghost held = { λ s. s.staked };

    ghost stake = { λ h. h };

    ghost sound = { IsSoundStake };

    ghost unbonds = { λ H told. shares_unbonded told };

    ghost Marks = { Behind };

    ghost marks = { behind };

    fn shares_of<L: Ledger>(
        &self,
        delegator: &Addr,
        operator: &Addr,
        steps: &mut Steps<L>,
    ) -> Option<Dec> {
        self.held(delegator, operator, steps)
    }

    fn unbond<B: Bank, H: StakingHooks, L: Ledger>(
        &mut self,
        alloc: Global,
        g: &mut Ground<B>,
        hooks: &mut H,
        delegator: &Addr,
        operator: &Addr,
        shares: Dec,
        steps: &mut Steps<L>,
    ) -> Result<u128, HookFault>
        requires shares { HasShares self.old.staked delegator.now operator.now shares }
        requires sound { IsSoundStake self.old.staked }
        requires stand { Stands (H.holds hooks.old) H.tells
            (seen B.holdings g.old) (lists_of self.old.staked) }

        ensures told { (h : H.Held) → H.holds hooks.old h → (log : Log)
            → Follows (shares_unbonded H.tells.told delegator.now operator.now shares
            (behind_log log self.old.staked h (seen B.holdings g.old)))
            self.new.staked (H.holds hooks.new) (seen B.holdings g.new) result }
        ensures unbonded { IfOk result (λ out.
            IsUnbonded delegator.now operator.now shares out self.old.staked self.new.staked) }
        ensures sound { OnOk result (IsSoundStake self.new.staked) }
        ensures stand { OnOk result (Stands (H.holds hooks.new) H.tells
            (seen B.holdings g.new) (lists_of self.new.staked)) }
        ensures keeps { KeepsAccounts H.tells (H.holds hooks.old) self.old.staked
            (seen B.holdings g.old) (seen B.holdings g.new) result }

        // Whatever the answer.
        ensures goes_on { GoesOn B.marks B.most_steps H.marks
            g.old g.new hooks.old hooks.new self.old self.new result }
    {
        self.known();
        let v = *self.at(operator, steps).unwrap();
        let held = self.held(delegator, operator, steps).unwrap();
        self.unbond_from(alloc, g, hooks, &v, delegator, held, shares, steps)
    }

    ghost looks_up = { λ s. refl };
}

impl Staking {
    /// Unbonds a part of the shares that a delegator holds of a validator (`Unbond`), in this order: the hook
    /// before; jailing; what is left of the delegation, with the hook after; then tokens and shares leave the
    /// validator, which goes where it is unbonded and empty. Answers the tokens that go out.
    fn unbond_from<B: Bank, H: StakingHooks, L: Ledger>(
        &mut self,
        alloc: Global,
        g: &mut Ground<B>,
        hooks: &mut H,
        v: &Validator,
        delegator: &Addr,
        held: Dec,
        part: Dec,
        steps: &mut Steps<L>,
    ) -> Result<u128, HookFault>
        requires stands { validator_at self.old.staked v.now.operator ≡ Some v.now }
        requires holds { delegation self.old.staked delegator.now v.now.operator ≡ Some held }
        requires part { part ≤ held }
        requires hooked { IsHooked H.tells (H.holds hooks.old)
            (seen B.holdings g.old) self.old.staked }

        ensures told { (h : H.Held) → H.holds hooks.old h
            → Follows (unbonded_shares H.tells.told v.now delegator.now held part
            (over self.old.staked h (seen B.holdings g.old)))
            self.new.staked (H.holds hooks.new) (seen B.holdings g.new) result }
        ensures unbonded { IfOk result (λ out.
            IsUnbonded delegator.now v.now.operator part out self.old.staked self.new.staked) }
        ensures sound { OnOk result (IsSoundStake self.new.staked) }
        ensures stand { OnOk result (Stands (H.holds hooks.new) H.tells
            (seen B.holdings g.new) (lists_of self.new.staked)) }
        ensures keeps { KeepsAccounts H.tells (H.holds hooks.old) self.old.staked
            (seen B.holdings g.old) (seen B.holdings g.new) result }

        // Whatever the answer.
        ensures goes_on { GoesOn B.marks B.most_steps H.marks
            g.old g.new hooks.old hooks.new self.old self.new result }
    {
        hooks.before_shares_modified(alloc, g, v, delegator, held, steps)?;
        let left = held.sub(part);
        let now = self.jail_if_low(g, v, delegator, left, steps)?;
        match self.leave_standing(alloc, g, hooks, &now, delegator, left, steps) {
            Ok(()) => (),
            Err(fault) => return Err(fault),
        }
        let (tokens, shares, out) = remove(v.tokens, v.shares, part);
        let less = Validator {
            tokens,
            shares,
            ..now
        };
        self.put(&less, steps)?;
        match self.remove_if_empty(alloc, g, hooks, &less, steps) {
            Ok(()) => Ok(out),
            Err(fault) => Err(fault),
        }
    }

    /// Jails a validator whose operator keeps these shares of it, where they are worth less than its least
    /// self-delegation, and tells it. Answers the validator as it then stands.
    fn jail_if_low<B: Bank, L: Ledger>(
        &mut self,
        g: &mut Ground<B>,
        v: &Validator,
        delegator: &Addr,
        left: Dec,
        steps: &mut Steps<L>,
    ) -> Result<Validator, HookFault>
        requires stands { validator_at self.old.staked v.now.operator ≡ Some v.now }
        requires tokens { v.now.tokens ≤ 10 ^ 18 }
        requires some { 0 < v.now.shares }
        requires left { left ≤ v.now.shares }
        ensures now { IfOk result (λ now. now
            ≡ record v.now {
              jailed = v.now.jailed || falls_below_minimum v.now delegator.now left;
            }) }
        ensures staked { OnOk result (self.new ≡ holding
            (jailed_if (falls_below_minimum v.now delegator.now left) v.now self.old.staked)
            self.old) }
        ensures ground { OnOk result (seen B.holdings g.new ≡ jail_noted
            (falls_below_minimum v.now delegator.now left) v.now (seen B.holdings g.old)) }
        ensures fault { IfErr result (λ fault. fault ≡ NoMemory) }

        // Whatever the answer.
        ensures undone { CanBeUndone B.marks g.old g.new }
        ensures bank { g.new.bank ≡ g.old.bank }
        ensures behind { behind self.new ≡ behind self.old }
        ensures spent { self.old.spent ≡ true → self.new.spent ≡ true }
    {
        if !falls_below_minimum(v, delegator, left) {
            return Ok(*v);
        }
        let mut now = *v;
        now.jailed = true;
        self.put(&now, steps)?;
        g.facts.push(Fact::Jailed {
            validator: v.operator,
        })?;
        Ok(now)
    }

    /// What is left of a delegation stands, with the hook after; where nothing is left, the delegation goes.
    fn leave_standing<B: Bank, H: StakingHooks, L: Ledger>(
        &mut self,
        alloc: Global,
        g: &mut Ground<B>,
        hooks: &mut H,
        v: &Validator,
        delegator: &Addr,
        left: Dec,
        steps: &mut Steps<L>,
    ) -> Result<(), HookFault>
        requires ready { 0 < left → MayCall (H.holds hooks.old) H.tells
            (modified v.now delegator.now left) (seen B.holdings g.old) }
        ensures told { (h : H.Held) → H.holds hooks.old h → (log : Log)
            → Leaves (left_standing H.tells.told v.now delegator.now left
            (behind_log log self.old.staked h (seen B.holdings g.old)))
            self.new.staked (H.holds hooks.new) (seen B.holdings g.new) result }

        // Whatever the answer.
        ensures goes_on { GoesOn B.marks B.most_steps H.marks
            g.old g.new hooks.old hooks.new self.old self.new result }
    {
        if left.raw() == 0 {
            self.take_shares(delegator, &v.operator, steps)?;
            return Ok(());
        }
        self.put_shares(delegator, &v.operator, left, steps)?;
        hooks.after_delegation_modified(alloc, g, v, delegator, left, steps)
    }

    /// A validator that is unbonded and has no shares goes.
    fn remove_if_empty<B: Bank, H: StakingHooks, L: Ledger>(
        &mut self,
        alloc: Global,
        g: &mut Ground<B>,
        hooks: &mut H,
        v: &Validator,
        steps: &mut Steps<L>,
    ) -> Result<(), HookFault>
        requires stands { validator_at self.old.staked v.now.operator ≡ Some v.now }
        requires hooked { IsHooked H.tells (H.holds hooks.old)
            (seen B.holdings g.old) self.old.staked }
        ensures told { (h : H.Held) → H.holds hooks.old h → (log : Log)
            → Leaves (removed_if_empty H.tells.told v.now
            (behind_log log self.old.staked h (seen B.holdings g.old)))
            self.new.staked (H.holds hooks.new) (seen B.holdings g.new) result }
        ensures hooked { OnOk result (IsHooked H.tells (H.holds hooks.new)
            (seen B.holdings g.new) self.new.staked) }
        ensures keeps { KeepsAccounts H.tells (H.holds hooks.old) self.old.staked
            (seen B.holdings g.old) (seen B.holdings g.new) result }

        // Whatever the answer.
        ensures undone { CanBeUndone B.marks g.old g.new }
        ensures bank { B.most_steps g.new.bank ≡ B.most_steps g.old.bank }
        ensures behind { behind self.new ≡ behind self.old }
        ensures hook_marks { H.marks hooks.new ≡ H.marks hooks.old }
        ensures spent { self.old.spent ≡ true → self.new.spent ≡ true }
        ensures unspent { OnOk result (self.new.spent ≡ self.old.spent) }
    {
        if v.status == BondStatus::Unbonded && v.shares.raw() == 0 {
            return self.remove(alloc, g, hooks, v, steps);
        }
        Ok(())
    }
}

/// Whether the delegator is the validator's operator, which is not jailed, and the shares left are worth
/// less than its least self-delegation.
fn falls_below_minimum(v: &Validator, delegator: &Addr, left: Dec) -> bool
    requires tokens { v.now.tokens ≤ 10 ^ 18 }
    requires some { 0 < v.now.shares }
    requires left { left ≤ v.now.shares }
    ensures { result ≡ falls_below_minimum v.now delegator.now left }
{
    if !is_same(delegator, &v.operator) {
        return false;
    }
    if v.jailed {
        return false;
    }
    value_even(v.tokens, v.shares, left).trunc() < v.min_self
}

/// Whether two addresses are one.
fn is_same(a: &Addr, b: &Addr) -> bool
    ensures { result ≡ same_addr a.now b.now }
{
    a.cmp(b) == Ordering::Equal
}
