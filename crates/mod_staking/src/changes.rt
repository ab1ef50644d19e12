//! Changes of a validator that other modules bring about: its jail, its status, a burn, and its removal.

ghost use Rattle.std.specs.Prelude.{◌≡◌, ℕ, ◌+◌, ◌-◌, ◌≤◌, ◌++◌, ◌∷◌, [], List, true, false, Some, IsSome, OnOk, IfErr};
ghost use Rattle.base_roles.specs.declared.entities.Validator.{Validator};
ghost use Rattle.base_roles.specs.declared.facts.Fact.{Fact};
ghost use Rattle.base_roles.specs.declared.facts.Fact.TheVariants as fact;
ghost use Rattle.base_roles.specs.declared.faults.HookFault.TheVariants.{NoMemory};
ghost use Rattle.base_roles.specs.Ground.{seen};
ghost use Rattle.base_roles.specs.Hooks.{Stand};
ghost use Rattle.base_roles.specs.Log.{Log};
ghost use Rattle.base_roles.specs.Staked.{validator_at, lists_of, is_unbonded};
ghost use Rattle.rule_modules.specs.Answers.{Leaves};
ghost use Rattle.rule_modules.specs.Unbonding.{validator_removed};
ghost use Rattle.mod_staking.specs.Calls.{IsSoundStake, over, behind_log, changed_at};
ghost use Rattle.mod_staking.specs.Scenes.{IsHooked, RegisterGoesOn, GoesOn, KeepsAccounts};

use crate::staking::Staking;
use base_roles::{Bank, Fact, Facts, Ground, HookFault, StakingHooks, Validator};
use base_types::{Addr, BondStatus, Moment, Steps};
use std::alloc::Global;
use std::sync::ledger::Ledger;

impl Staking {
    /// Jails the validator of an operator, and tells it (`jailValidator`). The only error is `NoMemory`.
    pub fn jail<L: Ledger>(
        &mut self,
        facts: &mut Facts,
        operator: &Addr,
        steps: &mut Steps<L>,
    ) -> Result<(), HookFault>
        requires known { IsSome (validator_at self.old.staked operator.now) }
        requires sound { IsSoundStake self.old.staked }
        ensures jailed { OnOk result (self.new.staked
            ≡ changed_at (λ v. record v { jailed = true }) operator.now self.old.staked) }
        ensures told { OnOk result (facts.new ≡ facts.old ++ fact.Jailed operator.now ∷ []) }
        ensures sound { OnOk result (IsSoundStake self.new.staked) }
        ensures fault { IfErr result (λ fault. fault ≡ NoMemory) }
        ensures grown { (more : List Fact) × (facts.new ≡ facts.old ++ more) }
        ensures register { RegisterGoesOn self.old self.new result }
        ensures cost { steps.new ≤ steps.old + 9 }
    {
        self.known();
        let mut v = *self.at(operator, steps).unwrap();
        v.jailed = true;
        self.put(&v, steps)?;
        facts.push(Fact::Jailed {
            validator: *operator,
        })?;
        Ok(())
    }

    /// Lets the validator of an operator out of jail, and tells it (`unjailValidator`). The only error is
    /// `NoMemory`.
    pub fn clear_jail<L: Ledger>(
        &mut self,
        facts: &mut Facts,
        operator: &Addr,
        steps: &mut Steps<L>,
    ) -> Result<(), HookFault>
        requires known { IsSome (validator_at self.old.staked operator.now) }
        requires sound { IsSoundStake self.old.staked }
        ensures cleared { OnOk result (self.new.staked
            ≡ changed_at (λ v. record v { jailed = false }) operator.now self.old.staked) }
        ensures told { OnOk result (facts.new ≡ facts.old ++ fact.Unjailed operator.now ∷ []) }
        ensures sound { OnOk result (IsSoundStake self.new.staked) }
        ensures fault { IfErr result (λ fault. fault ≡ NoMemory) }
        ensures grown { (more : List Fact) × (facts.new ≡ facts.old ++ more) }
        ensures register { RegisterGoesOn self.old self.new result }
        ensures cost { steps.new ≤ steps.old + 9 }
    {
        self.known();
        let mut v = *self.at(operator, steps).unwrap();
        v.jailed = false;
        self.put(&v, steps)?;
        facts.push(Fact::Unjailed {
            validator: *operator,
        })?;
        Ok(())
    }

    /// Gives the validator of an operator a status, with the height and the time of its unbonding, and tells
    /// it (`bondValidator`, `beginUnbondingValidator`, `completeUnbondingValidator`). The only error is
    /// `NoMemory`.
    pub fn set_status<L: Ledger>(
        &mut self,
        facts: &mut Facts,
        operator: &Addr,
        status: BondStatus,
        height: u64,
        time: Moment,
        steps: &mut Steps<L>,
    ) -> Result<(), HookFault>
        requires known { IsSome (validator_at self.old.staked operator.now) }
        requires sound { IsSoundStake self.old.staked }
        ensures changed { OnOk result (self.new.staked ≡ changed_at
            (λ v. record v { status = status; unbonding_height = height; unbonding_time = time })
            operator.now self.old.staked) }
        ensures told { OnOk result
            (facts.new ≡ facts.old ++ fact.Changed operator.now status ∷ []) }
        ensures sound { OnOk result (IsSoundStake self.new.staked) }
        ensures fault { IfErr result (λ fault. fault ≡ NoMemory) }
        ensures grown { (more : List Fact) × (facts.new ≡ facts.old ++ more) }
        ensures register { RegisterGoesOn self.old self.new result }
        ensures cost { steps.new ≤ steps.old + 9 }
    {
        self.known();
        let mut v = *self.at(operator, steps).unwrap();
        v.status = status;
        v.unbonding_height = height;
        v.unbonding_time = time;
        self.put(&v, steps)?;
        facts.push(Fact::Changed {
            validator: *operator,
            status,
        })?;
        Ok(())
    }

    /// Takes tokens from the validator of an operator, which it has (`RemoveTokens`). The coins stay where
    /// they are, and nothing is told. The only error is `NoMemory`.
    pub fn burn_tokens<L: Ledger>(
        &mut self,
        operator: &Addr,
        amount: u128,
        steps: &mut Steps<L>,
    ) -> Result<(), HookFault>
        requires known { (v : Validator)
            × ((validator_at self.old.staked operator.now ≡ Some v) × (amount ≤ v.tokens)) }
        requires sound { IsSoundStake self.old.staked }
        ensures burned { OnOk result (self.new.staked
            ≡ changed_at (λ v. record v { tokens = v.tokens - amount })
            operator.now self.old.staked) }
        ensures sound { OnOk result (IsSoundStake self.new.staked) }
        ensures fault { IfErr result (λ fault. fault ≡ NoMemory) }
        ensures register { RegisterGoesOn self.old self.new result }
        ensures cost { steps.new ≤ steps.old + 9 }
    {
        self.known();
        let mut v = *self.at(operator, steps).unwrap();
        v.tokens -= amount;
        self.put(&v, steps)?;
        Ok(())
    }

    /// Takes the validator of an operator out, which is unbonded and has no shares, then calls its last hook,
    /// and tells it (`RemoveValidator`).
    ///
    /// The errors are `NoMemory` and `Over`, which comes exactly where the hook exceeds, which sure hooks never
    /// do.
    pub fn remove_validator<B: Bank, H: StakingHooks, L: Ledger>(
        &mut self,
        alloc: Global,
        g: &mut Ground<B>,
        hooks: &mut H,
        operator: &Addr,
        steps: &mut Steps<L>,
    ) -> Result<(), HookFault>
        requires known { (v : Validator) × ((validator_at self.old.staked operator.now ≡ Some v)
            × (v.shares ≡ 0) × (is_unbonded v.status ≡ true)) }
        requires hooked { IsHooked H.tells (H.holds hooks.old)
            (seen B.holdings g.old) self.old.staked }

        ensures told { (h : H.Held) → H.holds hooks.old h
            → (v : Validator) → validator_at self.old.staked operator.now ≡ Some v
            → Leaves (validator_removed H.tells.told v
            (over self.old.staked h (seen B.holdings g.old)))
            self.new.staked (H.holds hooks.new) (seen B.holdings g.new) result }
        ensures sure { (h : H.Held) → H.holds hooks.old h
            → Stand H.tells h (seen B.holdings g.old) (lists_of self.old.staked)
            → H.tells.sure h ≡ true → IfErr result (λ fault. fault ≡ NoMemory) }
        ensures hooked { OnOk result (IsHooked H.tells (H.holds hooks.new)
            (seen B.holdings g.new) self.new.staked) }
        ensures keeps { KeepsAccounts H.tells (H.holds hooks.old) self.old.staked
            (seen B.holdings g.old) (seen B.holdings g.new) result }

        // Whatever the answer.
        ensures goes_on { GoesOn B.marks B.most_steps H.marks
            g.old g.new hooks.old hooks.new self.old self.new result }
    {
        self.known();
        let v = *self.at(operator, steps).unwrap();
        self.remove(alloc, g, hooks, &v, steps)
    }

    /// Takes this validator out, which stands and has no shares, then calls its last hook, and tells it.
    ///
    /// The errors are `NoMemory` and `Over`, which comes exactly where the hook exceeds, which sure hooks
    /// never do.
    pub(crate) fn remove<B: Bank, H: StakingHooks, L: Ledger>(
        &mut self,
        alloc: Global,
        g: &mut Ground<B>,
        hooks: &mut H,
        v: &Validator,
        steps: &mut Steps<L>,
    ) -> Result<(), HookFault>
        requires stands { validator_at self.old.staked v.now.operator ≡ Some v.now }
        requires empty { v.now.shares ≡ 0 }
        requires hooked { IsHooked H.tells (H.holds hooks.old)
            (seen B.holdings g.old) self.old.staked }

        ensures told { (h : H.Held) → H.holds hooks.old h → (log : Log)
            → Leaves (validator_removed H.tells.told v.now
            (behind_log log self.old.staked h (seen B.holdings g.old)))
            self.new.staked (H.holds hooks.new) (seen B.holdings g.new) result }
        ensures sure { (h : H.Held) → H.holds hooks.old h
            → Stand H.tells h (seen B.holdings g.old) (lists_of self.old.staked)
            → H.tells.sure h ≡ true → IfErr result (λ fault. fault ≡ NoMemory) }
        ensures hooked { OnOk result (IsHooked H.tells (H.holds hooks.new)
            (seen B.holdings g.new) self.new.staked) }
        ensures keeps { KeepsAccounts H.tells (H.holds hooks.old) self.old.staked
            (seen B.holdings g.old) (seen B.holdings g.new) result }

        // Whatever the answer.
        ensures goes_on { GoesOn B.marks B.most_steps H.marks
            g.old g.new hooks.old hooks.new self.old self.new result }
    {
        self.take(v, steps)?;
        match hooks.after_validator_removed(alloc, g, v, steps) {
            Ok(()) => (),
            Err(fault) => return Err(fault),
        }
        g.facts.push(Fact::Removed {
            validator: v.operator,
        })?;
        Ok(())
    }
}
