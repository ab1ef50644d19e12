//! The hooks of staking: what it calls as validators and delegations change (Cosmos SDK: `StakingHooks` of
//! `x/staking`).

ghost use Rattle.std.specs.Prelude.{◌≡◌, ℕ, ◌+◌, ◌≤◌};
ghost use Rattle.base_roles.specs.Answers.{Answers};
ghost use Rattle.base_roles.specs.Ground.{seen, CanBeUndone};
ghost use Rattle.base_roles.specs.Hooks.{Tells, MayCall, BondsWithin, Lawful};
ghost use Rattle.base_roles.specs.World.{created, removed, bonded, starting, modifying, modified, slashing};

use crate::bank::{Bank, Ground};
use crate::calls::Hook;
use crate::entities::Validator;
use crate::faults::HookFault;
use base_decimals::Dec;
use base_types::{Addr, Steps};
use std::alloc::Global;
use std::sync::ledger::Ledger;

/// What other modules do when staking changes something (Cosmos SDK v0.47: `x/staking/types`,
/// `StakingHooks`).
///
/// Hooks tell what each call gives, from a plain value, the ground and the arguments. What they keep may stand
/// for several plain values: a call answers what is told of each of them, and leaves what stands for what is
/// told; or memory is wanting. Its needs are those of `MayCall`, for some plain value and some lists of
/// operators and of started delegations; its laws are `Lawful`, and speak of plain values alone.
///
/// The errors of each call are `NoMemory` and `Over`, which comes exactly where that is told.
pub trait StakingHooks {
    /// A plain value: all that they were told.
    ghost Held: { Type 0 };

    /// Whether what they keep stands for a plain value.
    ghost holds: { Self → Held → Type 0 };

    /// What they tell.
    ghost tells: { Tells Held };

    /// What their open marks would give back.
    ghost Marks: { Type 0 };

    ghost marks: { Self → Marks };

    /// Carries out one call. It is what an implementation writes, and it has the one contract of all seven; the calls
    /// below give it their arguments.
    fn hear<B: Bank, L: Ledger>(
        &mut self,
        alloc: Global,
        g: &mut Ground<B>,
        hook: &Hook,
        steps: &mut Steps<L>,
    ) -> Result<(), HookFault>
        requires { MayCall (holds self.old) tells hook.now (seen B.holdings g.old) }
        ensures told { (h : Held) → holds self.old h → Answers (tells.told h hook.now
            (seen B.holdings g.old)) (holds self.new) (seen B.holdings g.new) result }
        ensures undone { CanBeUndone B.marks g.old g.new }
        ensures bank { B.most_steps g.new.bank ≡ B.most_steps g.old.bank }
        ensures marks { marks self.new ≡ marks self.old }
        ensures cost { BondsWithin (holds self.old) tells hook.now steps.old steps.new };

    /// After a validator was created (`AfterValidatorCreated`).
    final fn after_validator_created<B: Bank, L: Ledger>(
        &mut self,
        alloc: Global,
        g: &mut Ground<B>,
        v: &Validator,
        steps: &mut Steps<L>,
    ) -> Result<(), HookFault>
        requires { MayCall (holds self.old) tells (created v.now) (seen B.holdings g.old) }
        ensures told { (h : Held) → holds self.old h → Answers (tells.told h (created v.now)
            (seen B.holdings g.old)) (holds self.new) (seen B.holdings g.new) result }
        ensures undone { CanBeUndone B.marks g.old g.new }
        ensures bank { B.most_steps g.new.bank ≡ B.most_steps g.old.bank }
        ensures marks { marks self.new ≡ marks self.old }
    {
        let hook = Hook::Created { validator: *v };
        self.hear(alloc, g, &hook, steps)
    }

    /// After a validator was removed (`AfterValidatorRemoved`).
    final fn after_validator_removed<B: Bank, L: Ledger>(
        &mut self,
        alloc: Global,
        g: &mut Ground<B>,
        v: &Validator,
        steps: &mut Steps<L>,
    ) -> Result<(), HookFault>
        requires { MayCall (holds self.old) tells (removed v.now) (seen B.holdings g.old) }
        ensures told { (h : Held) → holds self.old h → Answers (tells.told h (removed v.now)
            (seen B.holdings g.old)) (holds self.new) (seen B.holdings g.new) result }
        ensures undone { CanBeUndone B.marks g.old g.new }
        ensures bank { B.most_steps g.new.bank ≡ B.most_steps g.old.bank }
        ensures marks { marks self.new ≡ marks self.old }
    {
        let hook = Hook::Removed { validator: *v };
        self.hear(alloc, g, &hook, steps)
    }

    /// After a validator joined the bonded set (`AfterValidatorBonded`).
    final fn after_validator_bonded<B: Bank, L: Ledger>(
        &mut self,
        alloc: Global,
        g: &mut Ground<B>,
        v: &Validator,
        steps: &mut Steps<L>,
    ) -> Result<(), HookFault>
        requires { MayCall (holds self.old) tells (bonded v.now) (seen B.holdings g.old) }
        ensures told { (h : Held) → holds self.old h → Answers (tells.told h (bonded v.now)
            (seen B.holdings g.old)) (holds self.new) (seen B.holdings g.new) result }
        ensures undone { CanBeUndone B.marks g.old g.new }
        ensures bank { B.most_steps g.new.bank ≡ B.most_steps g.old.bank }
        ensures marks { marks self.new ≡ marks self.old }
        ensures cost { (h : Held) → holds self.old h → steps.new ≤ steps.old + tells.most_steps h }
    {
        let hook = Hook::Bonded { validator: *v };
        self.hear(alloc, g, &hook, steps)
    }

    /// Before a delegation is created (`BeforeDelegationCreated`).
    final fn before_delegation_created<B: Bank, L: Ledger>(
        &mut self,
        alloc: Global,
        g: &mut Ground<B>,
        v: &Validator,
        delegator: &Addr,
        steps: &mut Steps<L>,
    ) -> Result<(), HookFault>
        requires { MayCall (holds self.old) tells (starting v.now delegator.now)
            (seen B.holdings g.old) }
        ensures told { (h : Held) → holds self.old h → Answers (tells.told h
            (starting v.now delegator.now) (seen B.holdings g.old)) (holds self.new)
            (seen B.holdings g.new) result }
        ensures undone { CanBeUndone B.marks g.old g.new }
        ensures bank { B.most_steps g.new.bank ≡ B.most_steps g.old.bank }
        ensures marks { marks self.new ≡ marks self.old }
    {
        let hook = Hook::Starting {
            validator: *v,
            delegator: *delegator,
        };
        self.hear(alloc, g, &hook, steps)
    }

    /// Before a delegation's shares, which are so many, change (`BeforeDelegationSharesModified`).
    final fn before_shares_modified<B: Bank, L: Ledger>(
        &mut self,
        alloc: Global,
        g: &mut Ground<B>,
        v: &Validator,
        delegator: &Addr,
        shares: Dec,
        steps: &mut Steps<L>,
    ) -> Result<(), HookFault>
        requires { MayCall (holds self.old) tells (modifying v.now delegator.now shares)
            (seen B.holdings g.old) }
        ensures told { (h : Held) → holds self.old h → Answers (tells.told h
            (modifying v.now delegator.now shares) (seen B.holdings g.old)) (holds self.new)
            (seen B.holdings g.new) result }
        ensures undone { CanBeUndone B.marks g.old g.new }
        ensures bank { B.most_steps g.new.bank ≡ B.most_steps g.old.bank }
        ensures marks { marks self.new ≡ marks self.old }
    {
        let hook = Hook::Modifying {
            validator: *v,
            delegator: *delegator,
            shares,
        };
        self.hear(alloc, g, &hook, steps)
    }

    /// After a delegation was created or changed, and has so many shares (`AfterDelegationModified`).
    final fn after_delegation_modified<B: Bank, L: Ledger>(
        &mut self,
        alloc: Global,
        g: &mut Ground<B>,
        v: &Validator,
        delegator: &Addr,
        shares: Dec,
        steps: &mut Steps<L>,
    ) -> Result<(), HookFault>
        requires { MayCall (holds self.old) tells (modified v.now delegator.now shares)
            (seen B.holdings g.old) }
        ensures told { (h : Held) → holds self.old h → Answers (tells.told h
            (modified v.now delegator.now shares) (seen B.holdings g.old)) (holds self.new)
            (seen B.holdings g.new) result }
        ensures undone { CanBeUndone B.marks g.old g.new }
        ensures bank { B.most_steps g.new.bank ≡ B.most_steps g.old.bank }
        ensures marks { marks self.new ≡ marks self.old }
    {
        let hook = Hook::Modified {
            validator: *v,
            delegator: *delegator,
            shares,
        };
        self.hear(alloc, g, &hook, steps)
    }

    /// Before a validator loses this part of its tokens (`BeforeValidatorSlashed`).
    final fn before_validator_slashed<B: Bank, L: Ledger>(
        &mut self,
        alloc: Global,
        g: &mut Ground<B>,
        v: &Validator,
        fraction: Dec,
        steps: &mut Steps<L>,
    ) -> Result<(), HookFault>
        requires { MayCall (holds self.old) tells (slashing v.now fraction)
            (seen B.holdings g.old) }
        ensures told { (h : Held) → holds self.old h → Answers (tells.told h
            (slashing v.now fraction) (seen B.holdings g.old)) (holds self.new)
            (seen B.holdings g.new) result }
        ensures undone { CanBeUndone B.marks g.old g.new }
        ensures bank { B.most_steps g.new.bank ≡ B.most_steps g.old.bank }
        ensures marks { marks self.new ≡ marks self.old }
    {
        let hook = Hook::Slashing {
            validator: *v,
            fraction,
        };
        self.hear(alloc, g, &hook, steps)
    }

    ghost lawful: { Lawful tells };
}
