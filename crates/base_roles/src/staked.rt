//! Validators as other modules look them up, and delegations that can be unbonded (`x/staking`: `Unbond`).

ghost use Rattle.std.specs.Prelude.{◌≡◌, ℕ, ◌+◌, ◌≤◌, List, Option, Some, None, Result, OnOk, IfOk, IfSome};
ghost use Rattle.std.specs.Option.{option_copied};
ghost use Rattle.base_decimals.specs.declared.over.Over.{Over};
ghost use Rattle.base_roles.specs.Answers.{Follows};
ghost use Rattle.base_roles.specs.Ground.{seen, CanBeUndone};
ghost use Rattle.base_roles.specs.Hooks.{Stand, Stands, Keeps};
ghost use Rattle.base_roles.specs.Log.{Log};
ghost use Rattle.base_roles.specs.Staked.{Staked, validator_at, validator_by_cons, delegation, lists_of};
ghost use Rattle.base_roles.specs.StakeChanges.{HasShares, IsUnbonded};
ghost use Rattle.base_roles.specs.World.{View, Hook, Told, World};

use crate::bank::{Bank, Ground};
use crate::entities::Validator;
use crate::faults::HookFault;
use crate::hooks::StakingHooks;
use base_decimals::Dec;
use base_types::{Addr, ConsAddr, Steps};
use std::alloc::Global;
use std::sync::ledger::Ledger;

/// Validators and delegations that can be looked up (Cosmos SDK: the look-ups of `StakingKeeper`).
pub trait ValidatorView {
    /// The validators and delegations.
    ghost staked: { Self → Staked };

    /// The validator of an operator, or None exactly where there is none.
    fn validator<L: Ledger>(&self, operator: &Addr, steps: &mut Steps<L>) -> Option<&Validator>
        ensures value { option_copied result ≡ validator_at (staked self.now) operator.now }
        ensures own { IfSome (option_copied result) (λ v. v.operator ≡ operator.now) }
        ensures cost { steps.new ≤ steps.old + 1 };

    /// The validator of a consensus address, or None exactly where there is none.
    fn by_cons<L: Ledger>(&self, cons: &ConsAddr, steps: &mut Steps<L>) -> Option<&Validator>
        ensures value { option_copied result ≡ validator_by_cons (staked self.now) cons.now }
        ensures cost { steps.new ≤ steps.old + 2 };
}

/// Delegations that can be unbonded (Cosmos SDK v0.47: `x/staking/keeper`, `Unbond`).
///
/// An implementation tells what `unbond` gives, over any hooks of which it is told what they give.
pub trait Unbonder: ValidatorView {
    /// What it holds, apart from how it keeps it.
    ghost Held: { Type 0 };

    ghost held: { Self → Held };

    /// The validators and delegations among that.
    ghost stake: { Held → Staked };

    /// Its own condition holds: that of its records alone, and no validator has more than 10^18 tokens.
    ghost sound: { Held → Type 0 };

    /// What unbonding these shares of this delegator and operator gives: the amount that goes out, and what
    /// stands then; or an excess.
    ghost unbonds: { (H : Type 0) → (H → Hook → View → Told H) → List ℕ → List ℕ → ℕ → World Held H
        → Result (ℕ × World Held H) Over };

    /// What its open marks would give back.
    ghost Marks: { Type 0 };

    ghost marks: { Self → Marks };

    /// The shares of a delegation, or None exactly where there is none.
    fn shares_of<L: Ledger>(
        &self,
        delegator: &Addr,
        operator: &Addr,
        steps: &mut Steps<L>,
    ) -> Option<Dec>
        ensures { result ≡ delegation (stake (held self.now)) delegator.now operator.now };

    /// Takes shares out of a delegation, and answers the tokens that go out with them, in units of the bond
    /// denomination. The coins stay where they are. The errors are `NoMemory` and `Over`, which comes exactly
    /// where a hook exceeds.
    fn unbond<B: Bank, H: StakingHooks, L: Ledger>(
        &mut self,
        alloc: Global,
        g: &mut Ground<B>,
        hooks: &mut H,
        delegator: &Addr,
        operator: &Addr,
        shares: Dec,
        steps: &mut Steps<L>,
    ) -> Result<u128, HookFault>
        requires shares { HasShares (stake (held self.old)) delegator.now operator.now shares }
        requires sound { sound (held self.old) }
        requires stand { Stands (H.holds hooks.old) H.tells (seen B.holdings g.old)
            (lists_of (stake (held self.old))) }

        // A slash unbonds one delegation after another, behind the log of those before.
        ensures told { (h : H.Held) → H.holds hooks.old h → (log : Log) → Follows
            (unbonds H.Held H.tells.told delegator.now operator.now shares (record {
              mine = held self.old;
              hooks = h;
              view = seen B.holdings g.old;
              log = log;
            })) (held self.new) (H.holds hooks.new)
            (seen B.holdings g.new) result }
        ensures unbonded { IfOk result (λ out. IsUnbonded delegator.now operator.now shares out
            (stake (held self.old)) (stake (held self.new))) }
        ensures sound { OnOk result (sound (held self.new)) }
        ensures stand { OnOk result (Stands (H.holds hooks.new) H.tells (seen B.holdings g.new)
            (lists_of (stake (held self.new)))) }
        ensures keeps { (h : H.Held) → H.holds hooks.old h → Stand H.tells h (seen B.holdings g.old)
            (lists_of (stake (held self.old))) → OnOk result
            (Keeps (H.tells.owes h ≡ None) (seen B.holdings g.old) (seen B.holdings g.new)) }

        // Whatever the answer.
        ensures undone { CanBeUndone B.marks g.old g.new }
        ensures bank { B.most_steps g.new.bank ≡ B.most_steps g.old.bank }
        ensures marks { marks self.new ≡ marks self.old }
        ensures hook_marks { H.marks hooks.new ≡ H.marks hooks.old };

    /// What is looked up is what it tells.
    ghost looks_up: { (s : Self) → Self.staked s ≡ stake (held s) };
}
