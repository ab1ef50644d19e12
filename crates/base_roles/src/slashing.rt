//! Slashing of validators and of entries, jailing, and banning of signers (Cosmos SDK: `Slash`, `Jail`, `Tombstone`).

ghost use Rattle.std.specs.Prelude.{◌≡◌, ℕ, ◌+◌, ◌*◌, ◌^◌, ◌≤◌, List, ◌++◌, Option, Some, None, Result, OnOk, IfOk, IfErr, IsSome};
ghost use Rattle.std.specs.Option.{option_copied};
ghost use Rattle.base_decimals.specs.declared.over.Over.{Over};
ghost use Rattle.base_types.specs.Orders.{cons_cmp};
ghost use Rattle.base_roles.specs.declared.entities.SigningInfo.{SigningInfo};
ghost use Rattle.base_roles.specs.declared.facts.Fact.{Fact};
ghost use Rattle.base_roles.specs.declared.faults.HookFault.TheVariants.{NoMemory};
ghost use Rattle.base_roles.specs.Answers.{Follows};
ghost use Rattle.base_roles.specs.Entries.{at};
ghost use Rattle.base_roles.specs.Ground.{seen, IsInOrder, CanBeUndone};
ghost use Rattle.base_roles.specs.Hooks.{Stands};
ghost use Rattle.base_roles.specs.Lent.{Unbonds, Following, FollowsLent, IsAsTold, IsBurned, jail_told, IsBanned};
ghost use Rattle.base_roles.specs.Log.{Log};
ghost use Rattle.base_roles.specs.Staked.{Staked, validator_by_cons, lists_of, bonded_tokens, other_tokens};
ghost use Rattle.base_roles.specs.StakeChanges.{HoldsStake, StakeFalls, StillStand, StillStandByCons, SameButJailed, SameButJailedByCons, IsJailed};
ghost use Rattle.base_roles.specs.World.{View, Hook, Told, World};

use crate::bank::{Bank, Ground};
use crate::entities::SigningInfo;
use crate::facts::Facts;
use crate::faults::HookFault;
use crate::hooks::StakingHooks;
use crate::staked::{Unbonder, ValidatorView};
use base_decimals::Dec;
use base_types::{Addr, ConsAddr, Moment, Steps};
use std::alloc::Global;
use std::sync::ledger::Ledger;

/// Unbonding entries that can be slashed (Cosmos SDK v0.47: `x/staking/keeper`,
/// `SlashUnbondingDelegation`).
pub trait UnbondingSlash {
    /// What it holds, apart from how it keeps it.
    ghost Held: { Type 0 };

    ghost held: { Self → Held };

    /// Its own condition holds.
    ghost sound: { Held → Type 0 };

    /// The sum of the entries' balances.
    ghost owed: { Held → ℕ };

    /// What a slash of an operator's entries since a height by a factor gives: what was counted, and what
    /// stands then.
    ghost slashes: { List ℕ → ℕ → ℕ → Held → View → ℕ × Held × View };

    /// What the entries of a delegator and an operator lose that were made at a height or later, of at most so
    /// many tokens: the sum, and what stands then.
    ghost follows: { List ℕ → List ℕ → ℕ → ℕ → Held → View → ℕ × Held × View };

    /// What its open marks would give back.
    ghost Marks: { Type 0 };

    ghost marks: { Self → Marks };

    /// Slashes the entries of an operator that were made at the infraction's height or later and are not
    /// mature, by a factor of at most one, and burns what they lose. Answers what was counted, and 10^18 where
    /// that is more. The only error is `NoMemory`.
    fn slash_unbondings<B: Bank, L: Ledger>(
        &mut self,
        alloc: Global,
        g: &mut Ground<B>,
        operator: &Addr,
        infraction: u64,
        factor: Dec,
        steps: &mut Steps<L>,
    ) -> Result<u128, HookFault>
        requires factor { factor ≤ 10 ^ 18 }
        requires sound { sound (held self.old) }
        requires in_order { IsInOrder (seen B.holdings g.old) }
        requires account { HoldsStake (seen B.holdings g.old) 0 (owed (held self.old)) }

        ensures told { IfOk result (IsAsTold (slashes operator.now infraction factor (held self.old)
            (seen B.holdings g.old)) (held self.new) (seen B.holdings g.new)) }
        ensures most { IfOk result (λ counted. counted ≤ 10 ^ 18) }
        ensures burned { OnOk result (IsBurned (seen B.holdings g.old) (seen B.holdings g.new)
            (owed (held self.old)) (owed (held self.new))) }
        ensures sound { OnOk result (sound (held self.new)) }
        ensures in_order { OnOk result (IsInOrder (seen B.holdings g.new)) }
        ensures fault { IfErr result (λ fault. fault ≡ NoMemory) }

        // Whatever the answer.
        ensures undone { CanBeUndone B.marks g.old g.new }
        ensures bank { B.most_steps g.new.bank ≡ B.most_steps g.old.bank }
        ensures marks { marks self.new ≡ marks self.old };

    /// Takes at most so many tokens from the entries of a delegator and an operator that were made at a height
    /// or later and are not mature, from each in the order of making, and burns the sum at once. Answers the
    /// sum. The only error is `NoMemory`.
    fn slash_followed<B: Bank, L: Ledger>(
        &mut self,
        alloc: Global,
        g: &mut Ground<B>,
        delegator: &Addr,
        operator: &Addr,
        from: u64,
        tokens: u128,
        steps: &mut Steps<L>,
    ) -> Result<u128, HookFault>
        requires sound { sound (held self.old) }
        requires in_order { IsInOrder (seen B.holdings g.old) }
        requires account { HoldsStake (seen B.holdings g.old) 0 (owed (held self.old)) }

        ensures told { IfOk result (IsAsTold (follows delegator.now operator.now from tokens
            (held self.old) (seen B.holdings g.old)) (held self.new) (seen B.holdings g.new)) }
        ensures most { IfOk result (λ sum. sum ≤ tokens) }
        ensures burned { OnOk result (IsBurned (seen B.holdings g.old) (seen B.holdings g.new)
            (owed (held self.old)) (owed (held self.new))) }
        ensures sum { IfOk result (λ sum. owed (held self.new) + sum ≡ owed (held self.old)) }
        ensures sound { OnOk result (sound (held self.new)) }
        ensures in_order { OnOk result (IsInOrder (seen B.holdings g.new)) }
        ensures fault { IfErr result (λ fault. fault ≡ NoMemory) }

        // Whatever the answer.
        ensures undone { CanBeUndone B.marks g.old g.new }
        ensures bank { B.most_steps g.new.bank ≡ B.most_steps g.old.bank }
        ensures marks { marks self.new ≡ marks self.old };
}

/// Redelegation entries that can be slashed (Cosmos SDK v0.47: `x/staking/keeper`, `SlashRedelegation`).
pub trait RedelegationSlash {
    /// What it holds, apart from how it keeps it.
    ghost Held: { Type 0 };

    ghost held: { Self → Held };

    /// Its own condition holds.
    ghost sound: { Held → Type 0 };

    /// What a slash of the entries from an operator since a height by a factor gives, over delegations of
    /// which it is told what unbonding gives, and unbonding entries of which it is told what those lose that
    /// follow: what was counted, and what stands then; or an excess.
    ghost slashes: { (D U H : Type 0) → Unbonds D H → Following U → List ℕ → ℕ → ℕ → Held → U
        → World D H → Result (ℕ × Held × U × World D H) Over };

    /// What its open marks would give back.
    ghost Marks: { Type 0 };

    ghost marks: { Self → Marks };

    /// Slashes the entries from an operator that were made at the infraction's height or later and are not
    /// mature, by a factor of at most one: first takes from the unbonding entries that follow each, then unbonds
    /// shares at its target for what is left, and burns what goes out. Answers what was counted, and 10^18 where
    /// that is more. The errors are `NoMemory` and `Over`, which comes exactly where an unbonding exceeds.
    fn slash_redelegations<B: Bank, H: StakingHooks, D: Unbonder, U: UnbondingSlash, L: Ledger>(
        &mut self,
        alloc: Global,
        g: &mut Ground<B>,
        hooks: &mut H,
        delegations: &mut D,
        unbondings: &mut U,
        operator: &Addr,
        infraction: u64,
        factor: Dec,
        steps: &mut Steps<L>,
    ) -> Result<u128, HookFault>
        requires factor { factor ≤ 10 ^ 18 }
        requires sound { sound (held self.old) }
        requires delegations { D.sound (D.held delegations.old) }
        requires unbondings { U.sound (U.held unbondings.old) }
        requires stand { Stands (H.holds hooks.old) H.tells (seen B.holdings g.old)
            (lists_of (D.stake (D.held delegations.old))) }
        requires accounts { HoldsStake (seen B.holdings g.old) (bonded_tokens
            (D.stake (D.held delegations.old))) (other_tokens (D.stake (D.held delegations.old))
            + U.owed (U.held unbondings.old)) }

        ensures told { (h : H.Held) → H.holds hooks.old h → (log : Log) → FollowsLent
            (slashes D.Held U.Held H.Held (record {
              stake = D.stake;
              unbond = D.unbonds H.Held
                  H.tells.told;
            }) (record { follow = U.follows }) operator.now infraction factor (held self.old)
            (U.held unbondings.old) (record {
              mine = D.held delegations.old;
              hooks = h;
              view = seen B.holdings g.old;
              log = log;
            })) (held self.new) (U.held unbondings.new) (D.held delegations.new)
            (H.holds hooks.new) (seen B.holdings g.new) result }
        ensures most { IfOk result (λ counted. counted ≤ 10 ^ 18) }
        ensures falls { OnOk result (StakeFalls (seen B.holdings g.old) (seen B.holdings g.new)
            (bonded_tokens (D.stake (D.held delegations.old))) (other_tokens
            (D.stake (D.held delegations.old)) + U.owed (U.held unbondings.old)) (bonded_tokens
            (D.stake (D.held delegations.new))) (other_tokens (D.stake (D.held delegations.new))
            + U.owed (U.held unbondings.new))) }
        ensures still { OnOk result
            (StillStand (D.stake (D.held delegations.old)) (D.stake (D.held delegations.new))) }
        ensures sound { OnOk result (sound (held self.new)) }
        ensures delegations { OnOk result (D.sound (D.held delegations.new)) }
        ensures unbondings { OnOk result (U.sound (U.held unbondings.new)) }
        ensures stand { OnOk result (Stands (H.holds hooks.new) H.tells (seen B.holdings g.new)
            (lists_of (D.stake (D.held delegations.new)))) }

        // Whatever the answer.
        ensures undone { CanBeUndone B.marks g.old g.new }
        ensures bank { B.most_steps g.new.bank ≡ B.most_steps g.old.bank }
        ensures marks { marks self.new ≡ marks self.old }
        ensures hook_marks { H.marks hooks.new ≡ H.marks hooks.old }
        ensures delegation_marks { D.marks delegations.new ≡ D.marks delegations.old }
        ensures unbonding_marks { U.marks unbondings.new ≡ U.marks unbondings.old };
}

/// Validators that can be slashed and jailed (Cosmos SDK: what `x/slashing` and `x/evidence` use of
/// `x/staking`).
pub trait Slasher: ValidatorView {
    /// What it holds, apart from how it keeps it.
    ghost Held: { Type 0 };

    ghost held: { Self → Held };

    /// The validators and delegations among that.
    ghost stake: { Held → Staked };

    /// Its own condition holds.
    ghost sound: { Held → Type 0 };

    /// The sum of the balances of its unbonding entries.
    ghost owed: { Held → ℕ };

    /// What a slash gives of a consensus address since a height, by a power and a factor, over hooks of which
    /// it is told what they give: what was burned from the validator, and what stands then; or an excess.
    ghost slashes: { (H : Type 0) → (H → Hook → View → Told H) → List ℕ → ℕ → ℕ → ℕ → World Held H
        → Result (ℕ × World Held H) Over };

    /// What jailing a consensus address leaves.
    ghost jails: { List ℕ → Held → Held };

    /// What its open marks would give back.
    ghost Marks: { Type 0 };

    ghost marks: { Self → Marks };

    /// Slashes the validator of a consensus address for an infraction at a height, by the power that it had
    /// then and a factor of at most one. Answers what was burned from the validator itself; an unknown address
    /// or an unbonded validator is not slashed. The errors are `NoMemory` and `Over`, which comes exactly where a
    /// hook or an unbonding exceeds.
    fn slash<B: Bank, H: StakingHooks, L: Ledger>(
        &mut self,
        alloc: Global,
        g: &mut Ground<B>,
        hooks: &mut H,
        cons: &ConsAddr,
        infraction: u64,
        power: u64,
        factor: Dec,
        steps: &mut Steps<L>,
    ) -> Result<u128, HookFault>
        requires factor { factor ≤ 10 ^ 18 }
        requires power { power * g.old.ctx.params.power_reduction ≤ 10 ^ 18 }
        requires sound { sound (held self.old) }
        requires stand { Stands (H.holds hooks.old) H.tells (seen B.holdings g.old)
            (lists_of (stake (held self.old))) }
        requires accounts { HoldsStake (seen B.holdings g.old) (bonded_tokens
            (stake (held self.old))) (other_tokens (stake (held self.old)) + owed (held self.old)) }

        ensures told { (h : H.Held) → H.holds hooks.old h → (log : Log) → Follows
            (slashes H.Held H.tells.told cons.now infraction power factor (record {
              mine = held self.old;
              hooks = h;
              view = seen B.holdings g.old;
              log = log;
            })) (held self.new) (H.holds hooks.new)
            (seen B.holdings g.new) result }
        ensures falls { OnOk result (StakeFalls (seen B.holdings g.old) (seen B.holdings g.new)
            (bonded_tokens (stake (held self.old))) (other_tokens (stake (held self.old))
            + owed (held self.old)) (bonded_tokens (stake (held self.new)))
            (other_tokens (stake (held self.new)) + owed (held self.new))) }
        ensures still { OnOk result (StillStand (stake (held self.old)) (stake (held self.new))) }
        ensures still_by_cons { OnOk result
            (StillStandByCons (stake (held self.old)) (stake (held self.new))) }
        ensures sound { OnOk result (sound (held self.new)) }
        ensures stand { OnOk result (Stands (H.holds hooks.new) H.tells (seen B.holdings g.new)
            (lists_of (stake (held self.new)))) }

        // Whatever the answer.
        ensures undone { CanBeUndone B.marks g.old g.new }
        ensures bank { B.most_steps g.new.bank ≡ B.most_steps g.old.bank }
        ensures marks { marks self.new ≡ marks self.old }
        ensures hook_marks { H.marks hooks.new ≡ H.marks hooks.old };

    /// Jails the validator of a consensus address, which is known, and tells it by a fact. But for that the
    /// same validators and delegations stand, under the same keys, and as much is owed. The only error is
    /// `NoMemory`.
    fn jail<L: Ledger>(
        &mut self,
        alloc: Global,
        facts: &mut Facts,
        cons: &ConsAddr,
        steps: &mut Steps<L>,
    ) -> Result<(), HookFault>
        requires known { IsSome (validator_by_cons (stake (held self.old)) cons.now) }
        requires sound { sound (held self.old) }

        ensures told { OnOk result (held self.new ≡ jails cons.now (held self.old)) }
        ensures jailed { OnOk result
            (IsJailed cons.now (stake (held self.old)) (stake (held self.new))) }
        ensures lists { OnOk result
            (lists_of (stake (held self.new)) ≡ lists_of (stake (held self.old))) }
        ensures bonded { OnOk result
            (bonded_tokens (stake (held self.new)) ≡ bonded_tokens (stake (held self.old))) }
        ensures other { OnOk result
            (other_tokens (stake (held self.new)) ≡ other_tokens (stake (held self.old))) }
        ensures still { OnOk result
            (SameButJailed (stake (held self.old)) (stake (held self.new))) }
        ensures still_by_cons { OnOk result
            (SameButJailedByCons (stake (held self.old)) (stake (held self.new))) }
        ensures owed { OnOk result (owed (held self.new) ≡ owed (held self.old)) }
        ensures facts { OnOk result
            (facts.new ≡ jail_told (validator_by_cons (stake (held self.old)) cons.now) facts.old) }
        ensures sound { OnOk result (sound (held self.new)) }
        ensures fault { IfErr result (λ fault. fault ≡ NoMemory) }

        // Whatever the answer.
        ensures grown { (more : List Fact) × (facts.new ≡ facts.old ++ more) }
        ensures marks { marks self.new ≡ marks self.old };

    /// What is looked up is what it tells.
    ghost looks_up: { (s : Self) → Self.staked s ≡ stake (held s) };
}

/// The signing infos of validators (Cosmos SDK: what `x/evidence` uses of `x/slashing`).
pub trait Signers {
    /// What it holds, apart from how it keeps it.
    ghost Held: { Type 0 };

    ghost held: { Self → Held };

    /// Its own condition holds.
    ghost sound: { Held → Type 0 };

    /// The infos by consensus address.
    ghost infos: { Held → List (List ℕ × SigningInfo) };

    /// What banning a consensus address until a moment leaves.
    ghost bans: { List ℕ → ℕ → Held → Held };

    /// What its open marks would give back.
    ghost Marks: { Type 0 };

    ghost marks: { Self → Marks };

    /// The info of a consensus address, or None exactly where there is none. It takes at most one step.
    fn info<L: Ledger>(&self, cons: &ConsAddr, steps: &mut Steps<L>) -> Option<&SigningInfo>
        ensures value { option_copied result ≡ at cons_cmp (infos (held self.now)) cons.now }
        ensures cost { steps.new ≤ steps.old + 1 };

    /// Jails a consensus address that has an info until a moment, and says in it that this is for ever. The
    /// only error is `NoMemory`.
    fn ban<L: Ledger>(
        &mut self,
        alloc: Global,
        cons: &ConsAddr,
        until: Moment,
        steps: &mut Steps<L>,
    ) -> Result<(), HookFault>
        requires known { IsSome (at cons_cmp (infos (held self.old)) cons.now) }
        requires sound { sound (held self.old) }

        ensures told { OnOk result (held self.new ≡ bans cons.now until (held self.old)) }
        ensures banned { OnOk result
            (IsBanned cons.now until (infos (held self.old)) (infos (held self.new))) }
        ensures sound { OnOk result (sound (held self.new)) }
        ensures fault { IfErr result (λ fault. fault ≡ NoMemory) }

        // Whatever the answer.
        ensures marks { marks self.new ≡ marks self.old };
}
