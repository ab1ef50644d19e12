//! The slash of entries that are not mature: of each, what is counted is taken from the unbonding entries that follow
//! it, then shares are unbonded at its target, and what goes out burns.

ghost use Rattle.std.specs.Prelude.{◌≡◌, ◌<◌, ◌≤◌, ◌*◌, ◌^◌, ◌==◌, ℕ, List, Some, None, Ok, if◌then◌else◌, All, OnOk, IfOk, IfSome};
ghost use Rattle.base_decimals.specs.Decimals.{mul_int_quo_int_of};
ghost use Rattle.base_decimals.specs.Rounding.{even};
ghost use Rattle.base_roles.specs.declared.entities.RedelegationEntry.{RedelegationEntry};
ghost use Rattle.base_roles.specs.declared.entities.Validator.{Validator};
ghost use Rattle.base_roles.specs.Ground.{seen};
ghost use Rattle.base_roles.specs.Log.{Log};
ghost use Rattle.base_roles.specs.Orders.{triple_cmp};
ghost use Rattle.base_roles.specs.Staked.{validator_at, delegation};
ghost use Rattle.base_roles.specs.StakeChanges.{HasShares};
ghost use Rattle.rule_modules.specs.Answers.{Leaves};
ghost use Rattle.rule_modules.specs.EntrySlashes.{burned_at_target, part_left, entry_hit, targets_slashed, redelegations_slashed};
ghost use Rattle.rule_modules.specs.Redelegations.{RedelegationLists};
ghost use Rattle.mod_staking.specs.Calls.{behind_log};
ghost use Rattle.mod_entries.specs.Kept.{Behind, behind};
ghost use Rattle.mod_entries.specs.Lists.{list_at};
ghost use Rattle.mod_redelegation.specs.Calls.{AreSoundLists};
ghost use Rattle.mod_redelegation.specs.Scenes.{IsLentScene, IsSlashed, LentGoesOn, IsBothScene, AreBothSlashed, BothGoOn, LeavesBoth};
ghost use Rattle.mod_redelegation.specs.Slashed.{lent_of, following_of, unbonded_burnt, part_hit, entry_slashed};

use crate::keyed::{Key, known};
use crate::redelegations::Redelegations;
use base_decimals::Dec;
use base_roles::{
    Bank, Ground, HookFault, RedelegationEntry, RedelegationSlash, StakingHooks, Unbonder,
    UnbondingSlash, Validator,
};
use base_types::{Addr, Steps};
use mod_entries::{is_hit, part_of};
use mod_staking::{burn_bond, pool_of};
use std::alloc::Global;
use std::sync::ledger::Ledger;

impl RedelegationSlash for Redelegations {
    ghost Held = { RedelegationLists };

    ghost held = { λ s. s.lists };

    ghost sound = { AreSoundLists };

    ghost slashes = { λ D U H lent unbondings. redelegations_slashed lent unbondings };

    ghost Marks = { Behind (List ℕ × List ℕ × List ℕ) RedelegationEntry };

    ghost marks = { behind };

    fn slash_redelegations<B: Bank, H: StakingHooks, D: Unbonder, U: UnbondingSlash, L: Ledger>(
        &mut self,
        alloc: Global,
        g: &mut Ground<B>,
        hooks: &mut H,
        delegations: &mut D,
        unbondings: &mut U,
        operator: &Addr,
        infraction: u64,
        factor: Dec,
        steps: &mut Steps<L>,
    ) -> Result<u128, HookFault> {
        known(&self.entries);
        let now = g.ctx.time;
        let counted = self
            .entries
            .counted(operator, infraction, factor, now, steps);
        let keys = self.entries.keys_from(alloc, operator, steps)?;
        for key in &keys {
            self.slash_at(
                alloc,
                g,
                hooks,
                delegations,
                unbondings,
                key,
                infraction,
                factor,
                steps,
            )?;
        }
        Ok(counted)
    }
}

impl Redelegations {
    /// Slashes the entries of a key.
    fn slash_at<B: Bank, H: StakingHooks, D: Unbonder, U: UnbondingSlash, L: Ledger>(
        &self,
        alloc: Global,
        g: &mut Ground<B>,
        hooks: &mut H,
        delegations: &mut D,
        unbondings: &mut U,
        key: &Key,
        infraction: u64,
        factor: Dec,
        steps: &mut Steps<L>,
    ) -> Result<(), HookFault>
        requires factor { factor ≤ 10 ^ 18 }
        requires entries { AreSoundLists self.now.lists }
        requires scene { IsBothScene H.tells (H.holds hooks.old) D.sound D.stake U.sound U.owed
            (seen B.holdings g.old) (D.held delegations.old) (U.held unbondings.old) }
        ensures told { (h : H.Held) → H.holds hooks.old h → (log : Log)
            → LeavesBoth (targets_slashed (lent_of D.stake (D.unbonds H.Held H.tells.told))
            (following_of U.follows) key.now.0 key.now.2 infraction factor
            (list_at triple_cmp self.now.lists key.now)
            (U.held unbondings.old)
            (behind_log log (D.held delegations.old) h (seen B.holdings g.old)))
            (U.held unbondings.new) (D.held delegations.new) (H.holds hooks.new)
            (seen B.holdings g.new) result }
        ensures scene { OnOk result (IsBothScene H.tells (H.holds hooks.new) D.sound D.stake
            U.sound U.owed (seen B.holdings g.new) (D.held delegations.new)
            (U.held unbondings.new)) }
        ensures slashed { OnOk result (AreBothSlashed (seen B.holdings g.old)
            (seen B.holdings g.new) (D.stake (D.held delegations.old)) (D.stake (D.held delegations.new))
            (U.owed (U.held unbondings.old)) (U.owed (U.held unbondings.new))) }

        // Whatever the answer.
        ensures goes_on { BothGoOn B.marks B.most_steps H.marks D.marks U.marks g.old g.new
            hooks.old hooks.new delegations.old delegations.new unbondings.old unbondings.new }
    {
        let entries = self.list_at(key, steps);
        slash_all(
            alloc,
            g,
            hooks,
            delegations,
            unbondings,
            &key.0,
            &key.2,
            entries,
            infraction,
            factor,
            steps,
        )
    }
}

/// Slashes the entries of a delegator and a target, one after another.
fn slash_all<B: Bank, H: StakingHooks, D: Unbonder, U: UnbondingSlash, L: Ledger>(
    alloc: Global,
    g: &mut Ground<B>,
    hooks: &mut H,
    delegations: &mut D,
    unbondings: &mut U,
    delegator: &Addr,
    target: &Addr,
    entries: &[RedelegationEntry],
    infraction: u64,
    factor: Dec,
    steps: &mut Steps<L>,
) -> Result<(), HookFault>
    requires factor { factor ≤ 10 ^ 18 }
    requires initials { All (λ e. e.initial ≤ 10 ^ 18) entries.now }
    requires scene { IsBothScene H.tells (H.holds hooks.old) D.sound D.stake U.sound U.owed
        (seen B.holdings g.old) (D.held delegations.old) (U.held unbondings.old) }
    ensures told { (h : H.Held) → H.holds hooks.old h → (log : Log)
        → LeavesBoth (targets_slashed (lent_of D.stake (D.unbonds H.Held H.tells.told))
        (following_of U.follows) delegator.now target.now infraction factor entries.now
        (U.held unbondings.old)
        (behind_log log (D.held delegations.old) h (seen B.holdings g.old)))
        (U.held unbondings.new) (D.held delegations.new) (H.holds hooks.new)
        (seen B.holdings g.new) result }
    ensures scene { OnOk result (IsBothScene H.tells (H.holds hooks.new) D.sound D.stake
        U.sound U.owed (seen B.holdings g.new) (D.held delegations.new)
        (U.held unbondings.new)) }
    ensures slashed { OnOk result (AreBothSlashed (seen B.holdings g.old)
        (seen B.holdings g.new) (D.stake (D.held delegations.old)) (D.stake (D.held delegations.new))
        (U.owed (U.held unbondings.old)) (U.owed (U.held unbondings.new))) }

    // Whatever the answer.
    ensures goes_on { BothGoOn B.marks B.most_steps H.marks D.marks U.marks g.old g.new
        hooks.old hooks.new delegations.old delegations.new unbondings.old unbondings.new }
{
    for entry in entries {
        slash_one(
            alloc,
            g,
            hooks,
            delegations,
            unbondings,
            delegator,
            target,
            entry,
            infraction,
            factor,
            steps,
        )?;
    }
    Ok(())
}

/// Slashes one entry, where it is hit.
fn slash_one<B: Bank, H: StakingHooks, D: Unbonder, U: UnbondingSlash, L: Ledger>(
    alloc: Global,
    g: &mut Ground<B>,
    hooks: &mut H,
    delegations: &mut D,
    unbondings: &mut U,
    delegator: &Addr,
    target: &Addr,
    entry: &RedelegationEntry,
    infraction: u64,
    factor: Dec,
    steps: &mut Steps<L>,
) -> Result<(), HookFault>
    requires factor { factor ≤ 10 ^ 18 }
    requires initial { entry.now.initial ≤ 10 ^ 18 }
    requires scene { IsBothScene H.tells (H.holds hooks.old) D.sound D.stake U.sound U.owed
        (seen B.holdings g.old) (D.held delegations.old) (U.held unbondings.old) }
    ensures told { (h : H.Held) → H.holds hooks.old h → (log : Log)
        → LeavesBoth (entry_slashed (lent_of D.stake (D.unbonds H.Held H.tells.told))
        (following_of U.follows) delegator.now target.now infraction factor entry.now
        (U.held unbondings.old)
        (behind_log log (D.held delegations.old) h (seen B.holdings g.old)))
        (U.held unbondings.new) (D.held delegations.new) (H.holds hooks.new)
        (seen B.holdings g.new) result }
    ensures scene { OnOk result (IsBothScene H.tells (H.holds hooks.new) D.sound D.stake
        U.sound U.owed (seen B.holdings g.new) (D.held delegations.new)
        (U.held unbondings.new)) }
    ensures slashed { OnOk result (AreBothSlashed (seen B.holdings g.old)
        (seen B.holdings g.new) (D.stake (D.held delegations.old)) (D.stake (D.held delegations.new))
        (U.owed (U.held unbondings.old)) (U.owed (U.held unbondings.new))) }

    // Whatever the answer.
    ensures goes_on { BothGoOn B.marks B.most_steps H.marks D.marks U.marks g.old g.new
        hooks.old hooks.new delegations.old delegations.new unbondings.old unbondings.new }
{
    if !is_hit(entry, infraction, g.ctx.time) {
        return Ok(());
    }
    slash_hit(
        alloc,
        g,
        hooks,
        delegations,
        unbondings,
        delegator,
        target,
        entry,
        factor,
        steps,
    )
}

/// Slashes an entry that is hit: what is counted of it is taken from the unbonding entries that follow it; for what is
/// left shares are unbonded at the target, and what goes out burns.
fn slash_hit<B: Bank, H: StakingHooks, D: Unbonder, U: UnbondingSlash, L: Ledger>(
    alloc: Global,
    g: &mut Ground<B>,
    hooks: &mut H,
    delegations: &mut D,
    unbondings: &mut U,
    delegator: &Addr,
    target: &Addr,
    entry: &RedelegationEntry,
    factor: Dec,
    steps: &mut Steps<L>,
) -> Result<(), HookFault>
    requires factor { factor ≤ 10 ^ 18 }
    requires initial { entry.now.initial ≤ 10 ^ 18 }
    requires scene { IsBothScene H.tells (H.holds hooks.old) D.sound D.stake U.sound U.owed
        (seen B.holdings g.old) (D.held delegations.old) (U.held unbondings.old) }
    ensures told { (h : H.Held) → H.holds hooks.old h → (log : Log)
        → LeavesBoth (entry_hit (lent_of D.stake (D.unbonds H.Held H.tells.told))
        (following_of U.follows) delegator.now target.now factor entry.now
        (U.held unbondings.old)
        (behind_log log (D.held delegations.old) h (seen B.holdings g.old)))
        (U.held unbondings.new) (D.held delegations.new) (H.holds hooks.new)
        (seen B.holdings g.new) result }
    ensures scene { OnOk result (IsBothScene H.tells (H.holds hooks.new) D.sound D.stake
        U.sound U.owed (seen B.holdings g.new) (D.held delegations.new)
        (U.held unbondings.new)) }
    ensures slashed { OnOk result (AreBothSlashed (seen B.holdings g.old)
        (seen B.holdings g.new) (D.stake (D.held delegations.old)) (D.stake (D.held delegations.new))
        (U.owed (U.held unbondings.old)) (U.owed (U.held unbondings.new))) }

    // Whatever the answer.
    ensures goes_on { BothGoOn B.marks B.most_steps H.marks D.marks U.marks g.old g.new
        hooks.old hooks.new delegations.old delegations.new unbondings.old unbondings.new }
{
    let from = entry.created;
    let count = part_of(entry, factor);
    let lost = unbondings.slash_followed(alloc, g, delegator, target, from, count, steps)?;
    let left = part_left(factor, entry.shares_dst, count, lost);
    let held = delegations.shares_of(delegator, target, steps);
    let part = part_hit(left, &held);
    burn_at_target(alloc, g, hooks, delegations, delegator, target, part, steps)
}

/// The shares that the slash of an entry takes, of the count and of what the unbonding entries that follow lost: the
/// factor of the shares that it gave, or of that the part of the count that is left.
fn part_left(factor: Dec, given: Dec, count: u128, lost: u128) -> Dec
    requires factor { factor ≤ 10 ^ 18 }
    requires count { count ≤ 10 ^ 18 }
    requires lost { lost ≤ count }
    ensures { part_left factor given count lost ≡ Ok result }
{
    let part = share_of(factor, given);
    if lost == 0 {
        return part;
    }
    rest_of(part, count - lost, count)
}

/// Of shares the part that so many of so many are, cut.
#[tactic(auto, using(crate::proofs::PartLemmas::rest_fits))]
fn rest_of(part: Dec, some: u128, all: u128) -> Dec
    requires positive { 0 < all }
    requires most { all ≤ 10 ^ 18 }
    requires within { some ≤ all }
    ensures { mul_int_quo_int_of part some all ≡ Ok result }
{
    part.mul_int_quo_int(some, all).unwrap()
}

/// So many shares, at most what the delegation has.
fn part_hit(part: Dec, held: &Option<Dec>) -> Dec
    ensures { result ≡ part_hit part held.now }
{
    let most = match held {
        Some(held) => *held,
        None => Dec::from_raw(0).unwrap(),
    };
    if part.raw() < most.raw() { part } else { most }
}

/// A factor of at most one of shares, rounded half to even.
#[tactic(auto, using(crate::proofs::PartLemmas::mul_even_fits))]
fn share_of(factor: Dec, given: Dec) -> Dec
    requires factor { factor ≤ 10 ^ 18 }
    ensures { result ≡ even (factor * given) (10 ^ 18) }
{
    factor.mul_even(given).unwrap()
}

/// Unbonds shares at a target, and burns what goes out from the account of the target's status as it was
/// before. Nothing is done without a target or of no shares.
fn burn_at_target<B: Bank, H: StakingHooks, D: Unbonder, L: Ledger>(
    alloc: Global,
    g: &mut Ground<B>,
    hooks: &mut H,
    delegations: &mut D,
    delegator: &Addr,
    target: &Addr,
    part: Dec,
    steps: &mut Steps<L>,
) -> Result<(), HookFault>
    requires scene { IsLentScene H.tells (H.holds hooks.old) D.sound D.stake
        (seen B.holdings g.old) (D.held delegations.old) }
    requires shares { 0 < part → HasShares (D.stake (D.held delegations.old))
        delegator.now target.now part }
    ensures told { (h : H.Held) → H.holds hooks.old h → (log : Log)
        → Leaves (burned_at_target (lent_of D.stake (D.unbonds H.Held H.tells.told))
        (validator_at (D.stake (D.held delegations.old)) target.now) delegator.now part
        (behind_log log (D.held delegations.old) h (seen B.holdings g.old)))
        (D.held delegations.new) (H.holds hooks.new) (seen B.holdings g.new) result }
    ensures scene { OnOk result (IsLentScene H.tells (H.holds hooks.new) D.sound D.stake
        (seen B.holdings g.new) (D.held delegations.new)) }
    ensures slashed { OnOk result (IsSlashed (seen B.holdings g.old) (seen B.holdings g.new)
        (D.stake (D.held delegations.old)) (D.stake (D.held delegations.new))) }

    // Whatever the answer.
    ensures goes_on { LentGoesOn B.marks B.most_steps H.marks D.marks
        g.old g.new hooks.old hooks.new delegations.old delegations.new }
{
    let found = target_of(delegations, target, part, steps);
    let t = match found {
        Some(t) => t,
        None => return Ok(()),
    };
    unbond_and_burn(alloc, g, hooks, delegations, delegator, &t, part, steps)
}

/// The target's validator, where shares are to be unbonded there: None where it is gone, and for no shares.
fn target_of<D: Unbonder, L: Ledger>(
    delegations: &D,
    target: &Addr,
    part: Dec,
    steps: &mut Steps<L>,
) -> Option<Validator>
    ensures found { result ≡ (if part == 0 then None
        else validator_at (D.stake (D.held delegations.now)) target.now) }
    ensures own { IfSome result (λ t. t.operator ≡ target.now) }
{
    match delegations.validator(target, steps) {
        Some(t) => unless_none(*t, part),
        None => None,
    }
}

/// A validator, and None for no shares.
fn unless_none(t: Validator, part: Dec) -> Option<Validator>
    ensures { result ≡ (if part == 0 then None else Some t) }
{
    if part.raw() == 0 { None } else { Some(t) }
}

/// Unbonds shares at this validator, and burns what goes out from the account of its status.
fn unbond_and_burn<B: Bank, H: StakingHooks, D: Unbonder, L: Ledger>(
    alloc: Global,
    g: &mut Ground<B>,
    hooks: &mut H,
    delegations: &mut D,
    delegator: &Addr,
    t: &Validator,
    part: Dec,
    steps: &mut Steps<L>,
) -> Result<(), HookFault>
    requires scene { IsLentScene H.tells (H.holds hooks.old) D.sound D.stake
        (seen B.holdings g.old) (D.held delegations.old) }
    requires stands { validator_at (D.stake (D.held delegations.old)) t.now.operator
        ≡ Some t.now }
    requires shares { HasShares (D.stake (D.held delegations.old))
        delegator.now t.now.operator part }
    ensures told { (h : H.Held) → H.holds hooks.old h → (log : Log)
        → Leaves (unbonded_burnt (lent_of D.stake (D.unbonds H.Held H.tells.told))
        t.now delegator.now part
        (behind_log log (D.held delegations.old) h (seen B.holdings g.old)))
        (D.held delegations.new) (H.holds hooks.new) (seen B.holdings g.new) result }
    ensures scene { OnOk result (IsLentScene H.tells (H.holds hooks.new) D.sound D.stake
        (seen B.holdings g.new) (D.held delegations.new)) }
    ensures slashed { OnOk result (IsSlashed (seen B.holdings g.old) (seen B.holdings g.new)
        (D.stake (D.held delegations.old)) (D.stake (D.held delegations.new))) }

    // Whatever the answer.
    ensures goes_on { LentGoesOn B.marks B.most_steps H.marks D.marks
        g.old g.new hooks.old hooks.new delegations.old delegations.new }
{
    let out = delegations.unbond(alloc, g, hooks, delegator, &t.operator, part, steps)?;
    burn_bond(alloc, g, pool_of(t.status), out, steps)?;
    Ok(())
}
