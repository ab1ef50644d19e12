//! The slash of entries that are not mature: of an operator's, and of those that follow a redelegation.

ghost use Rattle.std.specs.Prelude.{◌≡◌, ◌^◌, ◌≤◌, ℕ, List, length, map, All, OnOk, IfOk, IfErr};
ghost use Rattle.base_types.specs.declared.account.Account.TheVariants as account;
ghost use Rattle.base_types.specs.declared.account.Module.TheVariants as holder;
ghost use Rattle.base_roles.specs.declared.entities.UnbondingEntry.{UnbondingEntry};
ghost use Rattle.base_roles.specs.declared.faults.HookFault.TheVariants.{NoMemory};
ghost use Rattle.base_roles.specs.Ground.{seen, CanBeUndone};
ghost use Rattle.base_roles.specs.Holdings.{balance_of, IsBacked};
ghost use Rattle.base_roles.specs.World.{burnt};
ghost use Rattle.rule_modules.specs.EntrySlashes.{burned_of, entry_slashed, entries_followed, followed, unbondings_slashed};
ghost use Rattle.rule_modules.specs.Owed.{entry_balances};
ghost use Rattle.rule_modules.specs.Unbondings.{UnbondingLists, entries_of, with_entries};
ghost use Rattle.mod_entries.specs.Kept.{Behind, behind, holding};
ghost use Rattle.mod_unbonding.specs.Calls.{AreSoundLists};

use crate::entries::{entry_slashed, part_burned};
use crate::following::{followed, sum_followed};
use crate::unbondings::Unbondings;
use base_decimals::Dec;
use base_roles::{Bank, Ground, HookFault, Listed, UnbondingEntry, UnbondingSlash};
use base_table::TableFault;
use base_types::{Addr, Module, Moment, Steps};
use mod_staking::burn_bond;
use std::alloc::Global;
use std::sync::ledger::Ledger;

impl UnbondingSlash for Unbondings {
    ghost Held = { UnbondingLists };

    ghost held = { λ s. s.lists };

    ghost sound = { AreSoundLists };

    ghost owed = { entry_balances };

    ghost slashes = { unbondings_slashed };

    ghost follows = { followed };

    ghost Marks = { Behind (List ℕ × List ℕ) UnbondingEntry };

    ghost marks = { behind };

    fn slash_unbondings<B: Bank, L: Ledger>(
        &mut self,
        alloc: Global,
        g: &mut Ground<B>,
        operator: &Addr,
        infraction: u64,
        factor: Dec,
        steps: &mut Steps<L>,
    ) -> Result<u128, HookFault> {
        let now = g.ctx.time;
        let counted = self
            .entries
            .counted(operator, infraction, factor, now, steps);
        let keys = self.entries.keys_from(alloc, operator, steps)?;
        for key in &keys {
            self.slash_at(alloc, g, key, infraction, factor, steps)?;
        }
        Ok(counted)
    }

    fn slash_followed<B: Bank, L: Ledger>(
        &mut self,
        alloc: Global,
        g: &mut Ground<B>,
        delegator: &Addr,
        operator: &Addr,
        from: u64,
        tokens: u128,
        steps: &mut Steps<L>,
    ) -> Result<u128, HookFault> {
        let key = (*delegator, *operator);
        let sum = self.follow_at(alloc, g, &key, from, tokens, steps)?;
        Ok(sum)
    }
}

impl Unbondings {
    /// Slashes the entries of a delegator and an operator, and burns what they lose.
    fn slash_at<B: Bank, L: Ledger>(
        &mut self,
        alloc: Global,
        g: &mut Ground<B>,
        key: &(Addr, Addr),
        infraction: u64,
        factor: Dec,
        steps: &mut Steps<L>,
    ) -> Result<(), HookFault>
        requires factor { factor ≤ 10 ^ 18 }
        requires entries { AreSoundLists self.old.lists }
        requires backed { IsBacked (B.holdings g.old.bank) }
        requires enough { burned_of infraction factor g.old.ctx.time
            (entries_of self.old.lists key.now.0 key.now.1)
            ≤ balance_of (B.holdings g.old.bank) (account.Module holder.NotBonded)
            g.old.ctx.params.bond_denom }
        ensures lists { OnOk result (self.new ≡ holding (with_entries key.now.0 key.now.1
            (map (entry_slashed infraction factor g.old.ctx.time)
            (entries_of self.old.lists key.now.0 key.now.1)) self.old.lists) self.old) }
        ensures ground { OnOk result (seen B.holdings g.new
            ≡ burnt holder.NotBonded g.old.ctx.params.bond_denom
            (burned_of infraction factor g.old.ctx.time
            (entries_of self.old.lists key.now.0 key.now.1)) (seen B.holdings g.old)) }
        ensures fault { IfErr result (λ fault. fault ≡ NoMemory) }
        ensures backed { IsBacked (B.holdings g.new.bank) }

        // Whatever the answer.
        ensures undone { CanBeUndone B.marks g.old g.new }
        ensures bank { B.most_steps g.new.bank ≡ B.most_steps g.old.bank }
        ensures behind { behind self.new ≡ behind self.old }
    {
        let now = g.ctx.time;
        let burned = self.burned_at(key, infraction, factor, now, steps);
        let list = self.slashed_at(alloc, key, infraction, factor, now, steps)?;
        burn_bond(alloc, g, Module::NotBonded, burned, steps)?;
        self.set(key, list, steps)?;
        Ok(())
    }

    /// What the entries of a delegator and an operator lose.
    fn burned_at<L: Ledger>(
        &self,
        key: &(Addr, Addr),
        infraction: u64,
        factor: Dec,
        now: Moment,
        steps: &mut Steps<L>,
    ) -> u128
        requires factor { factor ≤ 10 ^ 18 }
        requires entries { AreSoundLists self.now.lists }
        ensures { result ≡ burned_of infraction factor now
            (entries_of self.now.lists key.now.0 key.now.1) }
    {
        match self.at(key, steps) {
            Some(list) => burned_of(list.as_slice(), infraction, factor, now),
            None => 0,
        }
    }

    /// The entries of a delegator and an operator after the slash.
    fn slashed_at<L: Ledger>(
        &self,
        alloc: Global,
        key: &(Addr, Addr),
        infraction: u64,
        factor: Dec,
        now: Moment,
        steps: &mut Steps<L>,
    ) -> Result<Listed<UnbondingEntry>, TableFault>
        requires factor { factor ≤ 10 ^ 18 }
        requires entries { AreSoundLists self.now.lists }
        ensures { IfOk result (λ list. list ≡ map (entry_slashed infraction factor now)
            (entries_of self.now.lists key.now.0 key.now.1)) }
    {
        match self.at(key, steps) {
            Some(list) => slashed(alloc, list.as_slice(), infraction, factor, now),
            None => Ok(Listed::new(alloc)),
        }
    }

    /// Takes at most so many tokens from the entries of a delegator and an operator that were made at a
    /// height or later, and burns the sum. Answers the sum.
    fn follow_at<B: Bank, L: Ledger>(
        &mut self,
        alloc: Global,
        g: &mut Ground<B>,
        key: &(Addr, Addr),
        from: u64,
        tokens: u128,
        steps: &mut Steps<L>,
    ) -> Result<u128, HookFault>
        requires backed { IsBacked (B.holdings g.old.bank) }
        requires enough { (entries_followed from g.old.ctx.time tokens
            (entries_of self.old.lists key.now.0 key.now.1)).0
            ≤ balance_of (B.holdings g.old.bank) (account.Module holder.NotBonded)
            g.old.ctx.params.bond_denom }
        ensures sum { IfOk result (λ sum. sum ≡ (entries_followed from g.old.ctx.time tokens
            (entries_of self.old.lists key.now.0 key.now.1)).0) }
        ensures lists { OnOk result (self.new ≡ holding (with_entries key.now.0 key.now.1
            (entries_followed from g.old.ctx.time tokens
            (entries_of self.old.lists key.now.0 key.now.1)).1 self.old.lists) self.old) }
        ensures ground { OnOk result (seen B.holdings g.new
            ≡ burnt holder.NotBonded g.old.ctx.params.bond_denom
            (entries_followed from g.old.ctx.time tokens
            (entries_of self.old.lists key.now.0 key.now.1)).0 (seen B.holdings g.old)) }
        ensures fault { IfErr result (λ fault. fault ≡ NoMemory) }
        ensures backed { IsBacked (B.holdings g.new.bank) }

        // Whatever the answer.
        ensures undone { CanBeUndone B.marks g.old g.new }
        ensures bank { B.most_steps g.new.bank ≡ B.most_steps g.old.bank }
        ensures behind { behind self.new ≡ behind self.old }
    {
        let now = g.ctx.time;
        let sum = self.sum_followed_at(key, from, tokens, now, steps);
        let list = self.followed_at(alloc, key, from, tokens, now, steps)?;
        burn_bond(alloc, g, Module::NotBonded, sum, steps)?;
        self.set(key, list, steps)?;
        Ok(sum)
    }

    /// What the entries of a delegator and an operator lose that follow, of at most so many tokens.
    fn sum_followed_at<L: Ledger>(
        &self,
        key: &(Addr, Addr),
        from: u64,
        tokens: u128,
        now: Moment,
        steps: &mut Steps<L>,
    ) -> u128
        ensures { result ≡ (entries_followed from now tokens
            (entries_of self.now.lists key.now.0 key.now.1)).0 }
    {
        match self.at(key, steps) {
            Some(list) => sum_followed(list.as_slice(), from, tokens, now),
            None => 0,
        }
    }

    /// The entries of a delegator and an operator once those that follow lost at most so many tokens.
    fn followed_at<L: Ledger>(
        &self,
        alloc: Global,
        key: &(Addr, Addr),
        from: u64,
        tokens: u128,
        now: Moment,
        steps: &mut Steps<L>,
    ) -> Result<Listed<UnbondingEntry>, TableFault>
        ensures { IfOk result (λ list. list ≡ (entries_followed from now tokens
            (entries_of self.now.lists key.now.0 key.now.1)).1) }
    {
        match self.at(key, steps) {
            Some(list) => followed(alloc, list.as_slice(), from, tokens, now),
            None => Ok(Listed::new(alloc)),
        }
    }
}

/// What entries lose by a slash: the part of each initial amount, at most the balance.
fn burned_of(entries: &[UnbondingEntry], infraction: u64, factor: Dec, now: Moment) -> u128
    requires factor { factor ≤ 10 ^ 18 }
    requires few { length entries.now ≤ 100 }
    requires initials { All (λ e. e.initial ≤ 10 ^ 18) entries.now }
    ensures { result ≡ burned_of infraction factor now entries.now }
{
    let mut sum: u128 = 0;
    for entry in entries {
        sum += part_burned(entry, infraction, factor, now);
    }
    sum
}

/// Entries after a slash.
fn slashed(
    alloc: Global,
    entries: &[UnbondingEntry],
    infraction: u64,
    factor: Dec,
    now: Moment,
) -> Result<Listed<UnbondingEntry>, TableFault>
    requires factor { factor ≤ 10 ^ 18 }
    requires initials { All (λ e. e.initial ≤ 10 ^ 18) entries.now }
    ensures { IfOk result (λ list. list
        ≡ map (entry_slashed infraction factor now) entries.now) }
{
    let mut list = Vec::new(alloc);
    for entry in entries {
        list.push(entry_slashed(entry, infraction, factor, now))?;
    }
    Ok(Listed::of(list))
}
