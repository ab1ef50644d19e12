//! Completing: mature entries are paid at the end of a block, and go.

ghost use Rattle.std.specs.Prelude.{◌≡◌, ◌+◌, ◌*◌, ◌≤◌, ℕ, true, ◌∷◌, [], not, filter, if◌then◌else◌, OnOk, IfOk, IfErr};
ghost use Rattle.base_types.specs.declared.account.Account.TheVariants as account;
ghost use Rattle.base_types.specs.declared.account.Module.TheVariants as holder;
ghost use Rattle.base_roles.specs.declared.faults.HookFault.TheVariants.{NoMemory};
ghost use Rattle.base_roles.specs.Ground.{seen, IsInOrder, CanBeUndone};
ghost use Rattle.base_roles.specs.Holdings.{balance_of, IsBacked};
ghost use Rattle.base_roles.specs.StakeChanges.{HoldsStake};
ghost use Rattle.rule_modules.specs.Amounts.{count_where};
ghost use Rattle.rule_modules.specs.EntrySlashes.{unbonding_made};
ghost use Rattle.rule_modules.specs.Owed.{entry_balances};
ghost use Rattle.rule_modules.specs.Unbondings.{is_mature, entries_of, with_entries, paid_back, completed};
ghost use Rattle.mod_entries.specs.Kept.{behind, holding};
ghost use Rattle.mod_entries.specs.Walked.{mature_entries};
ghost use Rattle.mod_unbonding.specs.Calls.{AreSoundLists, mature_balances};
ghost use Rattle.mod_unbonding.specs.Walked.{paid_at};

use crate::unbondings::Unbondings;
use base_roles::{Bank, Ground, HookFault, Listed, UnbondingEntry};
use base_table::TableFault;
use base_types::{Account, Addr, Module, Moment, Steps};
use mod_entries::is_mature;
use mod_staking::send_from;
use std::alloc::Global;
use std::sync::ledger::Ledger;

impl Unbondings {
    /// Pays the balances of all mature entries from the not-bonded account, by delegator, then operator, and
    /// takes the entries out (`CompleteUnbonding`). It calls no hook, so the only error is `NoMemory`.
    ///
    /// Over a bank whose `send` of one coin takes at most 8 steps, it takes at most 15 for each mature entry,
    /// and one more: where none is mature, one at most.
    pub fn complete<B: Bank, L: Ledger>(
        &mut self,
        alloc: Global,
        g: &mut Ground<B>,
        steps: &mut Steps<L>,
    ) -> Result<(), HookFault>
        requires entries { AreSoundLists self.old.lists }
        requires in_order { IsInOrder (seen B.holdings g.old) }
        requires account { HoldsStake (seen B.holdings g.old) 0 (entry_balances self.old.lists) }

        ensures lists { OnOk result (self.new.lists
            ≡ (completed self.old.lists (seen B.holdings g.old)).0) }
        ensures ground { OnOk result (seen B.holdings g.new
            ≡ (completed self.old.lists (seen B.holdings g.old)).1) }
        ensures entries { OnOk result (AreSoundLists self.new.lists) }
        ensures in_order { OnOk result (IsInOrder (seen B.holdings g.new)) }
        ensures accounts { (bonded other : ℕ)
            → HoldsStake (seen B.holdings g.old) bonded (other + entry_balances self.old.lists)
            → OnOk result (HoldsStake (seen B.holdings g.new) bonded
            (other + entry_balances self.new.lists)) }
        ensures fault { IfErr result (λ fault. fault ≡ NoMemory) }
        ensures cost { B.most_steps g.old.bank ≤ 8 → steps.new ≤ steps.old
            + (15 * mature_entries unbonding_made g.old.ctx.time self.old.lists + 1) }

        // Whatever the answer.
        ensures undone { CanBeUndone B.marks g.old g.new }
        ensures bank { B.most_steps g.new.bank ≡ B.most_steps g.old.bank }
        ensures behind { behind self.new ≡ behind self.old }
        ensures spent { self.old.spent ≡ true → self.new.spent ≡ true }
        ensures unspent { OnOk result (self.new.spent ≡ self.old.spent) }
    {
        let keys = self.entries.due(alloc, g.ctx.time, steps)?;
        for key in &keys {
            self.pay(alloc, g, key, steps)?;
        }
        Ok(())
    }

    /// Pays the mature entries of a delegator and an operator, and takes them out.
    fn pay<B: Bank, L: Ledger>(
        &mut self,
        alloc: Global,
        g: &mut Ground<B>,
        key: &(Addr, Addr),
        steps: &mut Steps<L>,
    ) -> Result<(), HookFault>
        requires backed { IsBacked (B.holdings g.old.bank) }
        requires enough { mature_balances g.old.ctx.time
            (entries_of self.old.lists key.now.0 key.now.1)
            ≤ balance_of (B.holdings g.old.bank) (account.Module holder.NotBonded)
            g.old.ctx.params.bond_denom }
        ensures lists { OnOk result (self.new ≡ holding (with_entries key.now.0 key.now.1
            (paid_at key.now (entries_of self.old.lists key.now.0 key.now.1)
            (seen B.holdings g.old)).0 self.old.lists) self.old) }
        ensures ground { OnOk result (seen B.holdings g.new
            ≡ (paid_at key.now (entries_of self.old.lists key.now.0 key.now.1)
            (seen B.holdings g.old)).1) }
        ensures fault { IfErr result (λ fault. fault ≡ NoMemory) }
        ensures backed { IsBacked (B.holdings g.new.bank) }
        ensures cost { B.most_steps g.old.bank ≤ 8 → steps.new ≤ steps.old + (6 + 8 * count_where
            (is_mature g.old.ctx.time) (entries_of self.old.lists key.now.0 key.now.1)) }

        // Whatever the answer.
        ensures undone { CanBeUndone B.marks g.old g.new }
        ensures bank { B.most_steps g.new.bank ≡ B.most_steps g.old.bank }
        ensures behind { behind self.new ≡ behind self.old }
        ensures spent { self.old.spent ≡ true → self.new.spent ≡ true }
    {
        let left = self.pay_at(alloc, g, key, steps)?;
        self.set(key, left, steps)?;
        Ok(())
    }

    /// Pays the mature entries of a delegator and an operator. Answers the others.
    fn pay_at<B: Bank, L: Ledger>(
        &self,
        alloc: Global,
        g: &mut Ground<B>,
        key: &(Addr, Addr),
        steps: &mut Steps<L>,
    ) -> Result<Listed<UnbondingEntry>, HookFault>
        requires backed { IsBacked (B.holdings g.old.bank) }
        requires enough { mature_balances g.old.ctx.time
            (entries_of self.now.lists key.now.0 key.now.1)
            ≤ balance_of (B.holdings g.old.bank) (account.Module holder.NotBonded)
            g.old.ctx.params.bond_denom }
        ensures left { IfOk result (λ list. list
            ≡ (paid_at key.now (entries_of self.now.lists key.now.0 key.now.1)
            (seen B.holdings g.old)).0) }
        ensures ground { OnOk result (seen B.holdings g.new
            ≡ (paid_at key.now (entries_of self.now.lists key.now.0 key.now.1)
            (seen B.holdings g.old)).1) }
        ensures fault { IfErr result (λ fault. fault ≡ NoMemory) }
        ensures backed { IsBacked (B.holdings g.new.bank) }
        ensures undone { CanBeUndone B.marks g.old g.new }
        ensures bank { B.most_steps g.new.bank ≡ B.most_steps g.old.bank }
        ensures cost { B.most_steps g.old.bank ≤ 8 → steps.new ≤ steps.old + (2 + 8 * count_where
            (is_mature g.old.ctx.time) (entries_of self.now.lists key.now.0 key.now.1)) }
    {
        let now = g.ctx.time;
        match self.at(key, steps) {
            Some(list) => {
                pay_all(alloc, g, &key.0, list.as_slice(), steps)?;
                Ok(self.left_at(alloc, key, now, steps)?)
            }
            None => Ok(Listed::new(alloc)),
        }
    }

    /// The entries of a delegator and an operator that are not mature.
    fn left_at<L: Ledger>(
        &self,
        alloc: Global,
        key: &(Addr, Addr),
        now: Moment,
        steps: &mut Steps<L>,
    ) -> Result<Listed<UnbondingEntry>, TableFault>
        ensures left { IfOk result (λ list. list ≡ filter (λ e. not (is_mature now e))
            (entries_of self.now.lists key.now.0 key.now.1)) }
        ensures cost { steps.new ≡ steps.old + 1 }
    {
        self.entries.unmatured_at(alloc, key, now, steps)
    }
}

/// Pays the balance of each mature entry of a delegator.
fn pay_all<B: Bank, L: Ledger>(
    alloc: Global,
    g: &mut Ground<B>,
    delegator: &Addr,
    entries: &[UnbondingEntry],
    steps: &mut Steps<L>,
) -> Result<(), HookFault>
    requires backed { IsBacked (B.holdings g.old.bank) }
    requires enough { mature_balances g.old.ctx.time entries.now
        ≤ balance_of (B.holdings g.old.bank) (account.Module holder.NotBonded)
        g.old.ctx.params.bond_denom }
    ensures paid { OnOk result (seen B.holdings g.new
        ≡ paid_back delegator.now entries.now (seen B.holdings g.old)) }
    ensures fault { IfErr result (λ fault. fault ≡ NoMemory) }
    ensures backed { IsBacked (B.holdings g.new.bank) }
    ensures undone { CanBeUndone B.marks g.old g.new }
    ensures bank { B.most_steps g.new.bank ≡ B.most_steps g.old.bank }
    ensures cost { B.most_steps g.old.bank ≤ 8 → steps.new ≤ steps.old
        + 8 * count_where (is_mature g.old.ctx.time) entries.now }
{
    for entry in entries {
        pay_one(alloc, g, delegator, entry, steps)?;
    }
    Ok(())
}

/// Pays the balance of an entry, if it is mature.
fn pay_one<B: Bank, L: Ledger>(
    alloc: Global,
    g: &mut Ground<B>,
    delegator: &Addr,
    entry: &UnbondingEntry,
    steps: &mut Steps<L>,
) -> Result<(), HookFault>
    requires backed { IsBacked (B.holdings g.old.bank) }
    requires enough { is_mature g.old.ctx.time entry.now ≡ true → entry.now.balance
        ≤ balance_of (B.holdings g.old.bank) (account.Module holder.NotBonded)
        g.old.ctx.params.bond_denom }
    ensures paid { OnOk result (seen B.holdings g.new
        ≡ paid_back delegator.now (entry.now ∷ []) (seen B.holdings g.old)) }
    ensures fault { IfErr result (λ fault. fault ≡ NoMemory) }
    ensures backed { IsBacked (B.holdings g.new.bank) }
    ensures undone { CanBeUndone B.marks g.old g.new }
    ensures bank { B.most_steps g.new.bank ≡ B.most_steps g.old.bank }
    ensures cost { B.most_steps g.old.bank ≤ 8 → steps.new ≤ steps.old
        + (if is_mature g.old.ctx.time entry.now then 8 else 0) }
{
    if !is_mature(entry, g.ctx.time) {
        return Ok(());
    }
    let to = Account::User(*delegator);
    send_from(alloc, g, Module::NotBonded, &to, entry.balance, steps)
}
