//! Undelegating: shares are unbonded, and what goes out is kept as an entry.

ghost use Rattle.std.specs.Prelude.{◌≡◌, ℕ, ◌^◌, ◌≤◌, true, length, IfOk, OnOk, IfErr, IsErr};
ghost use Rattle.base_types.specs.declared.account.Account.TheVariants as account;
ghost use Rattle.base_types.specs.declared.account.Module.TheVariants as holder;
ghost use Rattle.base_roles.specs.declared.faults.HookFault.TheVariants as hook;
ghost use Rattle.base_roles.specs.Ground.{seen, CanBeUndone};
ghost use Rattle.base_roles.specs.Holdings.{IsBacked, balance_of};
ghost use Rattle.base_roles.specs.Log.{Log};
ghost use Rattle.base_roles.specs.Staked.{is_bonded};
ghost use Rattle.rule_modules.specs.Unbondings.{entries_of, with_entries, grown, undelegated};
ghost use Rattle.mod_staking.specs.Calls.{IsSoundStake, behind_log};
ghost use Rattle.mod_staking.specs.Scenes.{GoesOn};
ghost use Rattle.mod_entries.specs.Answers.{AnswersBoth, EntriesGoOn};
ghost use Rattle.mod_entries.specs.Kept.{behind, holding};
ghost use Rattle.mod_unbonding.specs.Calls.{AreSoundLists, AreWhole, undelegation, moved_out};
ghost use Rattle.mod_unbonding.specs.Scenes.{IsUnbondingScene};

use crate::changing::grown;
use crate::unbondings::Unbondings;
use base_coins::Coin;
use base_decimals::Dec;
use base_roles::{
    Bank, Ground, HookFault, Listed, MessageFault, Refusal, StakingHooks, Unbonder, UnbondingEntry,
    Validator, ValidatorView,
};
use base_table::TableFault;
use base_types::{Account, Addr, BondStatus, Module, Moment, Steps};
use mod_entries::{completion, is_wrong, shares_to_unbond};
use mod_staking::{Staking, send_from};
use std::alloc::Global;
use std::sync::ledger::Ledger;

impl Unbondings {
    /// The message by which a delegator takes an amount out of a delegation (`msgServer.Undelegate`): its
    /// shares are unbonded; the amount that goes out moves from the bonded to the not-bonded account, where
    /// the validator was bonded; and an entry is made of it, also of 0. Answers when the entry completes.
    ///
    /// It is refused as `NonPositive`, else `NoValidator`, else `NoDelegation`, else `NoTokens`, else
    /// `TooManyShares`, else `WrongDenom`, else `UnbondingsFull`, else `Overflow` where a hook exceeds.
    pub fn undelegate<B: Bank, H: StakingHooks, L: Ledger>(
        &mut self,
        alloc: Global,
        g: &mut Ground<B>,
        hooks: &mut H,
        staking: &mut Staking,
        delegator: &Addr,
        operator: &Addr,
        coin: &Coin,
        steps: &mut Steps<L>,
    ) -> Result<Moment, MessageFault>
        requires scene { IsUnbondingScene H.tells (H.holds hooks.old)
            (seen B.holdings g.old) staking.old.staked self.old.lists }
        requires whole { AreWhole g.old.ctx.height self.old.lists }

        ensures told { (h : H.Held) → H.holds hooks.old h → (log : Log)
            → AnswersBoth (undelegated H.tells.told delegator.now operator.now coin.now
            self.old.lists (behind_log log staking.old.staked h (seen B.holdings g.old)))
            self.new.lists staking.new.staked (H.holds hooks.new)
            (seen B.holdings g.new) result }
        ensures scene { OnOk result (IsUnbondingScene H.tells (H.holds hooks.new)
            (seen B.holdings g.new) staking.new.staked self.new.lists) }
        ensures whole { (height : ℕ) → AreWhole height self.old.lists
            → OnOk result (AreWhole height self.new.lists) }

        // Whatever the answer.
        ensures goes_on { GoesOn B.marks B.most_steps H.marks
            g.old g.new hooks.old hooks.new staking.old staking.new result }
        ensures entries_go_on { EntriesGoOn self.old self.new result }
    {
        let asked = self.can_undelegate(g, staking, delegator, operator, coin, steps)?;
        let height = g.ctx.height;
        let completes = completion(&g.ctx);
        let out = staking.unbond(alloc, g, hooks, delegator, operator, asked.1, steps)?;
        move_out(alloc, g, is_bonded(asked.0.status), out, steps)?;
        self.add(
            alloc,
            &(*delegator, *operator),
            height,
            completes,
            out,
            steps,
        )?;
        Ok(completes)
    }

    /// The validator, and the shares that an amount to undelegate stands for; or why it is refused.
    fn can_undelegate<B: Bank, L: Ledger>(
        &self,
        g: &Ground<B>,
        staking: &Staking,
        delegator: &Addr,
        operator: &Addr,
        coin: &Coin,
        steps: &mut Steps<L>,
    ) -> Result<(Validator, Dec), Refusal>
        requires sound { IsSoundStake staking.now.staked }
        ensures { result ≡ undelegation delegator.now operator.now coin.now
            self.now.lists staking.now.staked (seen B.holdings g.now) }
    {
        if coin.amount == 0 {
            return Err(Refusal::NonPositive);
        }
        let v = match staking.validator(operator, steps) {
            Some(v) => *v,
            None => return Err(Refusal::NoValidator),
        };
        let held = staking.shares_of(delegator, operator, steps);
        let (_, part) = shares_to_unbond(&held, &v, coin.amount)?;
        if is_wrong(coin, &g.ctx) {
            return Err(Refusal::WrongDenom);
        }
        if g.ctx.params.max_entries <= self.count(&(*delegator, *operator), steps) as u64 {
            return Err(Refusal::UnbondingsFull);
        }
        Ok((v, part))
    }

    /// How many entries a delegator and an operator have.
    fn count<L: Ledger>(&self, key: &(Addr, Addr), steps: &mut Steps<L>) -> usize
        ensures { result ≡ length (entries_of self.now.lists key.now.0 key.now.1) }
    {
        self.entries.count(key, steps)
    }

    /// Adds an entry, or lets one grow.
    fn add<L: Ledger>(
        &mut self,
        alloc: Global,
        key: &(Addr, Addr),
        height: u64,
        completes: Moment,
        amount: u128,
        steps: &mut Steps<L>,
    ) -> Result<(), TableFault>
        requires entries { AreSoundLists self.old.lists }
        requires amount { amount ≤ 10 ^ 18 }
        ensures ok { OnOk result (self.new ≡ holding (with_entries key.now.0 key.now.1
            (grown height completes amount (entries_of self.old.lists key.now.0 key.now.1))
            self.old.lists) self.old) }
        ensures behind { behind self.new ≡ behind self.old }
        ensures spent { self.old.spent ≡ true → self.new.spent ≡ true }
        ensures spent_answer { self.old.spent ≡ true → IsErr result }
    {
        let list = self.grown_at(alloc, key, height, completes, amount, steps)?;
        self.set(key, list, steps)
    }

    /// The entries of a delegator and an operator with one more, or with one grown.
    fn grown_at<L: Ledger>(
        &self,
        alloc: Global,
        key: &(Addr, Addr),
        height: u64,
        completes: Moment,
        amount: u128,
        steps: &mut Steps<L>,
    ) -> Result<Listed<UnbondingEntry>, TableFault>
        requires entries { AreSoundLists self.now.lists }
        requires amount { amount ≤ 10 ^ 18 }
        ensures { IfOk result (λ list. list
            ≡ grown height completes amount (entries_of self.now.lists key.now.0 key.now.1)) }
    {
        match self.at(key, steps) {
            Some(list) => grown(alloc, list.as_slice(), height, completes, amount),
            None => grown(alloc, &[], height, completes, amount),
        }
    }
}

/// Whether a validator of this status is bonded.
fn is_bonded(status: BondStatus) -> bool
    ensures { result ≡ is_bonded status }
{
    match status {
        BondStatus::Bonded => true,
        BondStatus::Unbonding | BondStatus::Unbonded => false,
    }
}

/// Moves an amount from the bonded to the not-bonded account, if the validator was bonded.
fn move_out<B: Bank, L: Ledger>(
    alloc: Global,
    g: &mut Ground<B>,
    was_bonded: bool,
    amount: u128,
    steps: &mut Steps<L>,
) -> Result<(), HookFault>
    requires backed { IsBacked (B.holdings g.old.bank) }
    requires most { amount ≤ 10 ^ 18 }
    requires enough { was_bonded ≡ true → amount ≤ balance_of (B.holdings g.old.bank)
        (account.Module holder.Bonded) g.old.ctx.params.bond_denom }
    ensures moved { OnOk result
        (seen B.holdings g.new ≡ moved_out was_bonded amount (seen B.holdings g.old)) }
    ensures fault { IfErr result (λ fault. fault ≡ hook.NoMemory) }
    ensures backed { IsBacked (B.holdings g.new.bank) }
    ensures undone { CanBeUndone B.marks g.old g.new }
    ensures bank { B.most_steps g.new.bank ≡ B.most_steps g.old.bank }
{
    if !was_bonded {
        return Ok(());
    }
    let to = Account::Module(Module::NotBonded);
    send_from(alloc, g, Module::Bonded, &to, amount, steps)
}
