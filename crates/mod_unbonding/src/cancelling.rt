//! Cancelling: what is being undelegated is delegated again.

ghost use Rattle.std.specs.Prelude.{◌≡◌, ℕ, true, find, IfOk, OnOk, IsErr};
ghost use Rattle.base_shares.specs.Shares.{has_invalid_rate};
ghost use Rattle.base_roles.specs.Ground.{seen};
ghost use Rattle.base_roles.specs.Log.{Log};
ghost use Rattle.rule_modules.specs.Unbondings.{entries_of, with_entries, can_be_cancelled, lowered, cancelled};
ghost use Rattle.mod_staking.specs.Calls.{behind_log};
ghost use Rattle.mod_staking.specs.Scenes.{GoesOn};
ghost use Rattle.mod_entries.specs.Answers.{AnswersBoth, EntriesGoOn};
ghost use Rattle.mod_entries.specs.Kept.{behind, holding};
ghost use Rattle.mod_unbonding.specs.Calls.{AreWhole, cancellation};
ghost use Rattle.mod_unbonding.specs.Scenes.{IsUnbondingScene};

use crate::changing::{first_open, lowered};
use crate::unbondings::Unbondings;
use base_coins::Coin;
use base_roles::{
    Bank, Ground, Listed, MessageFault, Refusal, StakingHooks, UnbondingEntry, Validator,
    ValidatorView,
};
use base_table::TableFault;
use base_types::{Addr, BondStatus, Moment, Steps};
use mod_entries::is_wrong;
use mod_staking::{Origin, Staking};
use std::alloc::Global;
use std::sync::ledger::Ledger;

impl Unbondings {
    /// The message by which a delegator delegates an amount again that is being undelegated since a height
    /// (`msgServer.CancelUnbondingDelegation`). The first entry of that height that is not mature loses it.
    ///
    /// It is refused as `NonPositive`, else `WrongDenom`, else `NoValidator`, else `RateInvalid`, else
    /// `Jailed`, else `NoEntry`, else `CancelTooMuch`, else as delegating is.
    pub fn cancel<B: Bank, H: StakingHooks, L: Ledger>(
        &mut self,
        alloc: Global,
        g: &mut Ground<B>,
        hooks: &mut H,
        staking: &mut Staking,
        delegator: &Addr,
        operator: &Addr,
        coin: &Coin,
        created: u64,
        steps: &mut Steps<L>,
    ) -> Result<(), MessageFault>
        requires scene { IsUnbondingScene H.tells (H.holds hooks.old)
            (seen B.holdings g.old) staking.old.staked self.old.lists }

        ensures told { (h : H.Held) → H.holds hooks.old h → (log : Log)
            → AnswersBoth (cancelled H.tells.told delegator.now operator.now coin.now created
            self.old.lists (behind_log log staking.old.staked h (seen B.holdings g.old)))
            self.new.lists staking.new.staked (H.holds hooks.new)
            (seen B.holdings g.new) result }
        ensures scene { OnOk result (IsUnbondingScene H.tells (H.holds hooks.new)
            (seen B.holdings g.new) staking.new.staked self.new.lists) }
        ensures whole { (height : ℕ) → AreWhole height self.old.lists
            → OnOk result (AreWhole height self.new.lists) }

        // Whatever the answer.
        ensures goes_on { GoesOn B.marks B.most_steps H.marks
            g.old g.new hooks.old hooks.new staking.old staking.new result }
        ensures entries_go_on { EntriesGoOn self.old self.new result }
    {
        self.can_cancel(g, staking, delegator, operator, coin, created, steps)?;
        let now = g.ctx.time;
        let origin = Origin::Pool(BondStatus::Unbonded);
        let amount = coin.amount;
        staking.delegate(alloc, g, hooks, delegator, operator, amount, origin, steps)?;
        self.lower(alloc, &(*delegator, *operator), created, now, amount, steps)?;
        Ok(())
    }

    /// The validator, and the entry from which an amount is taken; or why that is refused.
    fn can_cancel<B: Bank, L: Ledger>(
        &self,
        g: &Ground<B>,
        staking: &Staking,
        delegator: &Addr,
        operator: &Addr,
        coin: &Coin,
        created: u64,
        steps: &mut Steps<L>,
    ) -> Result<(Validator, UnbondingEntry), Refusal>
        ensures { result ≡ cancellation delegator.now operator.now coin.now created
            self.now.lists staking.now.staked (seen B.holdings g.now) }
    {
        if coin.amount == 0 {
            return Err(Refusal::NonPositive);
        }
        if is_wrong(coin, &g.ctx) {
            return Err(Refusal::WrongDenom);
        }
        let v = match staking.validator(operator, steps) {
            Some(v) => *v,
            None => return Err(Refusal::NoValidator),
        };
        if has_invalid_rate(&v) {
            return Err(Refusal::RateInvalid);
        }
        if v.jailed {
            return Err(Refusal::Jailed);
        }
        let entry = match self.open_at(&(*delegator, *operator), created, g.ctx.time, steps) {
            Some(entry) => entry,
            None => return Err(Refusal::NoEntry),
        };
        if entry.balance < coin.amount {
            return Err(Refusal::CancelTooMuch);
        }
        Ok((v, entry))
    }

    /// The first entry that can be cancelled, or None where there is none.
    fn open_at<L: Ledger>(
        &self,
        key: &(Addr, Addr),
        created: u64,
        now: Moment,
        steps: &mut Steps<L>,
    ) -> Option<UnbondingEntry>
        ensures { result ≡ find (can_be_cancelled created now)
            (entries_of self.now.lists key.now.0 key.now.1) }
    {
        match self.at(key, steps) {
            Some(list) => first_open(list.as_slice(), created, now),
            None => None,
        }
    }

    /// Takes an amount from the first entry that can be cancelled.
    fn lower<L: Ledger>(
        &mut self,
        alloc: Global,
        key: &(Addr, Addr),
        created: u64,
        now: Moment,
        amount: u128,
        steps: &mut Steps<L>,
    ) -> Result<(), TableFault>
        ensures ok { OnOk result (self.new ≡ holding (with_entries key.now.0 key.now.1
            (lowered created now amount (entries_of self.old.lists key.now.0 key.now.1))
            self.old.lists) self.old) }
        ensures behind { behind self.new ≡ behind self.old }
        ensures spent { self.old.spent ≡ true → self.new.spent ≡ true }
        ensures spent_answer { self.old.spent ≡ true → IsErr result }
    {
        let list = self.lowered_at(alloc, key, created, now, amount, steps)?;
        self.set(key, list, steps)
    }

    /// The entries of a delegator and an operator once an amount is taken.
    fn lowered_at<L: Ledger>(
        &self,
        alloc: Global,
        key: &(Addr, Addr),
        created: u64,
        now: Moment,
        amount: u128,
        steps: &mut Steps<L>,
    ) -> Result<Listed<UnbondingEntry>, TableFault>
        ensures { IfOk result (λ list. list
            ≡ lowered created now amount (entries_of self.now.lists key.now.0 key.now.1)) }
    {
        match self.at(key, steps) {
            Some(list) => lowered(alloc, list.as_slice(), created, now, amount),
            None => lowered(alloc, &[], created, now, amount),
        }
    }
}

/// Whether shares of a validator stand over no tokens.
fn has_invalid_rate(v: &Validator) -> bool
    ensures { result ≡ has_invalid_rate v.now.tokens v.now.shares }
{
    v.tokens == 0 && v.shares.raw() > 0
}
