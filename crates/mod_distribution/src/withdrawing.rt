//! Withdrawals of rewards.

ghost use Rattle.std.specs.Prelude.{◌≡◌, true, None, OnOk};
ghost use Rattle.base_roles.specs.declared.refusal.Refusal.TheVariants.{Overflow};
ghost use Rattle.base_roles.specs.Ground.{seen, CanBeUndone};
ghost use Rattle.base_roles.specs.Hooks.{MayCall};
ghost use Rattle.base_roles.specs.Owing.{Lists};
ghost use Rattle.base_roles.specs.Flow.{stopping};
ghost use Rattle.base_roles.specs.declared.calls.Hook.TheVariants.{Modifying as modifying};
ghost use Rattle.rule_modules.specs.Distribution.{Shared, reward_due, reward_withdrawn, reward_renewed};
ghost use Rattle.mod_periods.specs.Kept.{info_of};
ghost use Rattle.mod_distribution.specs.Calls.{HasRecords, HasStarted, AreShares, CanBePaid, StandFor, reward_paid, CarriesOut, CarriesOutOrRefuses};
ghost use Rattle.mod_distribution.specs.Kept.{SharedGoesOn};
ghost use Rattle.mod_distribution.specs.Stands.{KeepsShared};
ghost use Rattle.mod_distribution.specs.Tells.{distribution_tells};

use crate::distr::Distr;
use crate::paying::pay;
use base_coins::{Coins, DecCoins};
use base_decimals::Dec;
use base_roles::{Bank, Fact, Ground, HookFault, MessageFault, Validator};
use base_shares::value_even;
use base_types::{Addr, Copied, Steps};
use mod_sums::tell_pooled;
use std::alloc::Global;
use std::sync::ledger::Ledger;

impl Distr {
    /// Withdraws the reward of a delegation of so many shares, and starts its rewards anew
    /// (`WithdrawDelegationRewards`): the period ends; the reward, as far as what is outstanding goes,
    /// leaves; its whole coins are paid to the delegator's withdraw address, and its fractions join the
    /// pool. Answers the coins that were paid. The order of facts is: those of the period's end, the
    /// transfer, what joined the pool, the payment, the start.
    ///
    /// It is refused as `Overflow` exactly where the end of the period or the reward exceeds, with the
    /// operands of the first excess.
    pub fn withdraw_reward<B: Bank, L: Ledger>(
        &mut self,
        alloc: Global,
        g: &mut Ground<B>,
        v: &Validator,
        delegator: &Addr,
        shares: Dec,
        steps: &mut Steps<L>,
    ) -> Result<Coins, MessageFault>
        requires may { MayCall (KeepsShared self.old.kept) distribution_tells
            (modifying v.now delegator.now shares) (seen B.holdings g.old) }

        ensures withdrawn { (d : Shared) → KeepsShared self.old.kept d → CarriesOutOrRefuses
            (stopping Overflow (reward_renewed v.now delegator.now shares d
            (seen B.holdings g.old))) self.new.kept (seen B.holdings g.new) result }
        ensures stand { (l : Lists) → StandFor self.old.kept (seen B.holdings g.old) l
            → l.started delegator.now v.now.operator ≡ true
            → OnOk result (StandFor self.new.kept (seen B.holdings g.new) l) }

        // Whatever the answer.
        ensures undone { CanBeUndone B.marks g.old g.new }
        ensures bank { B.most_steps g.new.bank ≡ B.most_steps g.old.bank }
        ensures goes_on { SharedGoesOn self.old self.new result }
    {
        let coins = self.take_reward(alloc, g, v, delegator, shares, steps)?;
        self.start(g, v, delegator, shares, steps)?;
        Ok(coins)
    }

    /// Withdraws the reward of a delegation, whose rewards then are not started
    /// (`withdrawDelegationRewards`). Answers the coins that were paid.
    pub(crate) fn take_reward<B: Bank, L: Ledger>(
        &mut self,
        alloc: Global,
        g: &mut Ground<B>,
        v: &Validator,
        delegator: &Addr,
        shares: Dec,
        steps: &mut Steps<L>,
    ) -> Result<Coins, HookFault>
        requires started { HasStarted self.old.kept delegator.now v.now.operator }
        requires shares { AreShares v.now shares }
        requires paid { CanBePaid self.old.kept (seen B.holdings g.old) }

        ensures withdrawn { (d : Shared) → KeepsShared self.old.kept d → CarriesOut
            (reward_withdrawn v.now delegator.now shares d (seen B.holdings g.old))
            self.new.kept (seen B.holdings g.new) result }

        // What a start behind it needs.
        ensures records { OnOk result (HasRecords self.new.kept v.now.operator) }
        ensures gone { OnOk result
            (info_of self.new.kept.rewards delegator.now v.now.operator ≡ None) }

        // Whatever the answer.
        ensures undone { CanBeUndone B.marks g.old g.new }
        ensures bank { B.most_steps g.new.bank ≡ B.most_steps g.old.bank }
        ensures goes_on { SharedGoesOn self.old self.new result }
    {
        let full = self.reward_due(alloc, g, v, delegator, shares, steps)?;
        self.pay_reward(alloc, g, &v.operator, delegator, &full, steps)
    }

    /// Ends the period of a delegation's validator, and answers the delegation's reward up to it.
    fn reward_due<B: Bank, L: Ledger>(
        &mut self,
        alloc: Global,
        g: &mut Ground<B>,
        v: &Validator,
        delegator: &Addr,
        shares: Dec,
        steps: &mut Steps<L>,
    ) -> Result<DecCoins, HookFault>
        requires started { HasStarted self.old.kept delegator.now v.now.operator }
        requires shares { AreShares v.now shares }

        ensures due { (d : Shared) → KeepsShared self.old.kept d → CarriesOut
            (reward_due v.now delegator.now shares d (seen B.holdings g.old))
            self.new.kept (seen B.holdings g.new) result }

        // What the payment behind it needs.
        ensures started { OnOk result (HasStarted self.new.kept delegator.now v.now.operator) }
        ensures paid { CanBePaid self.old.kept (seen B.holdings g.old)
            → OnOk result (CanBePaid self.new.kept (seen B.holdings g.new)) }

        // Whatever the answer.
        ensures undone { CanBeUndone B.marks g.old g.new }
        ensures bank { B.most_steps g.new.bank ≡ B.most_steps g.old.bank }
        ensures goes_on { SharedGoesOn self.old self.new result }
    {
        let period = self.end_period(alloc, g, v, steps)?;
        let value = value_even(v.tokens, v.shares, shares);
        self.f1.reward(
            alloc,
            delegator,
            &v.operator,
            period,
            g.ctx.height,
            value,
            steps,
        )
    }

    /// Pays a reward that is due, as far as what is outstanding goes, and ends the delegation's rewards.
    /// Answers the coins that were paid.
    fn pay_reward<B: Bank, L: Ledger>(
        &mut self,
        alloc: Global,
        g: &mut Ground<B>,
        operator: &Addr,
        delegator: &Addr,
        full: &DecCoins,
        steps: &mut Steps<L>,
    ) -> Result<Coins, HookFault>
        requires started { HasStarted self.old.kept delegator.now operator.now }
        requires paid { CanBePaid self.old.kept (seen B.holdings g.old) }

        ensures paid { (d : Shared) → KeepsShared self.old.kept d → CarriesOut
            (reward_paid operator.now delegator.now full.now d (seen B.holdings g.old))
            self.new.kept (seen B.holdings g.new) result }
        ensures records { OnOk result (HasRecords self.new.kept operator.now) }
        ensures gone { OnOk result
            (info_of self.new.kept.rewards delegator.now operator.now ≡ None) }

        // Whatever the answer.
        ensures undone { CanBeUndone B.marks g.old g.new }
        ensures bank { B.most_steps g.new.bank ≡ B.most_steps g.old.bank }
        ensures goes_on { SharedGoesOn self.old self.new result }
    {
        let to = self.payee(delegator, steps);
        let (reward, coins, rest) = self.alloc.pay_out(alloc, operator, full, steps)?;
        self.f1.stop(alloc, delegator, operator, steps)?;
        pay(alloc, g, &to, &coins, steps)?;
        tell_pooled(&mut g.facts, rest)?;
        let told = coins.copied()?;
        g.facts.push(Fact::Paid {
            delegator: *delegator,
            validator: *operator,
            to,
            reward,
            coins: told,
        })?;
        Ok(coins)
    }
}
