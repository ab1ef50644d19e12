//! What periods of validators and starts of delegations do, as hooks do it.

ghost use Rattle.std.specs.Prelude.{◌≡◌, ◌≢◌, ℕ, ◌+◌, ◌^◌, ◌≤◌, [], ◌++◌, List, None, Ok, All, IfOk, IfErr, OnOk};
ghost use Rattle.base_coins.specs.Coins.{Money};
ghost use Rattle.base_roles.specs.declared.facts.Fact.{Fact};
ghost use Rattle.base_roles.specs.Answers.{Answers};
ghost use Rattle.base_roles.specs.Ground.{seen, CanBeUndone};
ghost use Rattle.base_roles.specs.World.{View};
ghost use Rattle.base_roles.specs.declared.calls.Hook.TheVariants.{Created as created, Removed as removed, Modified as modified, Slashing as slashing};
ghost use Rattle.rule_modules.specs.Distribution.{Shared, distribution_told, current_taken, ended};
ghost use Rattle.rule_modules.specs.Purses.{pooled_told};
ghost use Rattle.mod_sums.specs.Faults.{IsExcessOf};
ghost use Rattle.mod_allocation.specs.Calls.{purse_at};
ghost use Rattle.mod_allocation.specs.Owed.{IsMoved};
ghost use Rattle.mod_periods.specs.Kept.{current_of, info_of, events_of};
ghost use Rattle.mod_periods.specs.Stands.{IsKept};
ghost use Rattle.mod_periods.specs.Steps.{running};
ghost use Rattle.mod_distribution.specs.Calls.{HasRecords, AreShares, CanBePaid, CarriesOut};
ghost use Rattle.mod_distribution.specs.Kept.{SharedGoesOn};
ghost use Rattle.mod_distribution.specs.Stands.{KeepsShared};

use crate::commissions::tell_some_commission;
use crate::distr::Distr;
use crate::paying::pay;
use base_coins::DecCoins;
use base_decimals::Dec;
use base_roles::{Bank, Facts, Ground, HookFault, Validator};
use base_shares::value_cut;
use base_types::{Addr, Steps};
use mod_sums::{per_token, tell_pooled};
use std::alloc::Global;
use std::sync::ledger::Ledger;

impl Distr {
    /// The records of a new validator: its first periods, and an empty purse (`initializeValidator`). The
    /// only error is `NoMemory`.
    pub(crate) fn make_records<L: Ledger>(
        &mut self,
        alloc: Global,
        v: &Validator,
        steps: &mut Steps<L>,
    ) -> Result<(), HookFault>
        requires kept { IsKept self.old.kept.rewards }
        requires new { current_of self.old.kept.rewards v.now.operator ≡ None }
        requires purse { purse_at self.old.kept.purses v.now.operator ≡ None }
        ensures told { (d : Shared) (u : View) → KeepsShared self.old.kept d → Answers
            (distribution_told d (created v.now) u) (KeepsShared self.new.kept) u result }
        ensures cost { steps.new ≤ steps.old + 3 }
        ensures goes_on { SharedGoesOn self.old self.new result }
    {
        self.f1.init(alloc, &v.operator, steps)?;
        self.alloc.init(alloc, &v.operator, steps)
    }

    /// Ends the period of a validator that runs: its current rewards are shared among its tokens, or join
    /// the pool where it has none (`IncrementValidatorPeriod`). Answers the period that ended. The order of
    /// facts is: what joined the pool, the period.
    ///
    /// The errors are `NoMemory` and `Over`, which comes exactly where an amount of the new ratio reaches
    /// 10^38 units, with the operands of the first such sum; else where the period is 10^18.
    pub(crate) fn end_period<B: Bank, L: Ledger>(
        &mut self,
        alloc: Global,
        g: &mut Ground<B>,
        v: &Validator,
        steps: &mut Steps<L>,
    ) -> Result<u64, HookFault>
        requires records { HasRecords self.old.kept v.now.operator }
        requires tokens { v.now.tokens ≤ 10 ^ 18 }

        ensures ended { (d : Shared) → KeepsShared self.old.kept d → CarriesOut
            (ended v.now d (seen B.holdings g.old)) self.new.kept (seen B.holdings g.new) result }
        ensures cost { steps.new ≤ steps.old + 10 }

        // What the calls behind it need.
        ensures records { OnOk result (HasRecords self.new.kept v.now.operator) }
        ensures last { IfOk result
            (λ period. period + 1 ≡ running self.new.kept.rewards v.now.operator) }
        ensures starts { OnOk result
            (self.new.kept.rewards.starts ≡ self.old.kept.rewards.starts) }
        ensures events { OnOk result (events_of self.new.kept.rewards v.now.operator
            ≡ events_of self.old.kept.rewards v.now.operator) }
        ensures free { IfOk result (λ period. All (λ e. e.period ≢ period)
            (events_of self.new.kept.rewards v.now.operator)) }
        ensures moved { OnOk result (IsMoved self.old.kept.purses [] [] self.new.kept.purses) }
        ensures bank { g.new.bank ≡ g.old.bank }

        // Whatever the answer.
        ensures undone { CanBeUndone B.marks g.old g.new }
        ensures goes_on { SharedGoesOn self.old self.new result }
    {
        let increment = self.take_current(alloc, &mut g.facts, v, steps)?;
        self.f1
            .end_period(alloc, &mut g.facts, &v.operator, &increment, steps)
    }

    /// Takes the current rewards of a validator: into the increment of its ratio, which it answers, or into
    /// the pool where the validator has no tokens, and that is told.
    fn take_current<L: Ledger>(
        &mut self,
        alloc: Global,
        facts: &mut Facts,
        v: &Validator,
        steps: &mut Steps<L>,
    ) -> Result<DecCoins, HookFault>
        requires records { HasRecords self.old.kept v.now.operator }
        requires tokens { v.now.tokens ≤ 10 ^ 18 }

        ensures taken { IfOk result (λ increment. (lost : Money)
            × ((current_taken v.now self.old.kept.purses
            ≡ Ok (increment, lost, self.new.kept.purses))
            × (facts.new ≡ pooled_told lost facts.old))) }
        ensures fault { IfErr result (IsExcessOf (current_taken v.now self.old.kept.purses)) }
        ensures cost { steps.new ≤ steps.old + 4 }

        ensures records { OnOk result (HasRecords self.new.kept v.now.operator) }
        ensures moved { OnOk result (IsMoved self.old.kept.purses [] [] self.new.kept.purses) }

        // Whatever the answer.
        ensures rewards { self.new.kept.rewards ≡ self.old.kept.rewards }
        ensures payees { self.new.kept.withdraw ≡ self.old.kept.withdraw }
        ensures facts { (more : List Fact) × (facts.new ≡ facts.old ++ more) }
        ensures goes_on { SharedGoesOn self.old self.new result }
    {
        let is_empty = v.tokens == 0;
        let current = self
            .alloc
            .take_current(alloc, &v.operator, is_empty, facts, steps)?;
        if is_empty {
            return Ok(DecCoins::new(alloc));
        }
        per_token(alloc, &current, v.tokens)
    }

    /// Starts the rewards of a delegation behind the last ended period, with the value of its shares, cut
    /// (`initializeDelegation`), and tells it. The only error is `NoMemory`.
    pub(crate) fn start<B: Bank, L: Ledger>(
        &mut self,
        g: &mut Ground<B>,
        v: &Validator,
        delegator: &Addr,
        shares: Dec,
        steps: &mut Steps<L>,
    ) -> Result<(), HookFault>
        requires records { HasRecords self.old.kept v.now.operator }
        requires shares { AreShares v.now shares }
        requires new { info_of self.old.kept.rewards delegator.now v.now.operator ≡ None }
        ensures told { (d : Shared) → KeepsShared self.old.kept d → Answers (distribution_told d
            (modified v.now delegator.now shares) (seen B.holdings g.old))
            (KeepsShared self.new.kept) (seen B.holdings g.new) result }
        ensures cost { steps.new ≤ steps.old + 4 }

        // Whatever the answer.
        ensures bank { g.new.bank ≡ g.old.bank }
        ensures undone { CanBeUndone B.marks g.old g.new }
        ensures goes_on { SharedGoesOn self.old self.new result }
    {
        let stake = value_cut(v.tokens, v.shares, shares);
        self.f1.start(
            &mut g.facts,
            delegator,
            &v.operator,
            stake,
            g.ctx.height,
            steps,
        )
    }

    /// A slash ends the period of a validator and is recorded at it (`updateValidatorSlashFraction`). The
    /// errors are those of the period's end.
    pub(crate) fn record_slash<B: Bank, L: Ledger>(
        &mut self,
        alloc: Global,
        g: &mut Ground<B>,
        v: &Validator,
        fraction: Dec,
        steps: &mut Steps<L>,
    ) -> Result<(), HookFault>
        requires records { HasRecords self.old.kept v.now.operator }
        requires tokens { v.now.tokens ≤ 10 ^ 18 }
        requires part { fraction ≤ 10 ^ 18 }
        requires heights { All (λ e. e.height ≤ g.old.ctx.height)
            (events_of self.old.kept.rewards v.now.operator) }
        ensures told { (d : Shared) → KeepsShared self.old.kept d → Answers (distribution_told d
            (slashing v.now fraction) (seen B.holdings g.old)) (KeepsShared self.new.kept)
            (seen B.holdings g.new) result }
        ensures cost { steps.new ≤ steps.old + 13 }

        // Whatever the answer.
        ensures bank { g.new.bank ≡ g.old.bank }
        ensures undone { CanBeUndone B.marks g.old g.new }
        ensures goes_on { SharedGoesOn self.old self.new result }
    {
        let period = self.end_period(alloc, g, v, steps)?;
        self.f1
            .slash_event(&v.operator, g.ctx.height, period, fraction, steps)
    }

    /// Removes a validator's records (`AfterValidatorRemoved`): its commission, as far as what is
    /// outstanding goes, is paid in whole coins; its fractions and the rest of what is outstanding join the
    /// pool. The order of facts is: the transfer and the commission where something is paid, what joined
    /// the pool. The only error is `NoMemory`.
    pub(crate) fn remove_records<B: Bank, L: Ledger>(
        &mut self,
        alloc: Global,
        g: &mut Ground<B>,
        v: &Validator,
        steps: &mut Steps<L>,
    ) -> Result<(), HookFault>
        requires records { HasRecords self.old.kept v.now.operator }
        requires none { (delegator : List ℕ)
            → info_of self.old.kept.rewards delegator v.now.operator ≡ None }
        requires paid { CanBePaid self.old.kept (seen B.holdings g.old) }
        ensures told { (d : Shared) → KeepsShared self.old.kept d → Answers
            (distribution_told d (removed v.now) (seen B.holdings g.old))
            (KeepsShared self.new.kept) (seen B.holdings g.new) result }

        // Whatever the answer.
        ensures bank { B.most_steps g.new.bank ≡ B.most_steps g.old.bank }
        ensures undone { CanBeUndone B.marks g.old g.new }
        ensures goes_on { SharedGoesOn self.old self.new result }
    {
        let to = self.payee(&v.operator, steps);
        let (coins, rest) = self.alloc.close(alloc, &v.operator, steps)?;
        self.f1.clear(&v.operator, steps)?;
        pay(alloc, g, &to, &coins, steps)?;
        tell_some_commission(&mut g.facts, &v.operator, &to, coins)?;
        tell_pooled(&mut g.facts, rest)
    }
}
