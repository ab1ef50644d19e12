//! The records of F1 fee distribution: periods, starts and slash events, and the rewards that follow
//! (`x/distribution`).

ghost use Rattle.std.specs.Prelude.{◌≡◌, ℕ, List, ◌+◌, ◌*◌, ◌≤◌, ◌≢◌, ◌^◌, true, [], ◌∷◌, ◌++◌, length, is_some, Some, None, All, OnOk, OnErr, IfOk, IfErr, IsErr};
ghost use Rattle.base_roles.specs.declared.faults.HookFault.TheVariants.{NoMemory};
ghost use Rattle.base_roles.specs.declared.facts.Fact.TheVariants as fact;
ghost use Rattle.base_roles.specs.declared.entities.StartingInfo.{StartingInfo};
ghost use Rattle.mod_periods.specs.Answers.{Ends, Gives, OnLimit};
ghost use Rattle.mod_periods.specs.Earning.{events_since};
ghost use Rattle.mod_periods.specs.Kept.{current_of, info_of, events_of, new_records};
ghost use Rattle.rule_modules.specs.Periods.{Rewards, initial_records, period_ended, periods_of, last_ended, event_recorded, start_of, reward_at, reward_after, with_periods, without_periods, with_start, without_start};
ghost use Rattle.mod_periods.specs.Scenes.{HasPeriods, IsStarted, RecordsGoOn};
ghost use Rattle.mod_periods.specs.Stands.{KeepsRewards, IsKept, no_rewards, started_at, references_at, if_some};
ghost use Rattle.mod_periods.specs.Steps.{running};

use crate::tables::Tables;
use base_coins::DecCoins;
use base_decimals::Dec;
use base_roles::{Fact, Facts, HookFault, SlashEvent, StartingInfo};
use base_types::{Addr, Copied, Steps};
use std::alloc::Global;
use std::marker::Model;
use std::sync::ledger::Ledger;

/// Periods, starts and slash events, in tables. Contracts see the records that stand, those at each open
/// mark, those at the last settling, and whether memory was wanting in a change.
///
/// The records stand for plain ones, of which none is ever deleted: `KeepsRewards` says how. Each call carries
/// them from plain records to those that the rule leaves.
#[derive(Drop)]
pub struct F1 {
    pub(crate) tables: Tables,
    pub(crate) alloc: Global,
}

impl Model for F1 {
    ghost use Rattle.mod_periods.specs.Kept.{Recorded};

    ghost Value = { Recorded };

    ghost view = { λ f. f.tables };
}

impl F1 {
    /// No records, which stand for no rewards. Takes no memory.
    pub fn new(alloc: Global) -> F1
        ensures new { result ≡ new_records }
        ensures kept { KeepsRewards result.kept no_rewards }
    {
        F1 {
            tables: Tables::new(alloc),
            alloc,
        }
    }

    /// The records of a new validator: period 0 has ended with no reward, and period 1 runs (Cosmos SDK:
    /// `initializeValidator`). The only error is `NoMemory`.
    pub fn init<L: Ledger>(
        &mut self,
        alloc: Global,
        operator: &Addr,
        steps: &mut Steps<L>,
    ) -> Result<(), HookFault>
        requires kept { IsKept self.old.kept }
        requires new { current_of self.old.kept operator.now ≡ None }
        ensures made { (r : Rewards) → KeepsRewards self.old.kept r → OnOk result
            (KeepsRewards self.new.kept (with_periods operator.now initial_records r)) }
        ensures fault { IfErr result (λ fault. fault ≡ NoMemory) }
        ensures records { RecordsGoOn self.old self.new result }
        ensures cost { steps.new ≤ steps.old + 2 }
    {
        self.tables.known();
        self.tables.make(alloc, operator, steps)?;
        Ok(())
    }

    /// Ends the period of a validator that runs, with an increment of the ratio, in units of 10^-18 per token
    /// (`IncrementValidatorPeriod`). Answers the period that ended, and tells it with its ratio.
    ///
    /// The errors are `NoMemory` and `Over`, which comes exactly where an amount of the new ratio reaches 10^38
    /// units, with the operands of the first such sum; else where the period is 10^18. Then all records stay as they were.
    pub fn end_period<L: Ledger>(
        &mut self,
        alloc: Global,
        facts: &mut Facts,
        operator: &Addr,
        increment: &DecCoins,
        steps: &mut Steps<L>,
    ) -> Result<u64, HookFault>
        requires validator { HasPeriods self.old.kept operator.now }
        ensures ended { (r : Rewards) → KeepsRewards self.old.kept r
            → Ends operator.now r facts.old
            (period_ended increment.now (periods_of r operator.now))
            self.new.kept facts.new result }
        ensures untold { OnErr result (facts.new ≡ facts.old) }
        ensures limit { OnLimit result (self.new.kept ≡ self.old.kept) }
        ensures records { RecordsGoOn self.old self.new result }
        ensures cost { steps.new ≤ steps.old + 6 }
    {
        self.tables.known();
        // It tells that the increment is a list of coins.
        let _ = increment.len();
        let (period, ratio) = match self.tables.next_ratio(alloc, operator, increment, steps) {
            Ok(next) => next,
            Err(fault) => return Err(fault),
        };
        let told = ratio.copied()?;
        self.tables.end(alloc, operator, period, ratio, steps)?;
        facts.push(Fact::Period {
            validator: *operator,
            period,
            ratio: told,
        })?;
        Ok(period)
    }

    /// Starts the rewards of a delegation behind the last ended period, with a stake in units of 10^-18
    /// (`initializeDelegation`), and tells it. The only error is `NoMemory`.
    pub fn start<L: Ledger>(
        &mut self,
        facts: &mut Facts,
        delegator: &Addr,
        operator: &Addr,
        stake: Dec,
        height: u64,
        steps: &mut Steps<L>,
    ) -> Result<(), HookFault>
        requires validator { HasPeriods self.old.kept operator.now }
        requires new { info_of self.old.kept delegator.now operator.now ≡ None }
        ensures started { (r : Rewards) → KeepsRewards self.old.kept r
            → OnOk result (KeepsRewards self.new.kept (with_start delegator.now operator.now
            (started_at (periods_of r operator.now) stake height) r)) }
        ensures told { (r : Rewards) → KeepsRewards self.old.kept r
            → OnOk result (facts.new ≡ facts.old ++ fact.Started delegator.now operator.now
            (last_ended (periods_of r operator.now)) stake ∷ []) }
        ensures fault { IfErr result (λ fault. fault ≡ NoMemory) }
        ensures untold { OnErr result (facts.new ≡ facts.old) }
        ensures records { RecordsGoOn self.old self.new result }
        ensures cost { steps.new ≤ steps.old + 4 }
    {
        self.tables.known();
        let period = self.tables.current(operator, steps).unwrap() - 1;
        let info = StartingInfo {
            period,
            stake,
            height,
        };
        self.tables.put_info(delegator, operator, info, steps)?;
        self.tables.refer(operator, period, steps)?;
        facts.push(Fact::Started {
            delegator: *delegator,
            validator: *operator,
            period,
            stake,
        })?;
        Ok(())
    }

    /// Records a slash of a validator at the period just ended, to which no slash event refers yet
    /// (`updateValidatorSlashFraction`). The fraction is at most one, and the height not below that of any
    /// event of the operator. The only error is `NoMemory`.
    pub fn slash_event<L: Ledger>(
        &mut self,
        operator: &Addr,
        height: u64,
        period: u64,
        fraction: Dec,
        steps: &mut Steps<L>,
    ) -> Result<(), HookFault>
        requires validator { HasPeriods self.old.kept operator.now }
        requires last { period + 1 ≡ running self.old.kept operator.now }
        requires free { All (λ e. e.period ≢ period) (events_of self.old.kept operator.now) }
        requires heights { All (λ e. e.height ≤ height) (events_of self.old.kept operator.now) }
        requires part { fraction ≤ 10 ^ 18 }
        ensures recorded { (r : Rewards) → KeepsRewards self.old.kept r
            → OnOk result (KeepsRewards self.new.kept (with_periods operator.now
            (event_recorded height fraction (periods_of r operator.now)) r)) }
        ensures fault { IfErr result (λ fault. fault ≡ NoMemory) }
        ensures records { RecordsGoOn self.old self.new result }
        ensures cost { steps.new ≤ steps.old + 3 }
    {
        self.tables.known();
        let event = SlashEvent {
            height,
            period,
            fraction,
        };
        self.tables.put_event(operator, event, steps)?;
        Ok(self.tables.refer(operator, period, steps)?)
    }

    /// Ends the rewards of a delegation: its start and the reference are gone (`withdrawDelegationRewards`).
    /// The only error is `NoMemory`.
    pub fn stop<L: Ledger>(
        &mut self,
        alloc: Global,
        delegator: &Addr,
        operator: &Addr,
        steps: &mut Steps<L>,
    ) -> Result<(), HookFault>
        requires delegation { IsStarted self.old.kept delegator.now operator.now }
        ensures stopped { (r : Rewards) → KeepsRewards self.old.kept r
            → OnOk result
            (KeepsRewards self.new.kept (without_start delegator.now operator.now r)) }
        ensures fault { IfErr result (λ fault. fault ≡ NoMemory) }
        ensures records { RecordsGoOn self.old self.new result }
        ensures cost { steps.new ≤ steps.old + 3 }
    {
        self.tables.known();
        let info = self.tables.take_info(delegator, operator, steps)?.unwrap();
        self.tables.release(alloc, operator, info.period, steps)?;
        Ok(())
    }

    /// Deletes all records of a validator, of whose delegations none is started (`AfterValidatorRemoved` of
    /// `x/distribution`). The only error is `NoMemory`.
    pub fn clear<L: Ledger>(
        &mut self,
        operator: &Addr,
        steps: &mut Steps<L>,
    ) -> Result<(), HookFault>
        requires validator { HasPeriods self.old.kept operator.now }
        requires none { (delegator : List ℕ) → info_of self.old.kept delegator operator.now ≡ None }
        ensures cleared { (r : Rewards) → KeepsRewards self.old.kept r
            → OnOk result (KeepsRewards self.new.kept (without_periods operator.now r)) }
        ensures fault { IfErr result (λ fault. fault ≡ NoMemory) }
        ensures records { RecordsGoOn self.old self.new result }
    {
        self.tables.known();
        self.tables.clear(operator, steps)?;
        Ok(())
    }

    /// The period of a validator that runs: None exactly where it has no records
    /// (`GetValidatorCurrentRewards`). Takes no memory.
    pub fn current<L: Ledger>(&self, operator: &Addr, steps: &mut Steps<L>) -> Option<u64>
        ensures period { result ≡ current_of self.now.kept operator.now }
        ensures cost { steps.new ≡ steps.old + 1 }
    {
        self.tables.current(operator, steps)
    }

    /// Where the rewards of a delegation begin: None exactly where none are started
    /// (`GetDelegatorStartingInfo`). Takes no memory.
    pub fn starting_info<L: Ledger>(
        &self,
        delegator: &Addr,
        operator: &Addr,
        steps: &mut Steps<L>,
    ) -> Option<StartingInfo>
        ensures info { result ≡ info_of self.now.kept delegator.now operator.now }
        ensures cost { steps.new ≡ steps.old + 1 }
    {
        self.tables.info(delegator, operator, steps)
    }

    /// Of how many delegations the rewards are started, at all validators. Takes no memory.
    pub fn starts(&self) -> usize
        ensures { result ≡ length self.now.kept.starts }
    {
        self.tables.starts.len()
    }

    /// The slash events of a validator that are not below a height, by height, then by period
    /// (`IterateValidatorSlashEventsBetween`). The walk is over these alone. The only error is `NoMemory`.
    pub fn slash_events<L: Ledger>(
        &self,
        alloc: Global,
        operator: &Addr,
        height: u64,
        steps: &mut Steps<L>,
    ) -> Result<Vec<SlashEvent>, HookFault>
        ensures events { IfOk result
            (λ events. events.items ≡ events_since height (events_of self.now.kept operator.now)) }
        ensures fault { IfErr result (λ fault. fault ≡ NoMemory) }
        ensures cost { steps.new ≤ steps.old
            + (length (events_since height (events_of self.now.kept operator.now)) + 1) }
    {
        self.tables.events_since(alloc, operator, height, steps)
    }

    /// How many refer to a period: None exactly where nothing does, as in an operator without records. Takes
    /// no memory.
    pub fn count<L: Ledger>(
        &self,
        operator: &Addr,
        period: u64,
        steps: &mut Steps<L>,
    ) -> Option<u128>
        ensures count { (r : Rewards) → KeepsRewards self.now.kept r
            → result ≡ if_some (references_at r operator.now period) }
        ensures cost { steps.new ≤ steps.old + 1 }
    {
        match self.tables.record(operator, period, steps) {
            Some(history) => Some(history.count),
            None => None,
        }
    }

    /// The reward of a delegation up to the period just ended, at a height: nothing where it started at this
    /// height; else, of each stretch between slashes, the growth of the ratio times the stake, cut. In the
    /// last stretch the stake is at most `value`, what the shares are worth, in units of 10^-18
    /// (`CalculateDelegationRewards`). It is that of the ratios of all periods ever ended, though records
    /// were deleted.
    ///
    /// The errors are `NoMemory` and `Over`, which comes exactly where a product or a sum reaches 10^38
    /// units, with the operands of the first, stretch by stretch. It takes at most two steps for each slash
    /// event since the start, and four.
    pub fn reward<L: Ledger>(
        &self,
        alloc: Global,
        delegator: &Addr,
        operator: &Addr,
        ending: u64,
        height: u64,
        value: Dec,
        steps: &mut Steps<L>,
    ) -> Result<DecCoins, HookFault>
        requires delegation { IsStarted self.now.kept delegator.now operator.now }
        requires last { ending + 1 ≡ running self.now.kept operator.now }
        ensures reward { (r : Rewards) → KeepsRewards self.now.kept r
            → Gives (reward_at (start_of r delegator.now operator.now) (periods_of r operator.now)
            ending height value) result }
        ensures cost { (s : StartingInfo)
            → info_of self.now.kept delegator.now operator.now ≡ Some s
            → steps.new ≤ steps.old
            + (2 * length (events_since s.height (events_of self.now.kept operator.now)) + 4) }
    {
        let info = self.tables.info(delegator, operator, steps).unwrap();
        if info.height == height {
            return Ok(DecCoins::new(alloc));
        }
        let last = self.tables.record(operator, ending, steps).unwrap();
        self.tables
            .earned(alloc, operator, info, &last.ratio, value, steps)
    }

    /// What [`F1::reward`] would answer once the period that runs has ended with this increment. Nothing
    /// changes.
    ///
    /// The errors are `NoMemory` and `Over`: that of [`F1::end_period`] where it comes, else that of the
    /// reward. It takes at most two steps for each slash event since the start, and five.
    pub fn reward_after<L: Ledger>(
        &self,
        alloc: Global,
        delegator: &Addr,
        operator: &Addr,
        increment: &DecCoins,
        height: u64,
        value: Dec,
        steps: &mut Steps<L>,
    ) -> Result<DecCoins, HookFault>
        requires validator { HasPeriods self.now.kept operator.now }
        requires delegation { IsStarted self.now.kept delegator.now operator.now }
        ensures reward { (r : Rewards) → KeepsRewards self.now.kept r
            → Gives (reward_after (start_of r delegator.now operator.now)
            (periods_of r operator.now) increment.now height value) result }
        ensures cost { (s : StartingInfo)
            → info_of self.now.kept delegator.now operator.now ≡ Some s
            → steps.new ≤ steps.old
            + (2 * length (events_since s.height (events_of self.now.kept operator.now)) + 5) }
    {
        // It tells that the increment is a list of coins.
        let _ = increment.len();
        let info = self.tables.info(delegator, operator, steps).unwrap();
        let (_, ratio) = match self.tables.next_ratio(alloc, operator, increment, steps) {
            Ok(next) => next,
            Err(fault) => return Err(fault),
        };
        if height == info.height {
            return Ok(DecCoins::new(alloc));
        }
        self.tables
            .earned(alloc, operator, info, &ratio, value, steps)
    }
}
