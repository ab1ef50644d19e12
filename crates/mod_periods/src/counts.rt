//! References to records of periods: one more, one fewer, and the end of a period.

ghost use Rattle.std.specs.Prelude.{◌≡◌, ◌+◌, ◌-◌, ◌≤◌, ◌<◌, ◌≢◌, ◌^◌, true, OnOk, OnErr, IfOk, IfErr, IsErr, Ok, Some, is_some};
ghost use Rattle.base_coins.specs.Coins.{coins_added};
ghost use Rattle.base_roles.specs.declared.entities.Historical.{Historical};
ghost use Rattle.mod_sums.specs.Faults.{IsExcessOf};
ghost use Rattle.mod_periods.specs.Kept.{keeping, record_of, current_of, referred, released};
ghost use Rattle.mod_periods.specs.Scenes.{LeavesBehind};
ghost use Rattle.mod_periods.specs.Steps.{next_ratio, ended_kept, made_kept, running};

use crate::tables::Tables;
use base_coins::DecCoins;
use base_decimals::{Over, OverKind};
use base_roles::{Historical, HookFault};
use base_table::TableFault;
use base_types::{Addr, Copied, Steps};
use mod_sums::sum_of;
use std::alloc::Global;
use std::sync::ledger::Ledger;

/// No period is above this.
pub(crate) const LAST_PERIOD: u64 = 1_000_000_000_000_000_000;

impl Tables {
    /// One more refers to a period.
    pub(crate) fn refer<L: Ledger>(
        &mut self,
        operator: &Addr,
        period: u64,
        steps: &mut Steps<L>,
    ) -> Result<(), TableFault>
        requires few { (h : Historical) → record_of self.old.kept operator.now period ≡ Some h
            → h.count + 1 < 2 ^ 128 }
        ensures ok { OnOk result
            (self.new ≡ keeping (referred operator.now period self.old.kept) self.old) }
        ensures left { LeavesBehind self.old self.new }
        ensures cost { steps.new ≤ steps.old + 2 }
    {
        let Some(history) = self.record(operator, period, steps) else {
            return Ok(());
        };
        let more = Historical {
            ratio: history.ratio.copied()?,
            count: history.count + 1,
        };
        self.put_record(operator, period, more, steps)
    }

    /// One fewer refers to a period.
    pub(crate) fn release<L: Ledger>(
        &mut self,
        alloc: Global,
        operator: &Addr,
        period: u64,
        steps: &mut Steps<L>,
    ) -> Result<(), TableFault>
        ensures ok { OnOk result
            (self.new ≡ keeping (released operator.now period self.old.kept) self.old) }
        ensures left { LeavesBehind self.old self.new }
        ensures cost { steps.new ≤ steps.old + 2 }
    {
        let Some(history) = self.record(operator, period, steps) else {
            return Ok(());
        };
        let fewer = with_one_fewer(alloc, history)?;
        self.put_record(operator, period, fewer, steps)
    }

    /// The records of a new operator.
    pub(crate) fn make<L: Ledger>(
        &mut self,
        alloc: Global,
        operator: &Addr,
        steps: &mut Steps<L>,
    ) -> Result<(), TableFault>
        ensures ok { OnOk result
            (self.new ≡ keeping (made_kept operator.now self.old.kept) self.old) }
        ensures left { LeavesBehind self.old self.new }
        ensures spent_answer { self.old.spent ≡ true → IsErr result }
        ensures cost { steps.new ≤ steps.old + 2 }
    {
        let first = Historical {
            ratio: DecCoins::new(alloc),
            count: 1,
        };
        self.put_record(operator, 0, first, steps)?;
        self.put_current(operator, 1, steps)
    }

    /// The period of an operator that runs, and the ratio that it has once it ends with this increment.
    pub(crate) fn next_ratio<L: Ledger>(
        &self,
        alloc: Global,
        operator: &Addr,
        increment: &DecCoins,
        steps: &mut Steps<L>,
    ) -> Result<(u64, DecCoins), HookFault>
        requires initialised { is_some (current_of self.now.kept operator.now) ≡ true }
        requires running { 1 ≤ running self.now.kept operator.now }
        requires record { is_some
            (record_of self.now.kept operator.now (running self.now.kept operator.now - 1)) ≡ true }
        ensures period { IfOk result (λ next. next.0 ≡ running self.now.kept operator.now) }
        ensures below { IfOk result (λ next. next.0 ≢ 10 ^ 18) }
        ensures ratio { IfOk result
            (λ next. next_ratio increment.now operator.now self.now.kept ≡ Ok next.1) }
        ensures fault { IfErr result
            (IsExcessOf (next_ratio increment.now operator.now self.now.kept)) }
        ensures cost { steps.new ≤ steps.old + 2 }
    {
        let period = self.current(operator, steps).unwrap();
        let last = self.record(operator, period - 1, steps).unwrap();
        let ratio = sum_of(alloc, &last.ratio, increment)?;
        if period == LAST_PERIOD {
            return Err(HookFault::Over(Over {
                kind: OverKind::Period,
                a: u128::from(LAST_PERIOD),
                b: 0,
                c: 0,
            }));
        }
        Ok((period, ratio))
    }

    /// The period of an operator that runs ends with this ratio.
    pub(crate) fn end<L: Ledger>(
        &mut self,
        alloc: Global,
        operator: &Addr,
        period: u64,
        ratio: DecCoins,
        steps: &mut Steps<L>,
    ) -> Result<(), TableFault>
        requires period { period ≡ running self.old.kept operator.now }
        requires running { 1 ≤ period }
        requires room { period + 1 < 2 ^ 64 }
        ensures ok { OnOk result
            (self.new ≡ keeping (ended_kept ratio operator.now self.old.kept) self.old) }
        ensures left { LeavesBehind self.old self.new }
        ensures spent_answer { self.old.spent ≡ true → IsErr result }
        ensures cost { steps.new ≤ steps.old + 4 }
    {
        self.put_record(operator, period, Historical { ratio, count: 1 }, steps)?;
        self.release(alloc, operator, period - 1, steps)?;
        self.put_current(operator, period + 1, steps)
    }
}

/// The record with one reference fewer.
fn with_one_fewer(alloc: Global, history: &Historical) -> Result<Historical, TableFault>
    ensures count { IfOk result (λ fewer. fewer.count ≡ history.now.count - 1) }
    ensures ratio { IfOk result (λ fewer. fewer.count ≢ 0 → fewer.ratio ≡ history.now.ratio) }
{
    let count = history.count.saturating_sub(1);
    if count == 0 {
        // The record will be gone, so its ratio is not copied.
        return Ok(Historical {
            ratio: DecCoins::new(alloc),
            count,
        });
    }
    Ok(Historical {
        ratio: history.ratio.copied()?,
        count,
    })
}
