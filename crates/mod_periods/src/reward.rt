//! What a delegation earns: the growth of the ratio over each stretch between slashes, times the stake.

ghost use Rattle.std.specs.Prelude.{◌≡◌, ℕ, ◌+◌, ◌*◌, ◌≤◌, ◌^◌, Ok, None, length, min, IfOk, IfErr};
ghost use Rattle.base_coins.specs.Coins.{coins_mul_cut};
ghost use Rattle.base_coins.specs.Coins.{first_short};
ghost use Rattle.base_roles.specs.declared.faults.HookFault.TheVariants.{NoMemory};
ghost use Rattle.mod_sums.specs.Faults.{IsExcessOf};
ghost use Rattle.mod_periods.specs.Earning.{CanEarn, events_since, kept_reward, stretch_added};
ghost use Rattle.mod_periods.specs.Kept.{events_of};
ghost use Rattle.rule_modules.specs.Periods.{slashed_stake};

use crate::tables::Tables;
use base_coins::DecCoins;
use base_decimals::Dec;
use base_roles::{HookFault, StartingInfo};
use base_types::{Addr, Steps};
use mod_sums::{hook_fault, sum_of};
use std::alloc::Global;
use std::sync::ledger::Ledger;

/// The units of one whole, 10^18.
const ONE: u128 = 1_000_000_000_000_000_000;

impl Tables {
    /// What a start earns up to a period that ended with this ratio; the stake of the last stretch is at most
    /// the value of the shares.
    pub(crate) fn earned<L: Ledger>(
        &self,
        alloc: Global,
        operator: &Addr,
        info: StartingInfo,
        ratio: &DecCoins,
        value: Dec,
        steps: &mut Steps<L>,
    ) -> Result<DecCoins, HookFault>
        requires { (ending : ℕ) × CanEarn self.now.kept operator.now info ending ratio.now }
        ensures reward { (ending : ℕ) → CanEarn self.now.kept operator.now info ending ratio.now
            → IfOk result (λ reward.
            kept_reward self.now.kept operator.now info ending ratio.now value ≡ Ok reward) }
        ensures fault { (ending : ℕ) → CanEarn self.now.kept operator.now info ending ratio.now
            → IfErr result (IsExcessOf
            (kept_reward self.now.kept operator.now info ending ratio.now value)) }
        ensures cost { steps.new ≤ steps.old
            + (2 * length (events_since info.height (events_of self.now.kept operator.now)) + 2) }
    {
        let events = self.events_since(alloc, operator, info.height, steps)?;
        let mut begin = self.record(operator, info.period, steps).unwrap();
        let mut total = DecCoins::new(alloc);
        let mut stake = info.stake;
        for event in &events {
            if event.period > info.period {
                let end = self.record(operator, event.period, steps).unwrap();
                total = match with_stretch(alloc, &total, &begin.ratio, &end.ratio, stake) {
                    Ok(sum) => sum,
                    Err(fault) => return Err(fault),
                };
                stake = slashed(stake, event.fraction);
                begin = end;
            }
        }
        with_stretch(alloc, &total, &begin.ratio, ratio, smaller(stake, value))
    }
}

/// A total with what one stretch gives.
fn with_stretch(
    alloc: Global,
    total: &DecCoins,
    begin: &DecCoins,
    end: &DecCoins,
    stake: Dec,
) -> Result<DecCoins, HookFault>
    requires { first_short end.now begin.now ≡ None }
    ensures sum { IfOk result (λ sum. stretch_added total.now begin.now end.now stake ≡ Ok sum) }
    ensures fault { IfErr result (IsExcessOf (stretch_added total.now begin.now end.now stake)) }
{
    let growth = match end.sub_checked(alloc, begin) {
        Ok(growth) => growth,
        Err(fault) => return Err(hook_fault(fault)),
    };
    let part = match growth.mul_cut(alloc, stake) {
        Ok(part) => part,
        Err(fault) => return Err(hook_fault(fault)),
    };
    sum_of(alloc, total, &part)
}

/// A stake after a slash of this part, at most one, cut.
fn slashed(stake: Dec, fraction: Dec) -> Dec
    requires { fraction ≤ 10 ^ 18 }
    ensures { result ≡ slashed_stake stake fraction }
{
    let one = Dec::from_raw(ONE).unwrap();
    stake.mul_cut(one.sub(fraction)).unwrap()
}

fn smaller(a: Dec, b: Dec) -> Dec
    ensures { result ≡ min a b }
{
    if b < a { b } else { a }
}
