//! What a withdrawal would pay from.

ghost use Rattle.std.specs.Prelude.{◌≡◌, ◌≤◌, ◌^◌, IfOk, IfErr};
ghost use Rattle.base_roles.specs.declared.faults.HookFault.TheVariants.{NoMemory};
ghost use Rattle.base_roles.specs.World.{View};
ghost use Rattle.rule_modules.specs.Distribution.{Shared, pending};
ghost use Rattle.mod_periods.specs.Answers.{Gives};
ghost use Rattle.mod_distribution.specs.Calls.{HasStarted, AreShares, increment_at_end, left_at_end};
ghost use Rattle.mod_distribution.specs.Stands.{KeepsShared};

use crate::distr::Distr;
use base_coins::DecCoins;
use base_decimals::Dec;
use base_roles::{HookFault, Purse, Records, Validator};
use base_shares::value_even;
use base_types::{Addr, Copied, Steps};
use mod_sums::{less, per_token, smaller};
use std::alloc::Global;
use std::sync::ledger::Ledger;

impl Distr {
    /// What a withdrawal at a height would take from what is outstanding, for a delegation of so many
    /// shares: the smaller of its reward, once the period that runs had ended, and of what would be
    /// outstanding then. Nothing changes.
    ///
    /// The errors are `NoMemory` and `Over`: that of the period's end where it comes, else that of the
    /// reward.
    pub fn pending<L: Ledger>(
        &self,
        alloc: Global,
        v: &Validator,
        delegator: &Addr,
        shares: Dec,
        height: u64,
        steps: &mut Steps<L>,
    ) -> Result<DecCoins, HookFault>
        requires started { HasStarted self.now.kept delegator.now v.now.operator }
        requires shares { AreShares v.now shares }
        ensures pending { (d : Shared) (u : View) → KeepsShared self.now.kept d
            → u.ctx.height ≡ height → Gives (pending v.now delegator.now shares d u) result }
    {
        // It tells that purses are lists of coins.
        self.alloc.ordered();
        let purse = self.alloc.purse(&v.operator, steps).unwrap();
        let increment = increment_at_end(alloc, purse, v.tokens)?;
        let value = value_even(v.tokens, v.shares, shares);
        let full = self.f1.reward_after(
            alloc,
            delegator,
            &v.operator,
            &increment,
            height,
            value,
            steps,
        )?;
        let left = left_at_end(alloc, purse, v.tokens)?;
        smaller(alloc, &full, &left)
    }
}

/// By how much the ratio would grow with the end of the period.
fn increment_at_end(alloc: Global, purse: &Purse, tokens: u128) -> Result<DecCoins, HookFault>
    requires { tokens ≤ 10 ^ 18 }
    ensures { Gives (increment_at_end tokens purse.now) result }
{
    if tokens == 0 {
        return Ok(DecCoins::new(alloc));
    }
    per_token(alloc, &purse.current, tokens)
}

/// What would be outstanding at the end of the period. The only error is `NoMemory`.
fn left_at_end(alloc: Global, purse: &Purse, tokens: u128) -> Result<DecCoins, HookFault>
    ensures left { IfOk result (λ left. left ≡ left_at_end tokens purse.now) }
    ensures fault { IfErr result (λ fault. fault ≡ NoMemory) }
{
    if tokens > 0 {
        return Ok(purse.outstanding.copied()?);
    }
    // It tells that this is a list of coins.
    let _ = purse.current.len();
    let lost = smaller(alloc, &purse.current, &purse.outstanding)?;
    less(alloc, &purse.outstanding, &lost)
}
