//! The slash of a consensus address, through entries and at the validator itself, and jailing.

ghost use Rattle.std.specs.Prelude.{◌≡◌, ◌+◌, ◌*◌, ◌^◌, ◌≤◌, refl};
ghost use Rattle.base_roles.specs.Staked.{Staked, is_unbonded};
ghost use Rattle.rule_modules.specs.Slashing as rules;
ghost use Rattle.rule_modules.specs.Slashing.{slashed, jailed_by_cons};
ghost use Rattle.mod_staking.specs.Registered.{Behind, behind};
ghost use Rattle.mod_slashing.specs.Calls.{IsSoundCore};

use crate::amounts::slash_amount;
use crate::burning::slash_rest;
use crate::views::Core;
use base_decimals::Dec;
use base_roles::{
    Bank, Facts, Ground, HookFault, RedelegationSlash, Slasher, StakingHooks, UnbondingSlash,
    ValidatorView,
};
use base_types::{BondStatus, ConsAddr, Steps};
use std::alloc::Global;
use std::sync::ledger::Ledger;

impl<U: UnbondingSlash, R: RedelegationSlash> Slasher for Core<U, R> {
    ghost Held = { rules.Core U.Held R.Held };

    ghost held = { λ c. record {
      staked = c.staking.staked;
      unbondings = U.held c.unbondings;
      redelegations = R.held c.redelegations;
    } };

    ghost stake = { λ h. h.staked };

    ghost sound = { IsSoundCore U.sound R.sound };

    ghost owed = { λ h. U.owed h.unbondings };

    ghost slashes = { λ H told. slashed told (record {
      of_unbondings = U.slashes;
      of_followed = record { follow = U.follows };
      of_redelegations = R.slashes Staked U.Held H;
    }) };

    ghost jails = { jailed_by_cons };

    ghost Marks = { Behind × U.Marks × R.Marks };

    ghost marks = { λ c. (behind c.staking, U.marks c.unbondings, R.marks c.redelegations) };

    fn slash<B: Bank, H: StakingHooks, L: Ledger>(
        &mut self,
        alloc: Global,
        g: &mut Ground<B>,
        hooks: &mut H,
        cons: &ConsAddr,
        infraction: u64,
        power: u64,
        factor: Dec,
        steps: &mut Steps<L>,
    ) -> Result<u128, HookFault> {
        let v = match self.staking.by_cons(cons, steps) {
            Some(v) => *v,
            None => return Ok(0),
        };
        if is_unbonded(v.status) {
            return Ok(0);
        }
        let amount = slash_amount(power, g.ctx.params.power_reduction, factor);
        let some = self
            .unbondings
            .slash_unbondings(alloc, g, &v.operator, infraction, factor, steps)?;
        let more = self.redelegations.slash_redelegations(
            alloc,
            g,
            hooks,
            &mut self.staking,
            &mut self.unbondings,
            &v.operator,
            infraction,
            factor,
            steps,
        )?;
        let left = amount.saturating_sub(some + more);
        slash_rest(alloc, g, hooks, &mut self.staking, &v.operator, left, steps)
    }

    fn jail<L: Ledger>(
        &mut self,
        _alloc: Global,
        facts: &mut Facts,
        cons: &ConsAddr,
        steps: &mut Steps<L>,
    ) -> Result<(), HookFault> {
        let operator = self.staking.by_cons(cons, steps).unwrap().operator;
        self.staking.jail(facts, &operator, steps)
    }

    ghost looks_up = { λ s. refl };
}

/// Whether a validator of this status is unbonded.
fn is_unbonded(status: BondStatus) -> bool
    ensures { result ≡ is_unbonded status }
{
    status == BondStatus::Unbonded
}
