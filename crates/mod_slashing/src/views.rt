//! What slashing works on: validators and delegations with the unbonding and redelegation entries (`x/staking`).

ghost use Rattle.std.specs.Prelude.{refl};

use base_roles::{RedelegationSlash, UnbondingSlash, Validator, ValidatorView};
use base_types::{Addr, ConsAddr, Steps};
use mod_staking::Staking;
use std::sync::ledger::Ledger;

/// What staking keeps: validators and delegations, unbonding entries, and redelegation entries.
#[derive(Drop)]
pub struct Core<U, R> {
    pub staking: Staking,
    pub unbondings: U,
    pub redelegations: R,
}

impl<U: UnbondingSlash, R: RedelegationSlash> ValidatorView for Core<U, R> {
    ghost staked = { λ c. c.staking.staked };

    fn validator<L: Ledger>(&self, operator: &Addr, steps: &mut Steps<L>) -> Option<&Validator> {
        self.staking.validator(operator, steps)
    }

    fn by_cons<L: Ledger>(&self, cons: &ConsAddr, steps: &mut Steps<L>) -> Option<&Validator> {
        self.staking.by_cons(cons, steps)
    }
}
