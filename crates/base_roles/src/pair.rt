//! Two hooks as one (Cosmos SDK: `MultiStakingHooks` of `x/staking`).

ghost use Rattle.base_roles.specs.Pair.{pair_tells, pair_lawful};

use crate::bank::{Bank, Ground};
use crate::calls::Hook;
use crate::faults::HookFault;
use crate::hooks::StakingHooks;
use base_types::Steps;
use std::alloc::Global;
use std::sync::ledger::Ledger;

/// Two hooks, called one after the other. The first fault ends a call.
#[derive(Drop)]
pub struct HookPair<A, B> {
    pub first: A,
    pub second: B,
}

impl<X: StakingHooks, Y: StakingHooks> StakingHooks for HookPair<X, Y> {
    ghost Held = { X.Held × Y.Held };

    ghost holds = { λ s h. X.holds s.first h.0 × Y.holds s.second h.1 };

    ghost tells = { pair_tells X.tells Y.tells };

    ghost Marks = { X.Marks × Y.Marks };

    ghost marks = { λ s. (X.marks s.first, Y.marks s.second) };

    fn hear<B: Bank, L: Ledger>(
        &mut self,
        alloc: Global,
        g: &mut Ground<B>,
        hook: &Hook,
        steps: &mut Steps<L>,
    ) -> Result<(), HookFault> {
        self.first.hear(alloc, g, hook, steps)?;
        self.second.hear(alloc, g, hook, steps)
    }

    ghost lawful = { pair_lawful X.tells Y.tells X.lawful Y.lawful };
}
