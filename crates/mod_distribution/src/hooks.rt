//! Distribution as hooks of staking (`x/distribution/keeper/hooks.go`).

ghost use Rattle.rule_modules.specs.Distribution.{Shared};
ghost use Rattle.mod_distribution.specs.Kept.{Behind, behind};
ghost use Rattle.mod_distribution.specs.Lawful.{distribution_lawful};
ghost use Rattle.mod_distribution.specs.Stands.{KeepsShared};
ghost use Rattle.mod_distribution.specs.Tells.{distribution_tells};

use crate::distr::Distr;
use base_roles::{Bank, Ground, Hook, HookFault, StakingHooks};
use base_types::Steps;
use std::alloc::Global;
use std::sync::ledger::Ledger;

impl StakingHooks for Distr {
    ghost Held = { Shared };

    ghost holds = { λ s d. KeepsShared s.kept d };

    ghost tells = { distribution_tells };

    ghost Marks = { Behind };

    ghost marks = { behind };

    fn hear<B: Bank, L: Ledger>(
        &mut self,
        alloc: Global,
        g: &mut Ground<B>,
        hook: &Hook,
        steps: &mut Steps<L>,
    ) -> Result<(), HookFault> {
        match hook {
            Hook::Created { validator } => self.make_records(alloc, validator, steps),
            Hook::Removed { validator } => self.remove_records(alloc, g, validator, steps),
            Hook::Bonded { .. } => Ok(()),
            Hook::Starting { validator, .. } => {
                self.end_period(alloc, g, validator, steps)?;
                Ok(())
            }
            Hook::Modifying {
                validator,
                delegator,
                shares,
            } => {
                self.take_reward(alloc, g, validator, delegator, *shares, steps)?;
                Ok(())
            }
            Hook::Modified {
                validator,
                delegator,
                shares,
            } => self.start(g, validator, delegator, *shares, steps),
            Hook::Slashing {
                validator,
                fraction,
            } => self.record_slash(alloc, g, validator, *fraction, steps),
        }
    }

    ghost lawful = { distribution_lawful };
}
