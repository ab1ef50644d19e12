//! Hooks that forget part of what their plain value keeps.

ghost use Rattle.std.specs.Prelude.{◌≡◌, ℕ, List};
ghost use Rattle.base_roles_example.specs.Forgetting.{latest, forgetting_tells, forgetting_lawful};

use base_roles::{Bank, Fact, Ground, Hook, HookFault, StakingHooks};
use base_types::Steps;
use std::alloc::Global;
use std::sync::ledger::Ledger;

/// The height at which a validator was last bonded, and 0 before. The plain value has all such heights. The
/// start of a delegation is told with that height as its period.
#[derive(Drop)]
pub struct Forgetting {
    pub latest: u64,
}

impl StakingHooks for Forgetting {
    ghost Held = { List ℕ };

    ghost holds = { λ s h. s.latest ≡ latest h };

    ghost tells = { forgetting_tells };

    ghost Marks = { Unit {0} };

    ghost marks = { λ _. tt };

    fn hear<B: Bank, L: Ledger>(
        &mut self,
        _alloc: Global,
        g: &mut Ground<B>,
        hook: &Hook,
        _steps: &mut Steps<L>,
    ) -> Result<(), HookFault> {
        match hook {
            Hook::Bonded { .. } => {
                self.latest = g.ctx.height;
                Ok(())
            }
            Hook::Starting {
                validator,
                delegator,
            } => {
                g.facts.push(Fact::Started {
                    delegator: *delegator,
                    validator: validator.operator,
                    period: self.latest,
                    stake: validator.shares,
                })?;
                Ok(())
            }
            Hook::Created { .. }
            | Hook::Removed { .. }
            | Hook::Modifying { .. }
            | Hook::Modified { .. }
            | Hook::Slashing { .. } => Ok(()),
        }
    }

    ghost lawful = { forgetting_lawful };
}
