//! A listener as hooks.

ghost use Rattle.std.specs.Prelude.{◌≡◌};
ghost use Rattle.base_roles.specs.Listeners.{listener_tells, listener_lawful};

use base_roles::{Bank, Extra, Ground, Hook, HookFault, StakingHooks};
use base_types::Steps;
use std::alloc::Global;
use std::sync::ledger::Ledger;

/// A listener as hooks that hold what it heard: each call adds it, and leaves the ground. The only error is `NoMemory`.
#[derive(Drop)]
pub struct Listening<E> {
    pub listener: E,
}

impl<E: Extra> StakingHooks for Listening<E> {
    ghost Held = { E.Heard };

    ghost holds = { λ s p. E.heard s.listener ≡ p };

    ghost tells = { listener_tells E.hears };

    ghost Marks = { E.Marks };

    ghost marks = { λ s. E.StakingHooks.marks s.listener };

    fn hear<B: Bank, L: Ledger>(
        &mut self,
        alloc: Global,
        g: &mut Ground<B>,
        hook: &Hook,
        steps: &mut Steps<L>,
    ) -> Result<(), HookFault> {
        self.listener.hear(alloc, g, hook, steps)
    }

    ghost lawful = { listener_lawful E.hears };
}
