//! Admitting a validator of a genesis.

ghost use Rattle.std.specs.Prelude.{◌≡◌, None, OnOk};
ghost use Rattle.base_roles.specs.Ground.{seen};
ghost use Rattle.base_roles.specs.Staked.{validator_at, validator_by_cons};
ghost use Rattle.rule_modules.specs.Answers.{Leaves};
ghost use Rattle.rule_modules.specs.Validators.{new_validator, stored};
ghost use Rattle.mod_staking.specs.Calls.{HasRates, over};
ghost use Rattle.mod_staking.specs.Scenes.{IsScene, GoesOn};

use crate::creating::new_validator;
use crate::staking::Staking;
use base_roles::{Bank, CreateValidator, Ground, HookFault, StakingHooks};
use base_types::Steps;
use std::alloc::Global;
use std::sync::ledger::Ledger;

impl Staking {
    /// Admits a validator of a genesis (`x/staking`: `InitGenesis`): it stands as this message would create it,
    /// unbonded and without tokens, and its first hook is called. The message's amount is not read.
    ///
    /// The errors are `Over` where the hook exceeds, and `NoMemory`.
    pub fn admit<B: Bank, H: StakingHooks, L: Ledger>(
        &mut self,
        alloc: Global,
        g: &mut Ground<B>,
        hooks: &mut H,
        m: &CreateValidator,
        steps: &mut Steps<L>,
    ) -> Result<(), HookFault>
        requires new { validator_at self.old.staked m.now.validator ≡ None }
        requires new_cons { validator_by_cons self.old.staked m.now.cons ≡ None }
        requires rates { HasRates m.now }
        requires scene { IsScene H.tells (H.holds hooks.old)
            (seen B.holdings g.old) self.old.staked }

        ensures told { (h : H.Held) → H.holds hooks.old h
            → Leaves (stored H.tells.told (new_validator m.now g.old.ctx.time)
            (over self.old.staked h (seen B.holdings g.old)))
            self.new.staked (H.holds hooks.new) (seen B.holdings g.new) result }
        ensures scene { OnOk result (IsScene H.tells (H.holds hooks.new)
            (seen B.holdings g.new) self.new.staked) }

        // Whatever the answer.
        ensures goes_on { GoesOn B.marks B.most_steps H.marks
            g.old g.new hooks.old hooks.new self.old self.new result }
    {
        self.known();
        let v = new_validator(m, g.ctx.time);
        self.add(&v, steps)?;
        hooks.after_validator_created(alloc, g, &v, steps)
    }
}
