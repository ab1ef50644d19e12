//! What the window does when staking changes something: a record begins where a validator joins the bonded
//! set.

ghost use Rattle.std.specs.Prelude.{◌≡◌, None};
ghost use Rattle.std.specs.Option.{option_copied};
ghost use Rattle.mod_signing.specs.Calls.{begun_entry};
ghost use Rattle.mod_signing.specs.Kept.{Behind, behind};
ghost use Rattle.mod_signing.specs.Stands.{Signings, HoldsSignings, signings_told};
ghost use Rattle.mod_signing.specs.Lawful.{signings_lawful};

use crate::entry::Entry;
use crate::window::Window;
use base_roles::{Bank, Ground, Hook, HookFault, SigningInfo, StakingHooks};
use base_types::{Moment, Steps};
use std::alloc::Global;
use std::sync::ledger::Ledger;

impl StakingHooks for Window {
    ghost Held = { Signings };

    ghost holds = { λ w h. HoldsSignings w.kept h };

    ghost tells = { signings_told };

    ghost Marks = { Behind };

    ghost marks = { behind };

    fn hear<B: Bank, L: Ledger>(
        &mut self,
        _alloc: Global,
        g: &mut Ground<B>,
        hook: &Hook,
        steps: &mut Steps<L>,
    ) -> Result<(), HookFault> {
        match hook {
            Hook::Bonded { validator } => {
                let next = begun(self.tables.entry(&validator.cons, steps), g.ctx.height);
                self.tables.put_info(&validator.cons, next, steps)?;
                Ok(())
            }
            Hook::Created { .. }
            | Hook::Removed { .. }
            | Hook::Starting { .. }
            | Hook::Modifying { .. }
            | Hook::Modified { .. }
            | Hook::Slashing { .. } => Ok(()),
        }
    }

    ghost lawful = { signings_lawful };
}

/// The entry of a record that begins at a height, or begins again. A new one was never jailed.
fn begun(found: Option<&Entry>, height: u64) -> Entry
    ensures { result ≡ begun_entry height (option_copied found.entry) }
{
    match found {
        Some(entry) => Entry {
            info: SigningInfo {
                start: height,
                ..entry.info
            },
            places: entry.places,
        },
        None => Entry {
            info: new_info(height),
            places: 0,
        },
    }
}

/// The info of a new record.
fn new_info(height: u64) -> SigningInfo
    ensures { result ≡ (begun_entry height None).info }
{
    SigningInfo {
        start: height,
        counted: 0,
        missed: 0,
        jailed_until: Moment::of(0).unwrap(),
        tombstoned: false,
    }
}
