//! The infos of signing records, and banning.

ghost use Rattle.mod_signing.specs.Kept.{Behind, Kept, behind};
ghost use Rattle.mod_signing.specs.Stands.{IsSound, bans_kept, infos_of};

use crate::entry::Entry;
use crate::window::Window;
use base_roles::{HookFault, Signers, SigningInfo};
use base_types::{ConsAddr, Moment, Steps};
use std::alloc::Global;
use std::sync::ledger::Ledger;

impl Signers for Window {
    ghost Held = { Kept };

    ghost held = { λ w. w.kept };

    ghost sound = { IsSound };

    ghost infos = { infos_of };

    ghost bans = { bans_kept };

    ghost Marks = { Behind };

    ghost marks = { behind };

    fn info<L: Ledger>(&self, cons: &ConsAddr, steps: &mut Steps<L>) -> Option<&SigningInfo> {
        match self.tables.entry(cons, steps) {
            Some(entry) => Some(&entry.info),
            None => None,
        }
    }

    fn ban<L: Ledger>(
        &mut self,
        _alloc: Global,
        cons: &ConsAddr,
        until: Moment,
        steps: &mut Steps<L>,
    ) -> Result<(), HookFault> {
        let entry = *self.tables.entry(cons, steps).unwrap();
        let next = Entry {
            info: SigningInfo {
                jailed_until: until,
                tombstoned: true,
                ..entry.info
            },
            places: entry.places,
        };
        self.tables.put_info(cons, next, steps)?;
        Ok(())
    }
}
