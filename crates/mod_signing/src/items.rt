//! Signing records as a kind of items of the state.

ghost use Rattle.std.specs.Prelude.{◌≡◌};
ghost use Rattle.mod_signing.specs.Kept.{AreInOrder, Kept};
ghost use Rattle.mod_signing.specs.Items.{items_of, is_signing};

use crate::tables::Tables;
use base_records::Kinds;
use base_roles::{Item, RecordFault};
use base_types::Steps;
use std::alloc::Global;
use std::sync::ledger::Ledger;

/// The tables, to be listed.
#[derive(Drop)]
pub(crate) struct Signings<'a> {
    pub(crate) tables: &'a Tables,
    pub(crate) alloc: Global,
}

impl<'a> Kinds for Signings<'a> {
    ghost use Rattle.std.specs.Prelude.{⊤};

    ghost Held = { Kept };

    ghost held = { λ s. s.tables.now.kept };

    ghost settled = { λ s. s.tables.now.settled };

    ghost items = { items_of };

    ghost AreInOrder = { AreInOrder };

    ghost is_kind = { is_signing };

    ghost AreTold = { λ s. ⊤ };

    fn known(&self) {
        self.tables.known();
    }

    fn items_into<L: Ledger>(
        &self,
        out: &mut Vec<Item>,
        steps: &mut Steps<L>,
    ) -> Result<(), RecordFault> {
        self.tables.items_into(self.alloc, out, steps)
    }

    fn changes_into<L: Ledger>(
        &self,
        alloc: Global,
        out: &mut Vec<(Item, bool)>,
        steps: &mut Steps<L>,
    ) -> Result<(), RecordFault> {
        self.tables.changes_into(alloc, out, steps)
    }
}
