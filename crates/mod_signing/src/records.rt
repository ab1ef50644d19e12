//! What the window keeps, as items of the state.

ghost use Rattle.std.specs.Prelude.{◌≡◌};
ghost use Rattle.mod_signing.specs.Kept.{AreInOrder, Kept};
ghost use Rattle.mod_signing.specs.Items.{items_of, is_signing};

use crate::items::Signings;
use crate::window::Window;
use base_records::Kinds;
use base_roles::{Item, RecordFault, Records};
use base_types::Steps;
use std::alloc::Global;
use std::sync::ledger::Ledger;

impl Records for Window {
    ghost Kept = { Kept };

    ghost kept = { λ w. w.kept };

    ghost marks = { λ w. w.marks };

    ghost settled = { λ w. w.settled };

    ghost spent = { λ w. w.spent };

    ghost AreInOrder = { AreInOrder };

    ghost items = { items_of };

    ghost is_kind = { is_signing };

    fn ordered(&self) {
        self.tables.known();
    }

    fn mark<L: Ledger>(
        &mut self,
        _alloc: Global,
        _steps: &mut Steps<L>,
    ) -> Result<(), RecordFault> {
        self.tables.mark()?;
        Ok(())
    }

    fn back<L: Ledger>(&mut self, _steps: &mut Steps<L>) {
        self.tables.back();
    }

    fn forget<L: Ledger>(&mut self, _steps: &mut Steps<L>) {
        self.tables.forget();
    }

    fn items_into<L: Ledger>(
        &self,
        out: &mut Vec<Item>,
        steps: &mut Steps<L>,
    ) -> Result<(), RecordFault> {
        self.signings().items_into(out, steps)
    }

    fn changes_into<L: Ledger>(
        &self,
        out: &mut Vec<(Item, bool)>,
        steps: &mut Steps<L>,
    ) -> Result<(), RecordFault> {
        self.signings().changes_into(self.alloc, out, steps)
    }

    fn load<L: Ledger>(
        &mut self,
        _alloc: Global,
        item: &Item,
        steps: &mut Steps<L>,
    ) -> Result<bool, RecordFault> {
        if self.tables.is_spent() {
            return Err(RecordFault::NoMemory);
        }
        self.tables.known();
        match item {
            Item::Signing { cons, info, ring } => {
                self.tables.put_record(cons, info, ring, steps)?
            }
            _ => return Ok(false),
        }
        Ok(true)
    }

    fn settle<L: Ledger>(&mut self, _steps: &mut Steps<L>) {
        self.tables.settle();
    }
}

impl Window {
    /// The records, to be listed.
    fn signings(&self) -> Signings<'_>
        ensures held { result.tables.now.kept ≡ self.now.kept }
        ensures settled { result.tables.now.settled ≡ self.now.settled }
    {
        Signings {
            tables: &self.tables,
            alloc: self.alloc,
        }
    }
}
