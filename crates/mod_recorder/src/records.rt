//! The marks of a recorder. It has no items.

ghost use Rattle.std.specs.Prelude.{[], false};
ghost use Rattle.mod_recorder.specs.Notes.{Noted};

use crate::recorder::{Place, Recorder};
use base_roles::{Item, RecordFault, Records};
use base_types::Steps;
use std::alloc::Global;
use std::sync::ledger::Ledger;

impl Records for Recorder {
    ghost Kept = { Noted };

    ghost kept = { λ r. r.noted };

    ghost marks = { λ r. r.marks };

    ghost settled = { λ r. r.settled };

    ghost spent = { λ _. false };

    ghost AreInOrder = { λ _. Unit {0} };

    ghost items = { λ _. [] };

    ghost is_kind = { λ _. false };

    fn ordered(&self) {}

    fn mark<L: Ledger>(
        &mut self,
        _alloc: Global,
        _steps: &mut Steps<L>,
    ) -> Result<(), RecordFault> {
        let place = Place {
            notes: self.notes.len(),
            before: self.before,
        };
        self.marks.push(place)?;
        Ok(())
    }

    fn back<L: Ledger>(&mut self, _steps: &mut Steps<L>) {
        let place = self.marks.pop().unwrap();
        self.notes.truncate(place.notes);
        self.before = place.before;
    }

    fn forget<L: Ledger>(&mut self, _steps: &mut Steps<L>) {
        let _ = self.marks.pop();
    }

    fn items_into<L: Ledger>(
        &self,
        _out: &mut Vec<Item>,
        _steps: &mut Steps<L>,
    ) -> Result<(), RecordFault> {
        Ok(())
    }

    fn changes_into<L: Ledger>(
        &self,
        _out: &mut Vec<(Item, bool)>,
        _steps: &mut Steps<L>,
    ) -> Result<(), RecordFault> {
        Ok(())
    }

    fn load<L: Ledger>(
        &mut self,
        _alloc: Global,
        _item: &Item,
        _steps: &mut Steps<L>,
    ) -> Result<bool, RecordFault> {
        Ok(false)
    }

    fn settle<L: Ledger>(&mut self, _steps: &mut Steps<L>) {
        self.settled = Place {
            notes: self.notes.len(),
            before: self.before,
        };
    }
}
