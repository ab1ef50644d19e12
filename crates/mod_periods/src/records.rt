//! The records of F1 as items of the state.

ghost use Rattle.mod_periods.specs.Items.{items_of, is_record};

use crate::f1::F1;
use base_records::Kinds;
use base_roles::{Item, RecordFault, Records};
use base_types::Steps;
use std::alloc::Global;
use std::sync::ledger::Ledger;

impl Records for F1 {
    ghost use Rattle.mod_periods.specs.Kept as tables;

    ghost Kept = { tables.Kept };

    ghost kept = { λ f. f.kept };

    ghost marks = { λ f. f.marks };

    ghost settled = { λ f. f.settled };

    ghost spent = { λ f. f.spent };

    ghost AreInOrder = { tables.AreInOrder };

    ghost items = { items_of };

    ghost is_kind = { is_record };

    fn ordered(&self) {
        self.tables.known();
    }

    fn mark<L: Ledger>(
        &mut self,
        _alloc: Global,
        _steps: &mut Steps<L>,
    ) -> Result<(), RecordFault> {
        self.tables.mark()?;
        Ok(())
    }

    fn back<L: Ledger>(&mut self, _steps: &mut Steps<L>) {
        self.tables.back();
    }

    fn forget<L: Ledger>(&mut self, _steps: &mut Steps<L>) {
        self.tables.forget();
    }

    fn items_into<L: Ledger>(
        &self,
        out: &mut Vec<Item>,
        steps: &mut Steps<L>,
    ) -> Result<(), RecordFault> {
        self.tables.kinds().items_into(out, steps)
    }

    fn changes_into<L: Ledger>(
        &self,
        out: &mut Vec<(Item, bool)>,
        steps: &mut Steps<L>,
    ) -> Result<(), RecordFault> {
        self.tables.kinds().changes_into(self.alloc, out, steps)
    }

    fn load<L: Ledger>(
        &mut self,
        _alloc: Global,
        item: &Item,
        steps: &mut Steps<L>,
    ) -> Result<bool, RecordFault> {
        if self.tables.is_spent() {
            return Err(RecordFault::NoMemory);
        }
        self.tables.known();
        match item {
            Item::CurrentPeriod { operator, period } => {
                self.tables.put_current(operator, *period, steps)?
            }
            Item::Historical {
                operator,
                period,
                history,
            } => self.tables.add_record(operator, *period, history, steps)?,
            Item::Start {
                operator,
                delegator,
                info,
            } => self.tables.put_info(delegator, operator, *info, steps)?,
            Item::Event { operator, event } => self.tables.put_event(operator, *event, steps)?,
            _ => return Ok(false),
        }
        Ok(true)
    }

    fn settle<L: Ledger>(&mut self, _steps: &mut Steps<L>) {
        self.tables.settle();
    }
}
