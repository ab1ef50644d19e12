//! The records of distribution as items of the state.

ghost use Rattle.std.specs.Prelude.{◌≡◌, ◌++◌, ◌∷◌, [], true, OnOk, OnErr, IsErr};
ghost use Rattle.base_table.specs.Tabled.{with_mark};
ghost use Rattle.mod_distribution.specs.Kept.{KeptShared};
ghost use Rattle.mod_distribution.specs.Items.{items_of, is_distributed};

use crate::distr::Distr;
use crate::kinds::PayeeKind;
use base_records::{Kinds, One};
use base_roles::{Item, RecordFault, Records};
use base_table::Table;
use base_types::{Addr, Steps};
use mod_allocation::Alloc;
use std::alloc::Global;
use std::sync::ledger::Ledger;

impl Records for Distr {
    ghost use Rattle.mod_distribution.specs.Items as rows;

    ghost Kept = { KeptShared };

    ghost kept = { λ d. d.kept };

    ghost marks = { λ d. d.marks };

    ghost settled = { λ d. d.settled };

    ghost spent = { λ d. d.spent };

    ghost AreInOrder = { rows.AreInOrder };

    ghost items = { items_of };

    ghost is_kind = { is_distributed };

    fn ordered(&self) {
        self.f1.ordered();
        self.alloc.ordered();
        self.withdraw.known();
    }

    fn mark<L: Ledger>(&mut self, alloc: Global, steps: &mut Steps<L>) -> Result<(), RecordFault> {
        if self.spent {
            return Err(RecordFault::NoMemory);
        }
        self.f1.mark(alloc, steps)?;
        match mark_two(alloc, &mut self.alloc, &mut self.withdraw, steps) {
            Ok(()) => Ok(()),
            Err(fault) => {
                self.f1.back(steps);
                Err(fault)
            }
        }
    }

    fn back<L: Ledger>(&mut self, steps: &mut Steps<L>) {
        self.f1.back(steps);
        self.alloc.back(steps);
        self.withdraw.back();
    }

    fn forget<L: Ledger>(&mut self, steps: &mut Steps<L>) {
        self.f1.forget(steps);
        self.alloc.forget(steps);
        self.withdraw.forget();
    }

    fn items_into<L: Ledger>(
        &self,
        out: &mut Vec<Item>,
        steps: &mut Steps<L>,
    ) -> Result<(), RecordFault> {
        let payees = One::<PayeeKind> {
            table: &self.withdraw,
        };
        payees.known();
        self.alloc.items_into(out, steps)?;
        payees.items_into(out, steps)?;
        self.f1.items_into(out, steps)
    }

    fn changes_into<L: Ledger>(
        &self,
        out: &mut Vec<(Item, bool)>,
        steps: &mut Steps<L>,
    ) -> Result<(), RecordFault> {
        let payees = One::<PayeeKind> {
            table: &self.withdraw,
        };
        payees.known();
        self.alloc.changes_into(out, steps)?;
        payees.changes_into(self.memory, out, steps)?;
        self.f1.changes_into(out, steps)
    }

    fn load<L: Ledger>(
        &mut self,
        alloc: Global,
        item: &Item,
        steps: &mut Steps<L>,
    ) -> Result<bool, RecordFault> {
        if self.spent {
            return Err(RecordFault::NoMemory);
        }
        // Each takes the items of its own kinds.
        let is_pursed = self.alloc.load(alloc, item, steps)?;
        let is_rewarded = self.f1.load(alloc, item, steps)?;
        if let Item::Withdraw { delegator, to } = item {
            self.withdraw.known();
            self.put_payee(delegator, to, steps)?;
            return Ok(true);
        }
        Ok(is_pursed || is_rewarded)
    }

    fn settle<L: Ledger>(&mut self, steps: &mut Steps<L>) {
        self.f1.settle(steps);
        self.alloc.settle(steps);
        self.withdraw.settle();
    }
}

/// Opens a mark of purses and of payees, or of neither.
fn mark_two<L: Ledger>(
    alloc: Global,
    purses: &mut Alloc,
    payees: &mut Table<Addr, Addr>,
    steps: &mut Steps<L>,
) -> Result<(), RecordFault>
    ensures purses { OnOk result (purses.new.marks ≡ purses.old.marks ++ purses.old.kept ∷ []) }
    ensures payees { OnOk result (payees.new ≡ with_mark payees.old) }
    ensures purses_err { OnErr result (purses.new.marks ≡ purses.old.marks) }
    ensures payees_err { OnErr result (payees.new ≡ payees.old) }

    // Whatever the answer.
    ensures kept { purses.new.kept ≡ purses.old.kept }
    ensures settled { purses.new.settled ≡ purses.old.settled }
    ensures spent { purses.old.spent ≡ true → IsErr result }
    ensures spent_stays { purses.new.spent ≡ purses.old.spent }
{
    purses.mark(alloc, steps)?;
    match payees.mark() {
        Ok(()) => Ok(()),
        Err(_) => {
            purses.back(steps);
            Err(RecordFault::NoMemory)
        }
    }
}
