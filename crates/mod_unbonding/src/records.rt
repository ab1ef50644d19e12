//! Unbonding entries as items of the state.

ghost use Rattle.std.specs.List.Sorted.{IsStrictlySortedBy};
ghost use Rattle.std.specs.Map.{keys_of};
ghost use Rattle.base_roles.specs.Orders.{pair_cmp};
ghost use Rattle.rule_modules.specs.Unbondings.{UnbondingLists};
ghost use Rattle.mod_unbonding.specs.Items.{items_of, is_unbonding};

use crate::items::UnbondingKind;
use crate::unbondings::Unbondings;
use base_records::{Kinds, One};
use base_roles::{Item, RecordFault, Records};
use base_types::Steps;
use std::alloc::Global;
use std::sync::ledger::Ledger;

impl Records for Unbondings {
    ghost Kept = { UnbondingLists };

    ghost kept = { λ s. s.lists };

    ghost marks = { λ s. s.marks };

    ghost settled = { λ s. s.settled };

    ghost spent = { λ s. s.spent };

    ghost AreInOrder = { λ lists. IsStrictlySortedBy pair_cmp (keys_of lists) };

    ghost items = { items_of };

    ghost is_kind = { is_unbonding };

    fn ordered(&self) {
        self.entries.known();
    }

    fn mark<L: Ledger>(
        &mut self,
        _alloc: Global,
        _steps: &mut Steps<L>,
    ) -> Result<(), RecordFault> {
        self.entries.mark()?;
        Ok(())
    }

    fn back<L: Ledger>(&mut self, _steps: &mut Steps<L>) {
        self.entries.back();
    }

    fn forget<L: Ledger>(&mut self, _steps: &mut Steps<L>) {
        self.entries.forget();
    }

    fn items_into<L: Ledger>(
        &self,
        out: &mut Vec<Item>,
        steps: &mut Steps<L>,
    ) -> Result<(), RecordFault> {
        let kind = One::<UnbondingKind> {
            table: self.entries.table(),
        };
        kind.items_into(out, steps)
    }

    fn changes_into<L: Ledger>(
        &self,
        out: &mut Vec<(Item, bool)>,
        steps: &mut Steps<L>,
    ) -> Result<(), RecordFault> {
        let kind = One::<UnbondingKind> {
            table: self.entries.table(),
        };
        kind.changes_into(*out.allocator(), out, steps)
    }

    fn load<L: Ledger>(
        &mut self,
        _alloc: Global,
        item: &Item,
        steps: &mut Steps<L>,
    ) -> Result<bool, RecordFault> {
        if self.entries.is_spent() {
            return Err(RecordFault::NoMemory);
        }
        self.entries.known();
        match item {
            Item::Unbonding {
                delegator,
                operator,
                entries,
            } => {
                let key = (*delegator, *operator);
                self.entries.put_copy(&key, entries, steps)?;
            }
            _ => return Ok(false),
        }
        Ok(true)
    }

    fn settle<L: Ledger>(&mut self, _steps: &mut Steps<L>) {
        self.entries.settle();
    }
}
