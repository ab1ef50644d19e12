//! Redelegation entries as items of the state.

ghost use Rattle.std.specs.List.Sorted.{IsStrictlySortedBy};
ghost use Rattle.std.specs.Map.{keys_of};
ghost use Rattle.base_roles.specs.Orders.{triple_cmp};
ghost use Rattle.rule_modules.specs.Redelegations.{RedelegationLists};
ghost use Rattle.mod_redelegation.specs.Items.{items_of, is_redelegation};

use crate::items::RedelegationKind;
use crate::keyed::{known, put_copy};
use crate::redelegations::Redelegations;
use base_records::{Kinds, One};
use base_roles::{Item, RecordFault, Records};
use base_types::Steps;
use std::alloc::Global;
use std::sync::ledger::Ledger;

impl Records for Redelegations {
    ghost Kept = { RedelegationLists };

    ghost kept = { λ s. s.lists };

    ghost marks = { λ s. s.marks };

    ghost settled = { λ s. s.settled };

    ghost spent = { λ s. s.spent };

    ghost AreInOrder = { λ lists. IsStrictlySortedBy triple_cmp (keys_of lists) };

    ghost items = { items_of };

    ghost is_kind = { is_redelegation };

    fn ordered(&self) {
        known(&self.entries);
    }

    fn mark<L: Ledger>(
        &mut self,
        _alloc: Global,
        _steps: &mut Steps<L>,
    ) -> Result<(), RecordFault> {
        self.entries.mark()?;
        Ok(())
    }

    fn back<L: Ledger>(&mut self, _steps: &mut Steps<L>) {
        self.entries.back();
    }

    fn forget<L: Ledger>(&mut self, _steps: &mut Steps<L>) {
        self.entries.forget();
    }

    fn items_into<L: Ledger>(
        &self,
        out: &mut Vec<Item>,
        steps: &mut Steps<L>,
    ) -> Result<(), RecordFault> {
        let kind = One::<RedelegationKind> {
            table: self.entries.table(),
        };
        kind.items_into(out, steps)
    }

    fn changes_into<L: Ledger>(
        &self,
        out: &mut Vec<(Item, bool)>,
        steps: &mut Steps<L>,
    ) -> Result<(), RecordFault> {
        let kind = One::<RedelegationKind> {
            table: self.entries.table(),
        };
        kind.changes_into(*out.allocator(), out, steps)
    }

    fn load<L: Ledger>(
        &mut self,
        _alloc: Global,
        item: &Item,
        steps: &mut Steps<L>,
    ) -> Result<bool, RecordFault> {
        if self.entries.is_spent() {
            return Err(RecordFault::NoMemory);
        }
        known(&self.entries);
        match item {
            Item::Redelegation {
                delegator,
                source,
                target,
                entries,
            } => {
                let key = (*delegator, *source, *target);
                put_copy(&mut self.entries, &key, entries, steps)?;
            }
            _ => return Ok(false),
        }
        Ok(true)
    }

    fn settle<L: Ledger>(&mut self, _steps: &mut Steps<L>) {
        self.entries.settle();
    }
}
