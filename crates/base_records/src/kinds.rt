//! The items of several tables, one kind of records in each.

ghost use Rattle.std.specs.Prelude.{◌≡◌, ◌++◌, List, Bool, true, is_some, OnOk};
ghost use Rattle.base_roles.specs.declared.items.Item.{Item};
ghost use Rattle.std.specs.List.Sorted.{IsStrictlySortedBy};
ghost use Rattle.std.specs.Map.{keys_of};
ghost use Rattle.base_roles.specs.Items.{IsOnce, AreChanges};
ghost use Rattle.base_records.specs.Kinds.{AreApart, AreOf, IsByKey, either};
ghost use Rattle.base_records.specs.Items.{rows_of, AreFit};

use crate::as_item::AsItem;
use crate::walk::{changes_into, rows_into};
use base_roles::{Item, RecordFault};
use base_table::Table;
use base_types::Steps;
use std::alloc::Global;
use std::sync::ledger::Ledger;

/// Tables of kinds of records, to be listed: one kind, or two of these side by side.
pub trait Kinds {
    // what the tables hold
    ghost Held: { Type 0 };

    // what they hold, and what they held at the last settling
    ghost held: { Self → Held };

    ghost settled: { Self → Held };

    ghost items: { Held → List Item };

    // the keys ascend in each table
    ghost AreInOrder: { Held → Type 0 };

    // whether an item is of one of these kinds
    ghost is_kind: { Item → Bool };

    // what tells the items apart: each value fits its key, and no item is of two of the kinds
    ghost AreTold: { Self → Type 0 };

    /// It tells that the keys ascend in each table, and of which kinds the items are.
    fn known(&self)
        requires told { AreTold self.now }
        ensures ordered { AreInOrder (held self.now) }
        ensures held { AreOf is_kind (items (held self.now)) }
        ensures settled { AreOf is_kind (items (settled self.now)) }
        ensures by_key { IsByKey is_kind };

    /// Appends the items of the records, each once. After `NoMemory` some of them may stand there.
    fn items_into<L: Ledger>(
        &self,
        out: &mut Vec<Item>,
        steps: &mut Steps<L>,
    ) -> Result<(), RecordFault>
        requires told { AreTold self.now }
        ensures items { OnOk result (out.new.items ≡ out.old.items ++ items (held self.now)) }
        ensures once { OnOk result (IsOnce (items (held self.now))) }
        ensures err { (some : List Item) × (out.new.items ≡ out.old.items ++ some) };

    /// Appends the items by which the records differ from those at the last settling, each once: with true
    /// an item that is new or has another value, with false, by its key alone, one that is gone. After
    /// `NoMemory` some of them may stand there.
    fn changes_into<L: Ledger>(
        &self,
        alloc: Global,
        out: &mut Vec<(Item, bool)>,
        steps: &mut Steps<L>,
    ) -> Result<(), RecordFault>
        requires told { AreTold self.now }
        ensures changes { OnOk result ((changes : List (Item × Bool))
            × ((out.new.items ≡ out.old.items ++ changes)
            × AreChanges (items (settled self.now)) (items (held self.now)) changes)) }
        ensures err { (some : List (Item × Bool)) × (out.new.items ≡ out.old.items ++ some) };
}

/// The table of one kind of records.
#[derive(Drop)]
pub struct One<'a, R: AsItem> {
    pub table: &'a Table<R::Key, R::Value>,
}

impl<'a, R: AsItem> Kinds for One<'a, R> {
    ghost Held = { List (R.Key × R.Value) };

    ghost held = { λ one. one.table.now.entries };

    ghost settled = { λ one. one.table.now.settled };

    ghost items = { rows_of R.item_of };

    ghost AreInOrder = { λ entries. IsStrictlySortedBy R.Key.cmp (keys_of entries) };

    ghost is_kind = { λ i. is_some (R.entry_of i) };

    ghost AreTold = { λ one. AreFit R.Fits one.table.now.entries
        × AreFit R.Fits one.table.now.settled };

    fn known(&self) {
        self.table.known();
        R::told();
    }

    fn items_into<L: Ledger>(
        &self,
        out: &mut Vec<Item>,
        steps: &mut Steps<L>,
    ) -> Result<(), RecordFault> {
        R::told();
        rows_into::<R, L>(self.table, out, steps)
    }

    fn changes_into<L: Ledger>(
        &self,
        alloc: Global,
        out: &mut Vec<(Item, bool)>,
        steps: &mut Steps<L>,
    ) -> Result<(), RecordFault> {
        R::told();
        changes_into::<R, L>(alloc, self.table, out, steps)
    }
}

/// Kinds of records side by side with others.
#[derive(Drop)]
pub struct Both<A: Kinds, B: Kinds> {
    pub first: A,
    pub second: B,
}

impl<A: Kinds, B: Kinds> Kinds for Both<A, B> {
    ghost Held = { A.Held × B.Held };

    ghost held = { λ both. (A.held both.first, B.held both.second) };

    ghost settled = { λ both. (A.settled both.first, B.settled both.second) };

    ghost items = { λ held. A.items held.0 ++ B.items held.1 };

    ghost AreInOrder = { λ held. A.AreInOrder held.0 × B.AreInOrder held.1 };

    ghost is_kind = { either A.is_kind B.is_kind };

    ghost AreTold = { λ both. A.AreTold both.first × B.AreTold both.second
        × AreApart A.is_kind B.is_kind };

    fn known(&self) {
        self.first.known();
        self.second.known();
    }

    fn items_into<L: Ledger>(
        &self,
        out: &mut Vec<Item>,
        steps: &mut Steps<L>,
    ) -> Result<(), RecordFault> {
        self.first.known();
        self.second.known();
        self.first.items_into(out, steps)?;
        self.second.items_into(out, steps)
    }

    fn changes_into<L: Ledger>(
        &self,
        alloc: Global,
        out: &mut Vec<(Item, bool)>,
        steps: &mut Steps<L>,
    ) -> Result<(), RecordFault> {
        self.first.known();
        self.second.known();
        self.first.changes_into(alloc, out, steps)?;
        self.second.changes_into(alloc, out, steps)
    }
}
