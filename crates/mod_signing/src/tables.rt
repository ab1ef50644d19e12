//! The two tables of the window: they are marked together, and each change is of one record.

ghost use Rattle.std.specs.Prelude.{◌≡◌, ℕ, List, Bool, false, ◌++◌, ◌+◌, ◌/◌, ◌≤◌, ◌<◌, [], take, length, true, None, ◌⊎◌, OnOk, OnErr, IsErr, IsSome, option_map};
ghost use Rattle.std.specs.Option.{option_copied};
ghost use Rattle.std.specs.Ordering.{is_eq};
ghost use Rattle.base_types.specs.Orders.{cons_cmp};
ghost use Rattle.base_table.specs.Tabled.{entry_above, spent_now, value_at, with_value};
ghost use Rattle.base_roles.specs.declared.items.Item.{Item};
ghost use Rattle.base_roles.specs.Items.{AreChanges, IsOnce};
ghost use Rattle.mod_signing.specs.Kept.{Signed, signed_of, with_signed, new_window, keeping, behind, with_mark, AreInOrder, IsGoneBack, IsForgotten};
ghost use Rattle.mod_signing.specs.Rings.{ring_of, ring_with, row_cmp};
ghost use Rattle.mod_signing.specs.Calls.{IsRow, entry_told, ring_at, signed_told, told_of_entry, told_of_signed};
ghost use Rattle.mod_signing.specs.Items.{items_of};

use crate::bits::{PLACES, with_place};
use crate::entry::Entry;
use crate::walk::{changes_into, items_into, put_ring};
use base_records::mark_both;
use base_roles::{Item, Listed, RecordFault, SigningInfo};
use base_table::{Table, TableFault};
use base_types::{ConsAddr, Steps};
use std::alloc::Global;
use std::marker::Model;
use std::sync::ledger::Ledger;

/// Signing records. Once memory was wanting in a change they are spent, and each later change answers
/// `Spent`.
#[derive(Drop)]
pub(crate) struct Tables {
    /// By consensus address.
    pub(crate) entries: Table<ConsAddr, Entry>,
    /// The places of rings, 128 in a row, by the row's number and the consensus address.
    pub(crate) rows: Table<(u64, ConsAddr), u128>,
    pub(crate) spent: bool,
}

impl Model for Tables {
    ghost use Rattle.mod_signing.specs.Kept.{Windowed, HaveSameMarks, windowed};

    ghost Value = { Windowed };

    ghost view = { λ t. windowed t.entries t.rows t.spent };

    ghost invariant = { λ t. HaveSameMarks t.entries t.rows };
}

impl Tables {
    /// Empty tables. They take no memory yet.
    pub(crate) fn new(alloc: Global) -> Tables
        ensures { result ≡ new_window }
    {
        Tables {
            entries: Table::new(alloc),
            rows: Table::new(alloc),
            spent: false,
        }
    }

    /// Whether memory was wanting in a change.
    pub(crate) fn is_spent(&self) -> bool
        ensures { result ≡ self.now.spent }
    {
        self.spent
    }

    /// It tells that the keys ascend.
    pub(crate) fn known(&self)
        ensures { AreInOrder self.now.kept }
    {
        self.entries.known();
    }

    /// The info of a consensus address, and how many places its ring has.
    pub(crate) fn entry<L: Ledger>(&self, cons: &ConsAddr, steps: &mut Steps<L>) -> Option<&Entry>
        ensures found { told_of_entry (option_copied result)
            ≡ told_of_signed (signed_of self.now.kept cons.now) }
        ensures cost { steps.new ≡ steps.old + 1 }
    {
        self.entries.get(cons, steps)
    }

    /// The least consensus address above another, or of all, with its info and how many places its ring has.
    pub(crate) fn next<L: Ledger>(
        &self,
        after: Option<&ConsAddr>,
        steps: &mut Steps<L>,
    ) -> Option<(&ConsAddr, &Entry)>
        ensures above { option_map (λ e. entry_told (e.0.now, e.1.now)) result
            ≡ option_map signed_told
            (entry_above cons_cmp self.now.kept (option_copied after.entry)) }
        ensures ordered { AreInOrder self.now.kept }
    {
        self.known();
        self.entries.next(after, steps)
    }

    /// A row of the ring of a consensus address, which has 128 places of it.
    pub(crate) fn row<L: Ledger>(&self, cons: &ConsAddr, number: u64, steps: &mut Steps<L>) -> u128
        ensures row { IsRow number result (ring_at self.now.kept cons.now) }
        ensures cost { steps.new ≡ steps.old + 1 }
    {
        match self.rows.get(&(number, *cons), steps) {
            Some(row) => *row,
            None => 0,
        }
    }

    /// Puts an info, with so many of the first places of the ring.
    pub(crate) fn put_info<L: Ledger>(
        &mut self,
        cons: &ConsAddr,
        entry: Entry,
        steps: &mut Steps<L>,
    ) -> Result<(), TableFault>
        requires places { entry.places ≤ length (ring_at self.old.kept cons.now) }
        ensures ok { OnOk result (self.new ≡ keeping (with_signed cons.now (record {
          info = entry.info;
          ring = take entry.places (ring_at self.old.kept cons.now);
        }) self.old.kept) self.old) }
        ensures behind { behind self.new ≡ behind self.old }
        ensures spent { self.old.spent ≡ true → IsErr result }
        ensures spent_err { OnErr result (self.new.spent ≡ true) }
        ensures cost { steps.new ≤ steps.old + 1 }
    {
        if self.spent {
            return Err(TableFault::Spent);
        }
        self.entries.known();
        match self.entries.put(cons, entry, steps) {
            Ok(()) => Ok(()),
            Err(fault) => {
                self.spent = true;
                Err(fault)
            }
        }
    }

    /// Puts a vote at a place of the ring of a consensus address, with the info that follows from it. The
    /// place is one of the ring, or the next behind its last, and this row has it.
    pub(crate) fn put_vote<L: Ledger>(
        &mut self,
        cons: &ConsAddr,
        entry: Entry,
        place: u64,
        missed: bool,
        row: u128,
        steps: &mut Steps<L>,
    ) -> Result<(), TableFault>
        requires known { IsSome (signed_of self.old.kept cons.now) }
        requires place { place ≤ length (ring_at self.old.kept cons.now) }
        requires places { entry.places
            ≡ length (ring_with place missed (ring_at self.old.kept cons.now)) }
        requires row { IsRow (place / 128) row (ring_at self.old.kept cons.now) }
        ensures ok { OnOk result (self.new ≡ keeping (with_signed cons.now (record {
          info = entry.info;
          ring = ring_with place missed (ring_at self.old.kept cons.now);
        }) self.old.kept) self.old) }
        ensures behind { behind self.new ≡ behind self.old }
        ensures spent { self.old.spent ≡ true → IsErr result }
        ensures spent_err { OnErr result (self.new.spent ≡ true) }
        ensures cost { steps.new ≤ steps.old + 2 }
    {
        if self.spent {
            return Err(TableFault::Spent);
        }
        self.entries.known();
        // The entry first: a row is touched only where the entry of its consensus address is.
        match put_both(
            &mut self.entries,
            &mut self.rows,
            cons,
            entry,
            place / PLACES,
            with_place(row, place % PLACES, missed),
            steps,
        ) {
            Ok(()) => Ok(()),
            Err(fault) => {
                self.spent = true;
                Err(fault)
            }
        }
    }

    /// Puts a record of a consensus address: an info, and a whole ring in the place of the one that stood there.
    pub(crate) fn put_record<L: Ledger>(
        &mut self,
        cons: &ConsAddr,
        info: &SigningInfo,
        ring: &Listed<bool>,
        steps: &mut Steps<L>,
    ) -> Result<(), TableFault>
        ensures ok { OnOk result (self.new ≡ keeping (with_signed cons.now (record {
          info = info.now;
          ring = ring.now;
        }) self.old.kept) self.old) }
        ensures behind { behind self.new ≡ behind self.old }
        ensures spent { self.old.spent ≡ true → IsErr result }
        ensures spent_err { OnErr result (self.new.spent ≡ true) }
    {
        if self.spent {
            return Err(TableFault::Spent);
        }
        self.entries.known();
        let entry = Entry {
            info: *info,
            places: ring.len() as u64,
        };
        match put_whole(&mut self.entries, &mut self.rows, cons, entry, ring, steps) {
            Ok(()) => Ok(()),
            Err(fault) => {
                self.spent = true;
                Err(fault)
            }
        }
    }

    /// Appends the items of the records, each once. Where memory is wanting some of them may stand there.
    pub(crate) fn items_into<L: Ledger>(
        &self,
        alloc: Global,
        out: &mut Vec<Item>,
        steps: &mut Steps<L>,
    ) -> Result<(), RecordFault>
        ensures items { OnOk result (out.new.items ≡ out.old.items ++ items_of self.now.kept) }
        ensures once { OnOk result (IsOnce (items_of self.now.kept)) }
        ensures err { (some : List Item) × (out.new.items ≡ out.old.items ++ some) }
    {
        self.known();
        items_into(alloc, &self.entries, &self.rows, out, steps)
    }

    /// Appends the changes of the records since the last settling. Where memory is wanting some of them may
    /// stand there.
    pub(crate) fn changes_into<L: Ledger>(
        &self,
        alloc: Global,
        out: &mut Vec<(Item, bool)>,
        steps: &mut Steps<L>,
    ) -> Result<(), RecordFault>
        ensures changes { OnOk result ((changes : List (Item × Bool))
            × ((out.new.items ≡ out.old.items ++ changes)
            × AreChanges (items_of self.now.settled) (items_of self.now.kept) changes)) }
        ensures err { (some : List (Item × Bool)) × (out.new.items ≡ out.old.items ++ some) }
    {
        changes_into(alloc, &self.entries, &self.rows, out, steps)
    }

    /// Opens a mark above those that are open. Where memory is wanting, nothing changes.
    pub(crate) fn mark(&mut self) -> Result<(), TableFault>
        ensures ok { OnOk result (self.new ≡ with_mark self.old) }
        ensures err { OnErr result (self.new ≡ self.old) }
        ensures spent { self.old.spent ≡ true → IsErr result }
    {
        if self.spent {
            return Err(TableFault::Spent);
        }
        mark_both(&mut self.entries, &mut self.rows)?;
        Ok(())
    }

    /// Goes back to the latest open mark and closes it. Takes no memory.
    pub(crate) fn back(&mut self)
        requires some { 0 < length self.old.marks }
        ensures { IsGoneBack self.old self.new }
    {
        self.entries.back();
        self.rows.back();
    }

    /// Closes the latest open mark and keeps the records. Takes no memory.
    pub(crate) fn forget(&mut self)
        requires some { 0 < length self.old.marks }
        ensures { IsForgotten self.old self.new }
    {
        self.entries.forget();
        self.rows.forget();
    }

    /// Settles both tables. Takes no memory.
    pub(crate) fn settle(&mut self)
        requires closed { self.old.marks ≡ [] }
        ensures { self.new ≡ record self.old { settled = self.old.kept } }
    {
        self.entries.settle();
        self.rows.settle();
    }
}

/// Puts an entry, and a row of the same consensus address.
fn put_both<L: Ledger>(
    entries: &mut Table<ConsAddr, Entry>,
    rows: &mut Table<(u64, ConsAddr), u128>,
    cons: &ConsAddr,
    entry: Entry,
    number: u64,
    row: u128,
    steps: &mut Steps<L>,
) -> Result<(), TableFault>
    ensures entries { OnOk result (entries.new ≡ with_value cons_cmp entries.old cons.now entry) }
    ensures rows { OnOk result
        (rows.new ≡ with_value row_cmp rows.old (number, cons.now) row) }
    ensures rows_err { OnErr result (rows.new ≡ record rows.old { spent = rows.new.spent }) }
    ensures entries_err { OnErr result ((entries.new ≡ spent_now entries.old)
        ⊎ (entries.new ≡ with_value cons_cmp entries.old cons.now entry)) }
    ensures cost { steps.new ≤ steps.old + 2 }
{
    entries.put(cons, entry, steps)?;
    rows.put(&(number, *cons), row, steps)?;
    Ok(())
}

/// Puts an entry, and the rows of its ring.
fn put_whole<L: Ledger>(
    entries: &mut Table<ConsAddr, Entry>,
    rows: &mut Table<(u64, ConsAddr), u128>,
    cons: &ConsAddr,
    entry: Entry,
    ring: &Listed<bool>,
    steps: &mut Steps<L>,
) -> Result<(), TableFault>
    ensures entries { OnOk result (entries.new ≡ with_value cons_cmp entries.old cons.now entry) }
    ensures entries_err { OnErr result ((entries.new ≡ spent_now entries.old)
        ⊎ (entries.new ≡ with_value cons_cmp entries.old cons.now entry)) }
    ensures others { (other : List ℕ) (places : ℕ) → is_eq (cons_cmp other cons.now) ≡ false
        → ring_of rows.new.entries other places ≡ ring_of rows.old.entries other places }
    ensures marks { rows.new.marks ≡ rows.old.marks }
    ensures settled { rows.new.settled ≡ rows.old.settled }
    ensures touched { (other : List ℕ) (number : ℕ)
        → value_at cons_cmp entries.new.touched other ≡ None
        → value_at row_cmp rows.new.touched (number, other)
        ≡ value_at row_cmp rows.old.touched (number, other) }
    ensures ring { OnOk result
        (ring_of rows.new.entries cons.now (length ring.now) ≡ ring.now) }
{
    entries.put(cons, entry, steps)?;
    put_ring(rows, cons, ring, steps)?;
    Ok(())
}
