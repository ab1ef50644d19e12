//! Rows that are read: the base of their history, and the visible ones.

ghost use Rattle.std.specs.Prelude.{◌≡◌, ◌↔◌, map, true, IfOk, IfSome, IsTrue, OnOk};
ghost use Rattle.std.specs.List.{AllByRecursion};
ghost use Rattle.base_io.specs.Changes.{changed, pair_of, value_of, Rises};
ghost use Rattle.store_history.specs.Commits.{is_kept};
ghost use Rattle.store_history.specs.Held.{base_after, base_with, kept_with, shown_with};
ghost use Rattle.store_history.specs.History.{head_key, last_of, stored_base, visible, IsFormed, IsHead, IsHistory};
ghost use Rattle.std.specs.Prelude.{filter};

use crate::forms::{BASE, HEAD, KEPT, are_formed, base_in, height_in, is_visible};
use crate::visible::VisibleRows;
use base_io::{Change, Row};
use std::alloc::{AllocError, Global};

/// What is known of the rows of a keeper: the base of their history, where it stands, and the visible rows.
#[derive(Drop)]
pub struct History {
    pub(crate) base: Option<u64>,
    pub(crate) visible: VisibleRows,
}

impl History {
    /// The last height: that of the head, where it stands.
    pub(crate) fn last(&self) -> Option<u64>
        ensures { result ≡ last_of self.now.visible }
    {
        match self.visible.get(HEAD.as_slice()) {
            Some(value) => height_in(value),
            None => None,
        }
    }

    /// Whether the head, where it stands, names a height.
    fn has_head(&self) -> bool
        ensures { IsTrue result ↔ IfSome (value_of head_key self.now.visible) IsHead }
    {
        match self.visible.get(HEAD.as_slice()) {
            Some(value) => height_in(value).is_some(),
            None => true,
        }
    }

    /// Puts a copy of a row.
    fn put(&mut self, row: &Row) -> Result<(), AllocError>
        ensures visible { OnOk result
            (self.new.visible ≡ shown_with (pair_of row.now) self.old.visible) }
        ensures base { self.new.base ≡ self.old.base }
    {
        if !is_visible(row.key.as_slice()) {
            return Ok(());
        }
        let key = row.key.clone()?;
        let value = row.value.clone()?;
        self.visible.put(key, value)
    }

    /// Follows the changes of a commit of a height, and answers whether there was memory for it. Where there was
    /// none, what is known is no more of use.
    pub(crate) fn follow(&mut self, changes: &[Change], height: u64) -> bool
        ensures visible { IsTrue result
            → self.new.visible ≡ changed changes.now self.old.visible }
        ensures base { self.new.base ≡ base_after self.old.base (last_of self.old.visible) height }
    {
        self.base = match self.last() {
            Some(last) if last < height => Some(self.base.unwrap_or(last)),
            _ => Some(height),
        };
        self.visible.change_all(changes).is_ok()
    }

    /// Reads a row.
    fn read(&mut self, row: &Row) -> Result<(), AllocError>
        ensures visible { OnOk result
            (self.new.visible ≡ shown_with (pair_of row.now) self.old.visible) }
        ensures base { OnOk result (self.new.base ≡ base_with (pair_of row.now) self.old.base) }
    {
        self.put(row)?;
        if row.key.as_slice().cmp(BASE.as_slice()).is_eq() {
            self.base = base_in(row.value.as_slice());
        }
        Ok(())
    }
}

/// What is seen of rows.
pub(crate) fn history_of(alloc: Global, rows: &[Row]) -> Result<History, AllocError>
    ensures visible { IfOk result (λ seen. Rises (map pair_of rows.now)
        → seen.visible ≡ visible (map pair_of rows.now)) }
    ensures base { IfOk result (λ seen. Rises (map pair_of rows.now)
        → seen.base ≡ stored_base (map pair_of rows.now)) }
{
    let mut seen = History {
        base: None,
        visible: VisibleRows::new(alloc),
    };
    for row in rows {
        seen.read(row)?;
    }
    Ok(seen)
}

/// Whether a history in these rows, of which this is seen, is of its form.
pub(crate) fn is_history(seen: &History, rows: &[Row]) -> bool
    ensures { Rises (map pair_of rows.now) → seen.now.visible ≡ visible (map pair_of rows.now)
        → seen.now.base ≡ stored_base (map pair_of rows.now)
        → (IsTrue result ↔ IsHistory (map pair_of rows.now)) }
{
    if !seen.has_head() {
        return false;
    }
    are_formed(seen.base, seen.last(), rows)
}

/// Adds a row to those that keep something, if it does.
fn keep(kept: &mut VisibleRows, row: &Row) -> Result<(), AllocError>
    ensures { OnOk result (kept.new ≡ kept_with (pair_of row.now) kept.old) }
{
    match row.key.as_slice() {
        [first, ..] if *first == KEPT => {
            let key = row.key.clone()?;
            let value = row.value.clone()?;
            kept.put(key, value)
        }
        _ => Ok(()),
    }
}

/// The rows that keep something, in ascending order of the keys.
pub(crate) fn kept_of(alloc: Global, rows: &[Row]) -> Result<Vec<Row>, AllocError>
    ensures rises { IfOk result (λ list. Rises (map pair_of list.items)) }
    ensures kept { IfOk result
        (λ list. AllByRecursion (λ p. is_kept p.0 ≡ true) (map pair_of list.items)) }
    ensures all { IfOk result (λ list. Rises (map pair_of rows.now)
        → map pair_of list.items ≡ filter (λ p. is_kept p.0) (map pair_of rows.now)) }
{
    let mut kept = VisibleRows::new(alloc);
    for row in rows {
        keep(&mut kept, row)?;
    }
    kept.into_rows()
}
