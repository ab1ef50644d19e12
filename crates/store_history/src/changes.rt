//! The changes that a commit makes, with those of the history.

ghost use Rattle.std.specs.Prelude.{◌≡◌, ◌++◌, map, is_some, option_and_then, option_map, IfOk, OnOk};
ghost use Rattle.std.specs.Ordering.{is_eq};
ghost use Rattle.base_io.specs.Rows.{key_cmp};
ghost use Rattle.base_io.specs.Changes.{pair_of};
ghost use Rattle.store_history.specs.Commits.{height_of, is_base, note, put_base, removal, seen};
ghost use Rattle.store_history.specs.History.{base_key, eight_bytes, head_key, height_in, kept_key, kept_value};

use crate::forms::{BASE, HEAD, KEPT, height_in};
use crate::history::History;
use crate::visible::VisibleRows;
use base_io::{Change, Row};
use std::alloc::{AllocError, Global};

/// The key of a change.
fn key_in(change: &Change) -> &[u8]
    ensures { result.now ≡ (seen change.now).0 }
{
    match change {
        Change::Put(row) => row.key.as_slice(),
        Change::Remove(key) => key.as_slice(),
    }
}

/// The value that a change puts, if any.
fn value_in(change: &Change) -> Option<&[u8]>
    ensures { option_map (λ value. value.now) result ≡ (seen change.now).1 }
{
    match change {
        Change::Put(row) => Some(row.value.as_slice()),
        Change::Remove(_) => None,
    }
}

/// The height that the value which a change puts names as one of the head.
fn named_by(change: &Change) -> Option<u64>
    ensures { result ≡ option_and_then height_in (seen change.now).1 }
{
    match value_in(change) {
        Some(value) => height_in(value),
        None => None,
    }
}

/// Whether a change is of the head.
fn is_of_head(change: &Change) -> bool
    ensures { result ≡ is_eq (key_cmp (seen change.now).0 head_key) }
{
    key_in(change).cmp(HEAD.as_slice()).is_eq()
}

/// The height of a commit: the one that its head names.
pub(crate) fn height_of(changes: &[Change]) -> Option<u64>
    ensures { result ≡ height_of (map seen changes.now) }
{
    for change in changes {
        if is_of_head(change) {
            return named_by(change);
        }
    }
    None
}

/// The key of the row that keeps what the visible row of a key was before the commit of a height.
#[tactic(auto, unfolding(crate::specs::History::eight_bytes))]
fn key_to_keep(alloc: Global, height: u64, key: &[u8]) -> Result<Vec<u8>, AllocError>
    ensures { IfOk result (λ bytes. bytes.items ≡ kept_key height key.now) }
{
    let mut bytes = Vec::new(alloc);
    bytes.push(KEPT)?;
    bytes.extend_from_slice(height.to_be_bytes().as_slice())?;
    bytes.extend_from_slice(key)?;
    Ok(bytes)
}

/// The value of such a row, where no row stood, or one of a value.
fn value_to_keep(alloc: Global, value: Option<&[u8]>) -> Result<Vec<u8>, AllocError>
    ensures { IfOk result
        (λ bytes. bytes.items ≡ kept_value (option_map (λ value. value.now) value.entry)) }
{
    let mut bytes = Vec::new(alloc);
    match value {
        None => bytes.push(0x00)?,
        Some(value) => {
            bytes.push(0x01)?;
            bytes.extend_from_slice(value)?;
        }
    }
    Ok(bytes)
}

/// What is noted of a change: what the visible row was before the commit of this height.
fn noted(
    alloc: Global,
    height: u64,
    visible: &VisibleRows,
    change: &Change,
) -> Result<Change, AllocError>
    ensures { IfOk result (λ it. seen it ≡ note height visible.now (seen change.now)) }
{
    let name = key_in(change);
    let key = key_to_keep(alloc, height, name)?;
    let value = value_to_keep(alloc, visible.get(name))?;
    Ok(Change::Put(Row { key, value }))
}

/// A copy of a change.
fn copied_change(change: &Change) -> Result<Change, AllocError>
    ensures { IfOk result (λ copy. seen copy ≡ seen change.now) }
{
    match change {
        Change::Put(row) => {
            let key = row.key.clone()?;
            let value = row.value.clone()?;
            Ok(Change::Put(Row { key, value }))
        }
        Change::Remove(key) => Ok(Change::Remove(key.clone()?)),
    }
}

/// The put of the row with the base.
#[tactic(auto, unfolding(crate::specs::History::eight_bytes))]
fn base_put(alloc: Global, height: u64) -> Result<Change, AllocError>
    ensures { IfOk result (λ it. seen it ≡ (base_key, Some (eight_bytes height))) }
{
    let mut key = Vec::new(alloc);
    key.extend_from_slice(BASE.as_slice())?;
    let mut value = Vec::new(alloc);
    value.extend_from_slice(height.to_be_bytes().as_slice())?;
    Ok(Change::Put(Row { key, value }))
}

/// Whether this height stands as the base.
fn is_height(base: Option<u64>, height: u64) -> bool
    ensures { result ≡ is_base height base }
{
    match base {
        Some(base) => base == height,
        None => false,
    }
}

/// Appends the put of the base, unless it stands.
fn append_base(
    alloc: Global,
    out: &mut Vec<Change>,
    stands: bool,
    height: u64,
) -> Result<(), AllocError>
    ensures { OnOk result
        (map seen out.new.items ≡ map seen out.old.items ++ put_base stands height) }
{
    if stands {
        return Ok(());
    }
    let change = base_put(alloc, height)?;
    out.push(change)?;
    Ok(())
}

/// Appends what is noted of the changes.
fn append_notes(
    alloc: Global,
    out: &mut Vec<Change>,
    height: u64,
    visible: &VisibleRows,
    changes: &[Change],
) -> Result<(), AllocError>
    ensures { OnOk result (map seen out.new.items
        ≡ map seen out.old.items ++ map (note height visible.now) (map seen changes.now)) }
{
    for change in changes {
        let it = noted(alloc, height, visible, change)?;
        out.push(it)?;
    }
    Ok(())
}

/// Appends copies of the changes.
fn append_copies(out: &mut Vec<Change>, changes: &[Change]) -> Result<(), AllocError>
    ensures { OnOk result
        (map seen out.new.items ≡ map seen out.old.items ++ map seen changes.now) }
{
    for change in changes {
        let copy = copied_change(change)?;
        out.push(copy)?;
    }
    Ok(())
}

/// The removal of a row.
fn removal_of(row: &Row) -> Result<Change, AllocError>
    ensures { IfOk result (λ it. seen it ≡ removal (pair_of row.now)) }
{
    Ok(Change::Remove(row.key.clone()?))
}

/// Appends the removals of rows.
fn append_removals(out: &mut Vec<Change>, rows: &[Row]) -> Result<(), AllocError>
    ensures { OnOk result (map seen out.new.items
        ≡ map seen out.old.items ++ map removal (map pair_of rows.now)) }
{
    for row in rows {
        let it = removal_of(row)?;
        out.push(it)?;
    }
    Ok(())
}

/// The changes of a commit that goes on from the last height to a greater one.
pub(crate) fn going_on(
    alloc: Global,
    history: &History,
    last: u64,
    height: u64,
    changes: &[Change],
) -> Result<Vec<Change>, AllocError>
    ensures { IfOk result (λ list. map seen list.items ≡ put_base (is_some history.now.base) last
        ++ (map (note height history.now.visible) (map seen changes.now) ++ map seen changes.now)) }
{
    let mut list = Vec::new(alloc);
    append_base(alloc, &mut list, history.base.is_some(), last)?;
    append_notes(alloc, &mut list, height, &history.visible, changes)?;
    append_copies(&mut list, changes)?;
    Ok(list)
}

/// The changes of a commit that begins a new history at its height: these rows go.
pub(crate) fn anew(
    alloc: Global,
    kept: &[Row],
    base: Option<u64>,
    height: u64,
    changes: &[Change],
) -> Result<Vec<Change>, AllocError>
    ensures { IfOk result (λ list. map seen list.items ≡ map removal (map pair_of kept.now)
        ++ (put_base (is_base height base) height ++ map seen changes.now)) }
{
    let mut list = Vec::new(alloc);
    append_removals(&mut list, kept)?;
    append_base(alloc, &mut list, is_height(base, height), height)?;
    append_copies(&mut list, changes)?;
    Ok(list)
}
