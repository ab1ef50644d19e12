//! Past rows.

ghost use Rattle.std.specs.Prelude.{◌≡◌, Some, map, IfOk, OnOk};
ghost use Rattle.std.specs.List.{AllByRecursion};
ghost use Rattle.base_io.specs.Changes.{pair_of, Rises};
ghost use Rattle.base_io.specs.Rows.{put};
ghost use Rattle.store_history.specs.Answers.{Tells};
ghost use Rattle.store_history.specs.Commits.{made_by};
ghost use Rattle.store_history.specs.Held.{restored, undone, IsWhole};
ghost use Rattle.store_history.specs.History.{last_of, stored_base, visible, was, IsHistory};

use crate::forms::{kept_key, was};
use crate::history::{History, history_of, is_history};
use crate::visible::VisibleRows;
use base_io::Row;
use std::alloc::{AllocError, Global};

/// Why there are no past rows.
#[derive(Clone, Copy, Debug, PartialEq, Eq)]
pub enum PastFault {
    /// The history is not of its form, or no head stands.
    BadHistory,
    /// The history tells nothing of this height: it is not between these, the base and the last height.
    NoPast(u64, u64),
    /// Memory is wanting.
    NoMemory,
}

impl From<AllocError> for PastFault {
    ghost use Rattle.store_history.specs.declared.going_back.PastFault.TheVariants.{NoMemory};

    ghost from_gives = { λ _ e. e ≡ NoMemory };

    fn from(_: AllocError) -> PastFault {
        PastFault::NoMemory
    }
}

/// Copies of bytes.
fn copied(alloc: Global, bytes: &[u8]) -> Result<Vec<u8>, AllocError>
    ensures { IfOk result (λ copy. copy.items ≡ bytes.now) }
{
    let mut copy = Vec::with_capacity(alloc, bytes.len())?;
    copy.extend_from_slice(bytes)?;
    Ok(copy)
}

/// Puts a row of copies.
fn put_copy(
    alloc: Global,
    rows: &mut VisibleRows,
    key: &[u8],
    value: &[u8],
) -> Result<(), AllocError>
    ensures { OnOk result (rows.new ≡ put (key.now, value.now) rows.old) }
{
    let key = copied(alloc, key)?;
    let value = copied(alloc, value)?;
    rows.put(key, value)
}

/// Makes the row of a key as it was, by a value that keeps it.
fn restore_value(
    alloc: Global,
    rows: &mut VisibleRows,
    key: &[u8],
    kept: &[u8],
) -> Result<(), AllocError>
    ensures { OnOk result (rows.new ≡ made_by key.now (was kept.now) rows.old) }
{
    match was(kept) {
        Some(value) => put_copy(alloc, rows, key, value),
        None => {
            rows.remove(key);
            Ok(())
        }
    }
}

/// Makes a row as it was before the commit that this row is of, if that is above the height.
fn restore(alloc: Global, rows: &mut VisibleRows, row: &Row, height: u64) -> Result<(), AllocError>
    ensures { OnOk result (IsWhole (pair_of row.now)
        → rows.new ≡ restored height (pair_of row.now) rows.old) }
{
    match kept_key(row.key.as_slice()) {
        Some((changed, name)) => {
            if changed <= height {
                return Ok(());
            }
            restore_value(alloc, rows, name, row.value.as_slice())
        }
        None => Ok(()),
    }
}

/// Goes back to a height: of each key the first row that keeps something above it decides, and so comes last.
fn undo(
    alloc: Global,
    visible: &mut VisibleRows,
    rows: &[Row],
    height: u64,
) -> Result<(), AllocError>
    ensures { OnOk result (AllByRecursion IsWhole (map pair_of rows.now)
        → visible.new ≡ undone height (map pair_of rows.now) visible.old) }
{
    let mut at = rows.len();
    while at > 0 {
        at -= 1;
        restore(alloc, visible, &rows[at], height)?;
    }
    Ok(())
}

/// The past rows at a height, of rows with this last height of which this is known.
fn past_at(
    alloc: Global,
    history: History,
    rows: &[Row],
    last: u64,
    height: u64,
) -> Result<Vec<Row>, PastFault>
    ensures { Rises (map pair_of rows.now) → history.visible ≡ visible (map pair_of rows.now)
        → history.base ≡ stored_base (map pair_of rows.now) → Some last ≡ last_of history.visible
        → IsHistory (map pair_of rows.now) → Tells (map pair_of rows.now) height result }
{
    let History { base, mut visible } = history;
    let base = base.unwrap_or(last);
    if height < base {
        return Err(PastFault::NoPast(base, last));
    }
    if last < height {
        return Err(PastFault::NoPast(base, last));
    }
    undo(alloc, &mut visible, rows, height)?;
    let past = visible.into_rows()?;
    Ok(past)
}

/// The past rows at a height, in ascending order of the keys: of each visible key what it had after the
/// last commit of at most this height. The rows are those of a keeper, whose keys ascend.
///
/// # Errors
/// `BadHistory` where the history is not of its form or no head stands, `NoPast` where the height is below
/// the base or above the last height, and `NoMemory`.
pub fn past(alloc: Global, rows: &[Row], height: u64) -> Result<Vec<Row>, PastFault>
    ensures { Rises (map pair_of rows.now) → Tells (map pair_of rows.now) height result }
{
    let history = history_of(alloc, rows)?;
    if !is_history(&history, rows) {
        return Err(PastFault::BadHistory);
    }
    match history.last() {
        Some(last) => past_at(alloc, history, rows, last, height),
        None => Err(PastFault::BadHistory),
    }
}
