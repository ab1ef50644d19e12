//! Rows of the first format brought to the second.

ghost use Rattle.std.specs.Prelude.{◌≡◌, ◌++◌, All, List, map, IfErr, IfOk, OnOk};
ghost use Rattle.base_io.specs.Changes.{IsOrdinary, pair_of};
ghost use Rattle.base_roles.specs.declared.items.Item.{Item};
ghost use Rattle.store_rows.specs.declared.format.Format.TheVariants.{First};
ghost use Rattle.store_rows.specs.Rows.{row_in};
ghost use Rattle.store_rows.specs.Spelled.{HasRow};
ghost use Rattle.store_items.specs.Making.{change_seen};
ghost use Rattle.store_items.specs.Migrating.{AreListed, AreOld, IsMigration, change_between};

use base_io::{Change, Row};
use std::alloc::Global;
use store_rows::{Format, RowFault, decode, encode};

/// Appends the put of a row's item in the second format, where its value is another there.
fn push_between(alloc: Global, changes: &mut Vec<Change>, row: &Row) -> Result<(), RowFault>
    ensures made { (item : Item) → HasRow item → row_in First item ≡ pair_of row.now
        → OnOk result (map change_seen changes.new.items
        ≡ map change_seen changes.old.items ++ change_between item) }
    ensures fault { (item : Item) → HasRow item → row_in First item ≡ pair_of row.now
        → IfErr result (λ fault. fault ≡ RowFault.NoMemory) }
{
    let item = decode(alloc, Format::First, row)?;
    let second = encode(alloc, Format::Second, &item)?;
    if row.value.as_slice().cmp(second.value.as_slice()).is_eq() {
        return Ok(());
    }
    changes.push(Change::Put(second))?;
    Ok(())
}

/// The changes that bring the rows of a chain from the first format to the second: a put of the
/// last height and time, and one of each signing record whose bytes are others in the second
/// format.
///
/// # Errors
/// `NoMemory` alone, where each row is that of an item; else also `BadRow`.
pub fn migrate(alloc: Global, rows: &[Row]) -> Result<Vec<Change>, RowFault>
    ensures made { (items : List Item) → AreOld items (map pair_of rows.now)
        → IfOk result (λ list. IsMigration items list.items) }
    // Every keeper takes them, in whatever order the rows stand.
    ensures taken { (items : List Item) → AreListed First items (map pair_of rows.now)
        → IfOk result (λ list. IsOrdinary list.items) }
    ensures fault { (items : List Item) → All HasRow items
        → map (row_in First) items ≡ map pair_of rows.now
        → IfErr result (λ fault. fault ≡ RowFault.NoMemory) }
{
    let mut changes = Vec::new(alloc);
    for row in rows {
        push_between(alloc, &mut changes, row)?;
    }
    Ok(changes)
}
